// The rounds of SHA-256 (FIPS 180-4, section 6.2.2, step 3), each for four blocks.
//
// The steps of a leaf's chains have the first five words of a block in common, so the rounds come in fives, which may be
// done once for a leaf, and the elevens behind them. Each set of rounds is a function of its own, by the number of its
// first round, with one caller: so the compiler puts it there, and knows its constants.

ghost use Rattle.std.specs.Prelude.{◌≡◌, ℕ, ◌+◌, ◌<◌, ◌≤◌, List, slice_index};
ghost use Rattle.sha2.specs.Sha256.{round, rounds, temp1};
ghost use Rattle.hash_lanes.specs.Lanes.{lane_of};
ghost use Rattle.hash_lanes.specs.Words.{AreFrom};

use crate::constants::ROUND_CONSTANTS;
use crate::lanes::{add, big_sigma0, big_sigma1, ch, maj};
use std::simd::u32x4;

// T1 of a round, which the first variable and the fifth are made with.
#[inline(always)]
fn mixed(v: [u32x4; 8], constant: u32, word: u32x4) -> u32x4
    ensures { (i : ℕ) → i < 4
        → slice_index result i ≡ temp1 (lane_of v i) constant (slice_index word i) }
{
    let variables = add(add(v[7], big_sigma1(v[4])), ch(v[4], v[5], v[6]));
    add(add(variables, u32x4::splat(constant)), word)
}

// The working variables after a round: two are new, and the others move on by one place.
#[inline(always)]
fn round(v: [u32x4; 8], constant: u32, word: u32x4) -> [u32x4; 8]
    ensures { (i : ℕ) → i < 4
        → lane_of result i ≡ round (lane_of v i) constant (slice_index word i) }
{
    let mix = mixed(v, constant, word);
    let top = add(big_sigma0(v[0]), maj(v[0], v[1], v[2]));
    [
        add(mix, top),
        v[0],
        v[1],
        v[2],
        add(v[3], mix),
        v[4],
        v[5],
        v[6],
    ]
}

/// Five rounds, of which round `FROM` is the first, with these words.
pub(crate) fn five_rounds<const FROM: usize>(words: &[u32x4; 5], v: [u32x4; 8]) -> [u32x4; 8]
    requires { FROM + 5 ≤ 64 }
    ensures { (start all : List ℕ) (i : ℕ) → i < 4 → AreFrom (lane_of words.now i) all FROM 5
        → lane_of v i ≡ rounds start all FROM → lane_of result i ≡ rounds start all (FROM + 5) }
{
    let v1 = round(v, ROUND_CONSTANTS[FROM], words[0]);
    let v2 = round(v1, ROUND_CONSTANTS[FROM + 1], words[1]);
    let v3 = round(v2, ROUND_CONSTANTS[FROM + 2], words[2]);
    let v4 = round(v3, ROUND_CONSTANTS[FROM + 3], words[3]);
    round(v4, ROUND_CONSTANTS[FROM + 4], words[4])
}

/// The eleven rounds behind the first five of sixteen, with these sixteen words.
pub(crate) fn eleven_rounds<const FROM: usize>(words: &[u32x4; 16], v: [u32x4; 8]) -> [u32x4; 8]
    requires { FROM + 16 ≤ 64 }
    ensures { (start all : List ℕ) (i : ℕ) → i < 4 → AreFrom (lane_of words.now i) all FROM 16
        → lane_of v i ≡ rounds start all (FROM + 5)
        → lane_of result i ≡ rounds start all (FROM + 16) }
{
    let v6 = round(v, ROUND_CONSTANTS[FROM + 5], words[5]);
    let v7 = round(v6, ROUND_CONSTANTS[FROM + 6], words[6]);
    let v8 = round(v7, ROUND_CONSTANTS[FROM + 7], words[7]);
    let v9 = round(v8, ROUND_CONSTANTS[FROM + 8], words[8]);
    let v10 = round(v9, ROUND_CONSTANTS[FROM + 9], words[9]);
    let v11 = round(v10, ROUND_CONSTANTS[FROM + 10], words[10]);
    let v12 = round(v11, ROUND_CONSTANTS[FROM + 11], words[11]);
    let v13 = round(v12, ROUND_CONSTANTS[FROM + 12], words[12]);
    let v14 = round(v13, ROUND_CONSTANTS[FROM + 13], words[13]);
    let v15 = round(v14, ROUND_CONSTANTS[FROM + 14], words[14]);
    round(v15, ROUND_CONSTANTS[FROM + 15], words[15])
}

/// Sixteen rounds, of which round `FROM` is the first, with these words.
pub(crate) fn sixteen_rounds<const FROM: usize>(words: &[u32x4; 16], v: [u32x4; 8]) -> [u32x4; 8]
    requires { FROM + 16 ≤ 64 }
    ensures { (start all : List ℕ) (i : ℕ) → i < 4 → AreFrom (lane_of words.now i) all FROM 16
        → lane_of v i ≡ rounds start all FROM → lane_of result i ≡ rounds start all (FROM + 16) }
{
    let first = [words[0], words[1], words[2], words[3], words[4]];
    let after_five = five_rounds::<FROM>(&first, v);
    eleven_rounds::<FROM>(words, after_five)
}
