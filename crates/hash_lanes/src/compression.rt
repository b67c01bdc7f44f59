// The compression of one block in each lane (FIPS 180-4, section 6.2.2), from the initial hash value: a message of one
// block needs no other.

ghost use Rattle.std.specs.Prelude.{◌≡◌, ℕ, ◌<◌, List, slice_index};
ghost use Rattle.sha2.specs.Sha256.{add_state, compress, initial_hash_256, rounds, schedule};
ghost use Rattle.hash_lanes.specs.Lanes.{lane_of};
ghost use Rattle.hash_lanes.specs.Words.{BeginsWith, HasWords};

use crate::constants::INITIAL;
use crate::lanes::add;
use crate::rounds::{eleven_rounds, five_rounds, sixteen_rounds};
use crate::schedule::next_sixteen;
use std::simd::u32x4;

// The initial hash value in each lane.
#[inline(always)]
fn initial() -> [u32x4; 8]
    ensures { (i : ℕ) → i < 4 → lane_of result i ≡ initial_hash_256 }
{
    [
        u32x4::splat(INITIAL[0]),
        u32x4::splat(INITIAL[1]),
        u32x4::splat(INITIAL[2]),
        u32x4::splat(INITIAL[3]),
        u32x4::splat(INITIAL[4]),
        u32x4::splat(INITIAL[5]),
        u32x4::splat(INITIAL[6]),
        u32x4::splat(INITIAL[7]),
    ]
}

/// The working variables after the first five rounds, of the words of I, which are the same in all lanes, and of each lane's leaf.
#[inline(never)]
pub(crate) fn first_rounds(id: &[u32; 4], leaves: &[u32; 4]) -> [u32x4; 8]
    ensures { (b : List ℕ) (i : ℕ) → i < 4 → BeginsWith b id.now (slice_index leaves.now i)
        → lane_of result i ≡ rounds initial_hash_256 (schedule b 48) 5 }
{
    let in_lanes = [
        u32x4::splat(id[0]),
        u32x4::splat(id[1]),
        u32x4::splat(id[2]),
        u32x4::splat(id[3]),
        u32x4::from_array(*leaves),
    ];
    five_rounds::<0>(&in_lanes, initial())
}

// The hash values: each word of the initial one, with the working variable of that place added.
#[inline(always)]
fn hash_values(v: &[u32x4; 8]) -> [u32x4; 8]
    ensures { (i : ℕ) → i < 4 → lane_of result i ≡ add_state initial_hash_256 (lane_of v.now i) }
{
    [
        add(u32x4::splat(INITIAL[0]), v[0]),
        add(u32x4::splat(INITIAL[1]), v[1]),
        add(u32x4::splat(INITIAL[2]), v[2]),
        add(u32x4::splat(INITIAL[3]), v[3]),
        add(u32x4::splat(INITIAL[4]), v[4]),
        add(u32x4::splat(INITIAL[5]), v[5]),
        add(u32x4::splat(INITIAL[6]), v[6]),
        add(u32x4::splat(INITIAL[7]), v[7]),
    ]
}

/// The hash values of four blocks, from their words and from what the first five rounds made.
#[inline(always)]
pub(crate) fn compressed(words: &[u32x4; 16], after_five: [u32x4; 8]) -> [u32x4; 8]
    ensures { (b : List ℕ) (i : ℕ) → i < 4 → HasWords (lane_of words.now i) b
        → lane_of after_five i ≡ rounds initial_hash_256 (schedule b 48) 5
        → lane_of result i ≡ compress initial_hash_256 b }
{
    let from_16 = next_sixteen::<0>(words);
    let from_32 = next_sixteen::<16>(&from_16);
    let from_48 = next_sixteen::<32>(&from_32);
    let after_16 = eleven_rounds::<0>(words, after_five);
    let after_32 = sixteen_rounds::<16>(&from_16, after_16);
    let after_48 = sixteen_rounds::<32>(&from_32, after_32);
    let after_64 = sixteen_rounds::<48>(&from_48, after_48);
    hash_values(&after_64)
}
