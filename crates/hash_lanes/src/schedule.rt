// The message schedule (FIPS 180-4, section 6.2.2, step 1), sixteen words of four blocks at a time.

ghost use Rattle.std.specs.Prelude.{◌≡◌, ℕ, ◌+◌, ◌<◌, ◌≤◌, List, slice_index};
ghost use Rattle.sha2.specs.Sha256.{add32, schedule, small_sigma0, small_sigma1};
ghost use Rattle.hash_lanes.specs.Lanes.{lane_of};
ghost use Rattle.hash_lanes.specs.Words.{AreFrom};

use crate::lanes::{add, small_sigma0, small_sigma1};
use std::simd::u32x4;

// A word from those that stand 2, 7, 15 and 16 places before it.
#[inline(always)]
fn following(two: u32x4, seven: u32x4, fifteen: u32x4, sixteen: u32x4) -> u32x4
    ensures { (i : ℕ) → i < 4 → slice_index result i
        ≡ add32 (add32 (add32 (small_sigma1 (slice_index two i)) (slice_index seven i))
        (small_sigma0 (slice_index fifteen i)))
        (slice_index sixteen i) }
{
    let near = add(small_sigma1(two), seven);
    let three = add(near, small_sigma0(fifteen));
    add(three, sixteen)
}

/// The next sixteen words of the schedule, from the sixteen before them, of which word `FROM` is the first.
pub(crate) fn next_sixteen<const FROM: usize>(words: &[u32x4; 16]) -> [u32x4; 16]
    requires { FROM + 32 ≤ 64 }
    ensures { (block : List ℕ) (i : ℕ) → i < 4
        → AreFrom (lane_of words.now i) (schedule block 48) FROM 16
        → AreFrom (lane_of result i) (schedule block 48) (FROM + 16) 16 }
{
    let w16 = following(words[14], words[9], words[1], words[0]);
    let w17 = following(words[15], words[10], words[2], words[1]);
    let w18 = following(w16, words[11], words[3], words[2]);
    let w19 = following(w17, words[12], words[4], words[3]);
    let w20 = following(w18, words[13], words[5], words[4]);
    let w21 = following(w19, words[14], words[6], words[5]);
    let w22 = following(w20, words[15], words[7], words[6]);
    let w23 = following(w21, w16, words[8], words[7]);
    let w24 = following(w22, w17, words[9], words[8]);
    let w25 = following(w23, w18, words[10], words[9]);
    let w26 = following(w24, w19, words[11], words[10]);
    let w27 = following(w25, w20, words[12], words[11]);
    let w28 = following(w26, w21, words[13], words[12]);
    let w29 = following(w27, w22, words[14], words[13]);
    let w30 = following(w28, w23, words[15], words[14]);
    let w31 = following(w29, w24, w16, words[15]);
    [
        w16, w17, w18, w19, w20, w21, w22, w23, w24, w25, w26, w27, w28, w29, w30, w31,
    ]
}
