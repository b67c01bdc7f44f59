// The functions on words of FIPS 180-4, section 4.1.2, on four words at a time.

ghost use Rattle.std.specs.Prelude.{◌≡◌, ℕ, ◌+◌, ◌*◌, ◌/◌, ◌%◌, ◌^◌, ◌<◌, ◌≢◌, List, bit_and, bit_or, bit_xor, true, false, slice_index, slice_index_or, slice_set, length};
ghost use Rattle.std.specs.Int.{w32, bit_not, rotate_right};
ghost use Rattle.hash_lanes.specs.Lanes.{lane_of};
ghost use Rattle.sha2.specs.Sha256.{add32, big_sigma0, big_sigma1, ch, maj, small_sigma0, small_sigma1, word_at};

use std::simd::u32x4;

#[inline(always)]
pub(crate) fn add(a: u32x4, b: u32x4) -> u32x4
    ensures { (i : ℕ) → i < 4 → slice_index result i ≡ add32 (slice_index a i) (slice_index b i) }
{
    a + b
}

#[inline(always)]
fn xor(a: u32x4, b: u32x4) -> u32x4
    ensures { (i : ℕ) → i < 4 → slice_index result i ≡ bit_xor (slice_index a i) (slice_index b i) }
{
    a ^ b
}

#[inline(always)]
fn and(a: u32x4, b: u32x4) -> u32x4
    ensures { (i : ℕ) → i < 4 → slice_index result i ≡ bit_and (slice_index a i) (slice_index b i) }
{
    a & b
}

#[inline(always)]
pub(crate) fn or(a: u32x4, b: u32x4) -> u32x4
    ensures { (i : ℕ) → i < 4 → slice_index result i ≡ bit_or (slice_index a i) (slice_index b i) }
{
    a | b
}

// There is no rotation of a vector: two shifts are one.
#[inline(always)]
fn rotate_right(a: u32x4, k: u32) -> u32x4
    requires low { 0 < k }
    requires high { k < 32 }
    ensures { (i : ℕ) → i < 4 → slice_index result i ≡ rotate_right w32 (slice_index a i) k }
{
    (a >> u32x4::splat(k)) | (a << u32x4::splat(32 - k))
}

#[inline(always)]
pub(crate) fn shift_left(a: u32x4, k: u32) -> u32x4
    requires { k < 32 }
    ensures { (i : ℕ) → i < 4 → slice_index result i ≡ slice_index a i * 2 ^ k % 2 ^ 32 }
{
    a << u32x4::splat(k)
}

#[inline(always)]
pub(crate) fn shift_right(a: u32x4, k: u32) -> u32x4
    requires { k < 32 }
    ensures { (i : ℕ) → i < 4 → slice_index result i ≡ slice_index a i / 2 ^ k }
{
    a >> u32x4::splat(k)
}

#[inline(always)]
fn not(a: u32x4) -> u32x4
    ensures { (i : ℕ) → i < 4 → slice_index result i ≡ bit_not w32 (slice_index a i) }
{
    !a
}

#[inline(always)]
pub(crate) fn ch(x: u32x4, y: u32x4, z: u32x4) -> u32x4
    ensures { (i : ℕ) → i < 4
        → slice_index result i ≡ ch (slice_index x i) (slice_index y i) (slice_index z i) }
{
    xor(and(x, y), and(not(x), z))
}

#[inline(always)]
pub(crate) fn maj(x: u32x4, y: u32x4, z: u32x4) -> u32x4
    ensures { (i : ℕ) → i < 4
        → slice_index result i ≡ maj (slice_index x i) (slice_index y i) (slice_index z i) }
{
    xor(xor(and(x, y), and(x, z)), and(y, z))
}

// A rotation of an xor is the xor of the rotations, and two rotations are one by the sum of their distances, modulo 32. So
// a sigma below rotates last by one of its distances, and before that only by what leads from there to the others: a vector
// is copied less often than where each rotation begins with it.
#[inline(always)]
pub(crate) fn big_sigma0(x: u32x4) -> u32x4
    ensures { (i : ℕ) → i < 4 → slice_index result i ≡ big_sigma0 (slice_index x i) }
{
    let inner = xor(x, rotate_right(x, 21));
    let outer = xor(x, rotate_right(inner, 23));
    rotate_right(outer, 22)
}

#[inline(always)]
pub(crate) fn big_sigma1(x: u32x4) -> u32x4
    ensures { (i : ℕ) → i < 4 → slice_index result i ≡ big_sigma1 (slice_index x i) }
{
    let inner = xor(x, rotate_right(x, 27));
    let outer = xor(x, rotate_right(inner, 18));
    rotate_right(outer, 25)
}

#[inline(always)]
pub(crate) fn small_sigma0(x: u32x4) -> u32x4
    ensures { (i : ℕ) → i < 4 → slice_index result i ≡ small_sigma0 (slice_index x i) }
{
    let inner = xor(x, rotate_right(x, 21));
    xor(rotate_right(inner, 18), shift_right(x, 3))
}

#[inline(always)]
pub(crate) fn small_sigma1(x: u32x4) -> u32x4
    ensures { (i : ℕ) → i < 4 → slice_index result i ≡ small_sigma1 (slice_index x i) }
{
    let inner = xor(x, rotate_right(x, 30));
    xor(rotate_right(inner, 19), shift_right(x, 10))
}

// The lanes of `a` where `moves` is not 0, and else those of `b`.
#[inline(always)]
pub(crate) fn choose(moves: u32x4, a: u32x4, b: u32x4) -> u32x4
    ensures moved { (i : ℕ) → i < 4 → 0 < slice_index moves i
        → slice_index result i ≡ slice_index a i }
    ensures left { (i : ℕ) → i < 4 → slice_index moves i ≡ 0
        → slice_index result i ≡ slice_index b i }
{
    u32x4::splat(0).simd_lt(moves).select(a, b)
}

// 1 in the lanes that move, and 0 in the others.
#[inline(always)]
fn mask_of(moves: &[bool; 4]) -> u32x4
    ensures moved { (i : ℕ) → i < 4 → slice_index_or moves.now i false ≡ true
        → 0 < slice_index result i }
    ensures left { (i : ℕ) → i < 4 → slice_index_or moves.now i false ≡ false
        → slice_index result i ≡ 0 }
{
    u32x4::from_array([
        u32::from(moves[0]),
        u32::from(moves[1]),
        u32::from(moves[2]),
        u32::from(moves[3]),
    ])
}

/// The words of `moved` in the lanes that move, and those of `stayed` in the others.
#[inline(always)]
pub(crate) fn chosen(moves: &[bool; 4], moved: &[u32x4; 8], stayed: &[u32x4; 8]) -> [u32x4; 8]
    ensures moved { (i : ℕ) → i < 4 → slice_index_or moves.now i false ≡ true
        → lane_of result i ≡ lane_of moved.now i }
    ensures left { (i : ℕ) → i < 4 → slice_index_or moves.now i false ≡ false
        → lane_of result i ≡ lane_of stayed.now i }
{
    let mask = mask_of(moves);
    [
        choose(mask, moved[0], stayed[0]),
        choose(mask, moved[1], stayed[1]),
        choose(mask, moved[2], stayed[2]),
        choose(mask, moved[3], stayed[3]),
        choose(mask, moved[4], stayed[4]),
        choose(mask, moved[5], stayed[5]),
        choose(mask, moved[6], stayed[6]),
        choose(mask, moved[7], stayed[7]),
    ]
}

/// The vector with `word` in one lane.
#[inline(always)]
pub(crate) fn with_lane(vector: u32x4, lane: usize, word: u32) -> u32x4
    requires { lane < 4 }
    ensures there { slice_index result lane ≡ word }
    ensures others { (i : ℕ) → i ≢ lane → slice_index result i ≡ slice_index vector i }
{
    let mut lanes = vector.to_array();
    lanes[lane] = word;
    u32x4::from_array(lanes)
}

/// The words in one lane.
#[inline(always)]
pub(crate) fn words_in(vectors: &[u32x4; 8], lane: usize) -> [u32; 8]
    requires { lane < 4 }
    ensures { result ≡ lane_of vectors.now lane }
{
    [
        vectors[0].to_array()[lane],
        vectors[1].to_array()[lane],
        vectors[2].to_array()[lane],
        vectors[3].to_array()[lane],
        vectors[4].to_array()[lane],
        vectors[5].to_array()[lane],
        vectors[6].to_array()[lane],
        vectors[7].to_array()[lane],
    ]
}
