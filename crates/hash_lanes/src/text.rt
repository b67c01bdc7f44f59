// The block of a step: its text of 55 bytes and the padding, which is one byte 0x80 and the length in bits.

ghost use Rattle.std.specs.Prelude.{◌≡◌, ℕ, ◌+◌, ◌*◌, ◌/◌, ◌%◌, ◌^◌, ◌<◌, ◌≤◌, List, [], ◌∷◌, ◌++◌, length, slice_index, slice_set};
ghost use Rattle.std.specs.Int.{w16, w32, to_be_bytes};
ghost use Rattle.sha2.specs.Sha256.{digest_bytes, padded_message, word_at};
ghost use Rattle.hash_lanes.specs.Lanes.{lane_of, step_text, value_in, values_in};
ghost use Rattle.hash_lanes.specs.Words.{BeginsWith, HasWords};

use crate::lanes::{or, shift_left, shift_right, with_lane};
use std::simd::u32x4;

/// Word `k` of bytes that are words, high byte first.
#[inline(always)]
pub(crate) fn word_of<const N: usize>(bytes: &[u8; N], k: usize) -> u32
    requires { 4 * k + 4 ≤ N }
    ensures { result ≡ word_at bytes.now (4 * k) }
{
    u32::from_be_bytes([
        bytes[4 * k],
        bytes[4 * k + 1],
        bytes[4 * k + 2],
        bytes[4 * k + 3],
    ])
}

/// The bytes of eight words, the high byte of each first.
pub(crate) fn bytes_of(words: &[u32; 8]) -> [u8; 32]
    ensures { result ≡ digest_bytes words.now 8 }
{
    let a = words[0].to_be_bytes();
    let b = words[1].to_be_bytes();
    let c = words[2].to_be_bytes();
    let d = words[3].to_be_bytes();
    let e = words[4].to_be_bytes();
    let f = words[5].to_be_bytes();
    let g = words[6].to_be_bytes();
    let h = words[7].to_be_bytes();
    [
        a[0], a[1], a[2], a[3], b[0], b[1], b[2], b[3], c[0], c[1], c[2], c[3], d[0], d[1], d[2],
        d[3], e[0], e[1], e[2], e[3], f[0], f[1], f[2], f[3], g[0], g[1], g[2], g[3], h[0], h[1],
        h[2], h[3],
    ]
}

// The words of the value stand one byte behind a word's place in the block: a word there is the low three bytes of a
// word of the value and the high byte of the next.
#[inline(always)]
fn behind_one_byte(first: u32x4, next: u32x4) -> u32x4
    ensures { (i : ℕ) → i < 4 → slice_index result i
        ≡ word_at (to_be_bytes w32 (slice_index first i)
        ++ to_be_bytes w32 (slice_index next i)) 1 }
{
    or(shift_left(first, 8), shift_right(next, 24))
}

// The number of the chain, that of the step, and the first byte of the value.
#[inline(always)]
fn numbers(chains: &[u16; 4], steps: &[u8; 4], value: u32x4) -> u32x4
    ensures { (i : ℕ) → i < 4
        → slice_index result i ≡ word_at (to_be_bytes w16 (slice_index chains.now i)
        ++ slice_index steps.now i ∷ to_be_bytes w32 (slice_index value i)) 0 }
{
    let numbers = u32x4::from_array([
        ahead(chains[0], steps[0]),
        ahead(chains[1], steps[1]),
        ahead(chains[2], steps[2]),
        ahead(chains[3], steps[3]),
    ]);
    or(numbers, shift_right(value, 24))
}

// The two numbers, and a byte that is 0.
#[inline(always)]
fn ahead(chain: u16, step: u8) -> u32
    ensures { result ≡ word_at (to_be_bytes w16 chain ++ step ∷ 0 ∷ []) 0 }
{
    (u32::from(chain) << 16) | (u32::from(step) << 8)
}

/// The words of I, with which the blocks of all steps begin; behind them stands the number of the leaf.
#[inline(always)]
pub(crate) fn id_words(id: &[u8; 16]) -> [u32; 4]
    ensures { (leaf chain step : ℕ) (value : List ℕ) → leaf < 2 ^ 32 → length value ≡ 32
        → BeginsWith (padded_message (step_text id.now leaf chain step value)) result leaf }
{
    [
        word_of(id, 0),
        word_of(id, 1),
        word_of(id, 2),
        word_of(id, 3),
    ]
}

/// The words of the block of a step in each lane.
#[inline(always)]
pub(crate) fn text_words(
    id: &[u8; 16],
    leaves: &[u32; 4],
    chains: &[u16; 4],
    steps: &[u8; 4],
    values: &[u32x4; 8],
) -> [u32x4; 16]
    ensures { (i : ℕ) → i < 4 → HasWords (lane_of result i) (padded_message (step_text id.now
        (slice_index leaves.now i) (slice_index chains.now i) (slice_index steps.now i) (value_in values.now i))) }
{
    let [v0, v1, v2, v3, v4, v5, v6, v7] = *values;
    [
        u32x4::splat(word_of(id, 0)),
        u32x4::splat(word_of(id, 1)),
        u32x4::splat(word_of(id, 2)),
        u32x4::splat(word_of(id, 3)),
        u32x4::from_array(*leaves),
        numbers(chains, steps, v0),
        behind_one_byte(v0, v1),
        behind_one_byte(v1, v2),
        behind_one_byte(v2, v3),
        behind_one_byte(v3, v4),
        behind_one_byte(v4, v5),
        behind_one_byte(v5, v6),
        behind_one_byte(v6, v7),
        behind_one_byte(v7, u32x4::splat(0x8000_0000)),
        u32x4::splat(0),
        u32x4::splat(440),
    ]
}

/// The vectors with the words of `value` in each lane.
#[inline(always)]
pub(crate) fn with_value_in_all(value: &[u8; 32]) -> [u32x4; 8]
    ensures { values_in result ≡ value.now ∷ value.now ∷ value.now ∷ value.now ∷ [] }
{
    [
        u32x4::splat(word_of(value, 0)),
        u32x4::splat(word_of(value, 1)),
        u32x4::splat(word_of(value, 2)),
        u32x4::splat(word_of(value, 3)),
        u32x4::splat(word_of(value, 4)),
        u32x4::splat(word_of(value, 5)),
        u32x4::splat(word_of(value, 6)),
        u32x4::splat(word_of(value, 7)),
    ]
}

/// The vectors with the words of `value` in one lane, and the others as they are.
#[inline(always)]
pub(crate) fn with_value(vectors: &[u32x4; 8], lane: usize, value: &[u8; 32]) -> [u32x4; 8]
    requires { lane < 4 }
    ensures { values_in result ≡ slice_set (values_in vectors.now) lane value.now }
{
    [
        with_lane(vectors[0], lane, word_of(value, 0)),
        with_lane(vectors[1], lane, word_of(value, 1)),
        with_lane(vectors[2], lane, word_of(value, 2)),
        with_lane(vectors[3], lane, word_of(value, 3)),
        with_lane(vectors[4], lane, word_of(value, 4)),
        with_lane(vectors[5], lane, word_of(value, 5)),
        with_lane(vectors[6], lane, word_of(value, 6)),
        with_lane(vectors[7], lane, word_of(value, 7)),
    ]
}
