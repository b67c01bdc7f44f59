ghost use Rattle.std.specs.Prelude.{◌≡◌, ℕ, ◌<◌, List, [], ◌∷◌, true, false, slice_index, slice_index_or, slice_set};
ghost use Rattle.sha2.specs.Sha256.{sha256};
ghost use Rattle.hash_lanes.specs.Lanes.{step_text, values_in, vectors_of};

use crate::compression::compressed;
use crate::front::Front;
use crate::lanes::{chosen, words_in};
use crate::row::{Row, rows, vectors};
use crate::text::{bytes_of, id_words, text_words, with_value, with_value_in_all};
use std::marker::Model;
use std::simd::u32x4;

/// The values of four hash chains of 32 bytes each, one in each lane, from 0 to 3.
#[derive(Drop)]
pub struct FourValues {
    // Word k of the four values, which is read high byte first.
    words: [Row; 8],
    // Kept from step to step, and seen by no contract.
    front: Front,
}

impl Model for FourValues {
    ghost Value = { List (List ℕ) };

    ghost view = { λ four. values_in (vectors_of four.words) };
}

impl FourValues {
    /// Lane i with value i.
    pub fn new(values: &[[u8; 32]; 4]) -> FourValues
        ensures { result ≡ values.now }
    {
        let mut four = FourValues {
            words: [Row {
                lanes: u32x4::splat(0),
            }; 8],
            front: Front::unknown(),
        };
        four.put(0, &values[0]);
        four.put(1, &values[1]);
        four.put(2, &values[2]);
        four.put(3, &values[3]);
        four
    }

    /// The value in a lane.
    pub fn value(&self, lane: usize) -> [u8; 32]
        requires { lane < 4 }
        ensures { result ≡ slice_index_or self.now lane [] }
    {
        bytes_of(&words_in(&vectors(&self.words), lane))
    }

    /// Puts a value into a lane, and leaves the others.
    pub fn put(&mut self, lane: usize, value: &[u8; 32])
        requires { lane < 4 }
        ensures all { self.new ≡ slice_set self.old lane value.now }
        ensures here { slice_index_or self.new lane [] ≡ value.now }
    {
        self.words = rows(&with_value(&vectors(&self.words), lane, value));
    }

    /// Puts one value into all lanes.
    pub fn put_all(&mut self, value: &[u8; 32])
        ensures { self.new ≡ value.now ∷ value.now ∷ value.now ∷ value.now ∷ [] }
    {
        self.words = rows(&with_value_in_all(value));
    }

    /// A step in each lane (RFC 8554, section 4.3): the value becomes the hash of I, the number of the lane's leaf, that of
    /// its chain, that of its step, and the value.
    ///
    /// With step 255 and the seed as the value it gives the beginning of the chain (appendix A).
    pub fn step(&mut self, id: &[u8; 16], leaves: &[u32; 4], chains: &[u16; 4], steps: &[u8; 4])
        ensures { (i : ℕ) → i < 4 → slice_index_or self.new i [] ≡ sha256 (step_text id.now
            (slice_index leaves.now i) (slice_index chains.now i) (slice_index steps.now i) (slice_index_or self.old i [])) }
    {
        let after_five = self.front.after_five(&id_words(id), leaves);
        let words = text_words(id, leaves, chains, steps, &vectors(&self.words));
        self.words = rows(&compressed(&words, after_five));
    }

    /// A step in each lane that moves, as `step` has it; the values in the others stay.
    ///
    /// All four are hashed and then chosen from, whatever moves.
    pub fn step_where(
        &mut self,
        id: &[u8; 16],
        leaves: &[u32; 4],
        chains: &[u16; 4],
        steps: &[u8; 4],
        moves: &[bool; 4],
    )
        ensures moved { (i : ℕ) → i < 4 → slice_index_or moves.now i false ≡ true
            → slice_index_or self.new i [] ≡ sha256 (step_text id.now
            (slice_index leaves.now i) (slice_index chains.now i) (slice_index steps.now i) (slice_index_or self.old i [])) }
        ensures left { (i : ℕ) → i < 4 → slice_index_or moves.now i false ≡ false
            → slice_index_or self.new i [] ≡ slice_index_or self.old i [] }
    {
        let before = vectors(&self.words);
        self.step(id, leaves, chains, steps);
        self.words = rows(&chosen(moves, &vectors(&self.words), &before));
    }
}
