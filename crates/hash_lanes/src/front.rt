ghost use Rattle.std.specs.Prelude.{◌≡◌, ℕ, ◌<◌, true, slice_index};
ghost use Rattle.hash_lanes.specs.Words.{AreAfterFive};

use crate::compression::first_rounds;
use crate::row::{Row, rows, vectors};
use std::marker::Model;
use std::simd::u32x4;

/// What was made last of the words with which the blocks of a lane begin, I and the number of the lane's leaf: the steps of
/// all chains of these leaves share the rounds of these five words.
#[derive(Drop)]
pub(crate) struct Front {
    is_known: bool,
    id: [u32; 4],
    leaves: [u32; 4],
    after_five: [Row; 8],
}

impl Model for Front {
    ghost use Rattle.std.specs.Prelude.{◌≡◌, ℕ, true};
    ghost use Rattle.hash_lanes.specs.Lanes.{vectors_of};
    ghost use Rattle.hash_lanes.specs.Words.{AreAfterFive};

    ghost Value = { ℕ };

    ghost view = { λ _. 0 };

    ghost invariant = { λ front. front.is_known ≡ true
        → AreAfterFive (vectors_of front.after_five) front.id front.leaves };
}

impl Front {
    /// Nothing is known yet.
    pub(crate) fn unknown() -> Front {
        Front {
            is_known: false,
            id: [0; 4],
            leaves: [0; 4],
            after_five: [Row {
                lanes: u32x4::splat(0),
            }; 8],
        }
    }

    /// The working variables after the rounds of the words of I and of each lane's leaf.
    #[inline(always)]
    pub(crate) fn after_five(&mut self, id: &[u32; 4], leaves: &[u32; 4]) -> [u32x4; 8]
        ensures { AreAfterFive result id.now leaves.now }
    {
        if self.is_known && same_words(&self.id, id) && same_words(&self.leaves, leaves) {
            return vectors(&self.after_five);
        }
        let after_five = first_rounds(id, leaves);
        *self = Front {
            is_known: true,
            id: *id,
            leaves: *leaves,
            after_five: rows(&after_five),
        };
        after_five
    }
}

#[inline(always)]
fn same_words(a: &[u32; 4], b: &[u32; 4]) -> bool
    ensures { result ≡ true → (k : ℕ) → k < 4 → slice_index a.now k ≡ slice_index b.now k }
{
    a[0] == b[0] && a[1] == b[1] && a[2] == b[2] && a[3] == b[3]
}
