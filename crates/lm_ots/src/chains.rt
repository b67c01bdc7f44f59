ghost use Rattle.std.specs.Prelude.{◌<◌, ◌≤◌, ℕ, slice_index};

use hash_lanes::FourValues;

/// How many chains there is room for: those of any type, in whole groups of four. `OtsType::W1` has 265.
pub(crate) const ROOM: usize = 268;

/// The chains of a leaf on their way: of each its value, the step that is next, and the step before which it ends.
#[derive(Drop)]
pub(crate) struct Chains {
    pub(crate) values: [[u8; 32]; ROOM],
    pub(crate) next: [u8; ROOM],
    pub(crate) ends: [u8; ROOM],
}

/// The chains that wait for a lane, in the order in which they get one.
#[derive(Drop)]
pub(crate) struct Queue {
    pub(crate) numbers: [u16; ROOM],
    pub(crate) len: usize,
    ghost in_room: { (k : ℕ) → slice_index numbers k < 268 },
    ghost fits: { len ≤ 268 },
}

/// Four chains side by side, one in each lane: which they are, and of each the step that is next, the step before
/// which it ends, and its value.
#[derive(Drop)]
pub(crate) struct Four {
    pub(crate) numbers: [u16; 4],
    pub(crate) next: [u8; 4],
    pub(crate) ends: [u8; 4],
    pub(crate) values: FourValues,
    ghost in_room: { (k : ℕ) → slice_index numbers k < 268 },
}
