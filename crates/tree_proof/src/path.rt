use ar_base::Items;
use hash_tree::Bottom;

/// The steps of a path: the digests of siblings, the deepest first.
#[derive(Debug, Drop)]
pub struct Path {
    /// With k steps, the first belongs to depth k - 1, and the last to depth 0.
    pub steps: Items<[u8; 32]>,
}

/// What the path of a key shows.
#[derive(Clone, Copy, Debug, PartialEq, Eq)]
pub enum Found {
    /// The key has this value.
    Present { value: [u8; 32] },
    /// The key has no value, and this is at the foot of the path.
    Absent { bottom: Bottom },
}
