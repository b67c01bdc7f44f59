/// What stands at the foot of a path.
#[derive(Clone, Copy, Debug, PartialEq, Eq)]
pub enum Bottom {
    /// No entry.
    Empty,
    /// The one entry that is left: of another key, where the path shows absence.
    Other { key: [u8; 32], value: [u8; 32] },
}
