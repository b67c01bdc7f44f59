use thiserror::Error;

/// No leaf is left: the word was seen at this number, which is none of a leaf.
#[derive(Clone, Copy, Debug, PartialEq, Eq, Error)]
#[error("no leaf is left")]
pub struct Exhausted {
    /// The number of leaves, or more.
    pub seen: u64,
}
