use crate::Pair;

/// What an ask came to.
#[derive(Clone, Copy, Debug, PartialEq, Eq)]
pub enum Outcome {
    /// The holder of the key is the owner of the name.
    Yes,
    /// It is not so.
    No,
    /// The check failed, and said nothing.
    Failed,
}

/// What was asked, and what it came to.
#[derive(Debug, Drop)]
pub struct CheckAnswer {
    /// The name and the key that were asked about.
    pub pair: Pair,
    /// What the check said, or that it failed; an ask that lacked memory is not kept.
    pub outcome: Outcome,
}
