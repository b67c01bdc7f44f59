use node_core::Core;

/// A core that is to be asked, and what finishes its replies.
#[derive(Drop)]
pub struct Desk<C: Core, F> {
    /// The core.
    pub core: C,
    /// What finishes its replies.
    pub finish: F,
}

/// A core that was asked by several workers, with all that became of it.
#[derive(Drop)]
pub struct Taken<C: Core, F, T> {
    /// In its state after all calls.
    pub core: C,
    /// The inputs of all calls in their order, each with its note.
    pub history: Vec<(C::Input, C::Note)>,
    /// What finished its replies.
    pub finish: F,
    /// What became of the reply to each call, in the order of the history.
    pub replies: Vec<T>,
}
