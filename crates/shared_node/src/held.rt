use std::collections::LinkedList;

/// What a seat knows and has done. It stands in the proofs alone: no value of it is made.
pub struct Held<S, I, N> {
    /// The state of the core that the node began with; none where the seat was joined into another.
    pub first: Option<S>,
    /// The beginning of the history that the seat has seen.
    pub seen: LinkedList<(I, N)>,
    /// The shorter of the two beginnings that the last join put together; empty where there was none.
    pub shorter: LinkedList<(I, N)>,
    /// The places of the seat's own calls, with those of the seats that were joined into it.
    pub own: LinkedList<u64>,
    /// The seat's part of 2^32; 0 where it was joined into another.
    pub share: u64,
    /// Whether the seat has the core.
    pub holds: bool,
}
