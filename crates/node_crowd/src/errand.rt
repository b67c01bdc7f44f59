/// What is brought to one of several nodes.
#[derive(Debug, Drop)]
pub struct Errand<I> {
    /// The number of the errand among those that are brought together, from 0.
    pub number: u64,
    /// The place of the node to which it goes.
    pub place: usize,
    /// What the node's core is asked.
    pub input: I,
}
