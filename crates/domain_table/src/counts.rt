/// How much a table keeps.
#[derive(Clone, Copy, Debug)]
pub(crate) struct Counts {
    /// Certificates and waiting changes together.
    pub(crate) kept: usize,
    /// Waiting changes alone.
    pub(crate) waiting: usize,
}
