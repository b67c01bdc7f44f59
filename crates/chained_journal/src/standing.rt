/// Where a journal ends.
#[derive(Clone, Copy, Debug)]
pub(crate) struct Standing {
    /// The place of the first gate that is not open.
    pub end: u64,
    /// How many records stand before it.
    pub count: u64,
    /// The chain of their texts.
    pub chain: [u8; 32],
}
