/// Where a journal ends.
#[derive(Clone, Copy, Debug)]
pub(crate) struct Standing {
    /// The bytes with which it begins.
    pub mark: [u8; 8],
    /// The place of the first gate that is not open.
    pub end: u64,
    /// How many records stand before it.
    pub count: u64,
}
