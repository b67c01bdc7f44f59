/// What is told of a log that restarted.
#[derive(Clone, Copy, Debug, PartialEq, Eq)]
pub struct RestartReport {
    /// How many inputs were recovered.
    pub recovered: u64,
    /// How many there are.
    pub inputs: u64,
    /// How many statements the log has signed in the end.
    pub signed: u64,
    /// The digest of these: of each in the order of entry its generation and its leaf, both big-endian in four bytes, and its
    /// text behind its length in two.
    pub digest: [u8; 32],
}
