/// What a worker replies to a challenge.
#[derive(Clone, Copy, Debug, PartialEq, Eq)]
pub enum Reply {
    /// The answer was signed by this leaf; the SHA-256 of the signature.
    Signed { leaf: u32, digest: [u8; 32] },
    /// No leaf was left.
    Exhausted,
}
