use crate::OtsType;

/// The private key of one leaf (RFC 8554, section 4.2): the identifier I of its tree, the number of
/// the leaf, the type, and the seed from which the chains begin (appendix A).
///
/// It may sign one message. Whoever makes two signatures with it gives away how to make more.
#[derive(Clone, Copy)]
pub struct OtsSecret {
    /// I, which stands in each string that is hashed for the tree.
    pub id: [u8; 16],
    /// q, from 0.
    pub leaf: u32,
    /// The width of a digit, and so how many chains there are.
    pub kind: OtsType,
    /// SEED, which all leaves of the tree share.
    pub seed: [u8; 32],
}
