use ar_statement::Text;

/// A statement that has a leaf: its text, and the generation of the key that signs it.
#[derive(Clone, Copy, Debug)]
pub struct SignedText {
    /// From 0, the generation of the party's first key.
    pub generation: u32,
    /// The bytes that are signed, at most 330.
    pub text: Text,
}
