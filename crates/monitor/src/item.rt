use ar_base::Items;

/// A text that is said to be signed, with its signature.
#[derive(Debug, Drop)]
pub struct Item {
    /// Where it stands, from 1.
    pub line: u32,
    /// The text of a statement, where it is one.
    pub text: Items<u8>,
    /// The signature of a log or an authority: u32 generation, and the LMS signature by the key of this generation.
    pub signature: Items<u8>,
}
