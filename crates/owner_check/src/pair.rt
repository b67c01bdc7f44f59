use ar_base::Items;

/// The name of a domain with a key, as the text of an LMS public key (RFC 8554, section 5.3).
#[derive(Debug, Drop)]
pub struct Pair {
    /// The bytes of the name, as they were given: that they are a name is not looked at.
    pub name: Items<u8>,
    /// The bytes of the text, as they were given: that a key has it is not looked at.
    pub key: [u8; 56],
}
