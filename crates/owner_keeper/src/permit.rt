/// That its operator allows an owner to staple a TLS key, for the certificate of a draft.
#[derive(Clone, Copy, Debug, PartialEq, Eq)]
pub struct Permit {
    /// The number of the draft.
    pub draft: u64,
    /// The TLS key, by SHA-256 of its SubjectPublicKeyInfo (RFC 5280, section 4.1).
    pub channel: [u8; 32],
}
