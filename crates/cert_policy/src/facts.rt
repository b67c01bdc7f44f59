/// What the rule reads of a certificate.
#[derive(Clone, Copy)]
pub struct Facts<'a> {
    /// The bytes of the domain's name.
    pub name: &'a [u8],
    /// 0 for the first certificate of a name, and one more for each next.
    pub serial: u64,
    /// The digest of the certificate before it; 32 zero bytes for the first.
    pub previous: [u8; 32],
    /// Its own digest.
    pub digest: [u8; 32],
    /// Whether it revokes the name, after which nothing follows.
    pub revoked: bool,
    /// What it asks of the certificate behind it, and of confirmations.
    pub policy: PolicyFacts<'a>,
}

/// A domain's policy: what the next certificate needs, and what a client asks of a confirmation.
#[derive(Clone, Copy)]
pub struct PolicyFacts<'a> {
    /// How many distinct authorities of `trusted` must endorse the next certificate.
    pub threshold: u8,
    /// Whether the old key must hand over to the next certificate.
    pub keyed: bool,
    /// How many epochs old a confirmation may be.
    pub max_age: u32,
    /// The last epoch in which the policy holds.
    pub until: u64,
    /// The numbers of the authorities that the domain trusts.
    pub trusted: &'a [u16],
    /// How many epochs a recovery waits; `None` in a policy of version 1, which has no recovery.
    pub wait: Option<u16>,
}
