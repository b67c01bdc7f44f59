use ar_base::Items;
use ar_names::Name;
use tree_proof::Bottom;

/// What an authority's check said yes to: that the key is the name's, as the certificate with this digest says.
#[derive(Debug, Drop)]
pub struct Approved {
    /// The name that the certificate is of.
    pub name: Name,
    /// The text of the certificate's subject key (RFC 8554, section 5.3).
    pub key: [u8; 56],
    /// The digest that the endorsement is of.
    pub certificate: [u8; 32],
}

/// What an authority keeps of a log's confirmation: what it says, the base of the votes for its root, and the path.
#[derive(Debug, Drop)]
pub struct Kept {
    /// The decided epoch at whose end it holds, from 1.
    pub epoch: u64,
    /// The name that the client asked for.
    pub name: Name,
    /// The digest of the certificate, or that the name has none.
    pub certificate: Option<[u8; 32]>,
    /// The root of the table in which the epoch began, before anything ripened in it.
    pub base: [u8; 32],
    /// The root of the table at the end of the epoch, for which a quorum of logs voted.
    pub root: [u8; 32],
    /// The foot of the path, where the name has no certificate.
    pub bottom: Option<Bottom>,
    /// The siblings on the path, the deepest first, at most 256.
    pub steps: Items<[u8; 32]>,
}
