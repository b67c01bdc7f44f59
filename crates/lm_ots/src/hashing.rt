ghost use Rattle.std.specs.Prelude.{◌≡◌, ◌++◌};
ghost use Rattle.std.specs.Int.{w16, w32, to_be_bytes};
ghost use Rattle.sha2.specs.Hashers.{Holds256};
ghost use Rattle.lm_ots.specs.Candidate.{message_hash};

use sha2::{Digest, Sha256};

/// What stands in a string that is hashed to a public key (RFC 8554, section 7.1).
pub(crate) const D_PBLC: u16 = 0x8080;

// What stands in a string with a message.
const D_MESG: u16 = 0x8181;

/// A hasher that holds what each string of a leaf or of a tree's node begins with (RFC 8554, sections 4.3,
/// 4.5 and 5.3): I, the number of the leaf or the node, and the two bytes that tell such strings apart
/// (section 7.1).
pub fn domain_hasher(id: &[u8; 16], number: u32, domain: u16) -> Sha256
    ensures { Holds256 result (id.now ++ (to_be_bytes w32 number ++ to_be_bytes w16 domain)) }
{
    let mut hasher = Sha256::new();
    hasher.update(id);
    hasher.update(&number.to_be_bytes());
    hasher.update(&domain.to_be_bytes());
    hasher
}

/// Q: the hash of a message under C.
pub(crate) fn message_hash(id: &[u8; 16], leaf: u32, randomizer: &[u8], message: &[u8]) -> [u8; 32]
    ensures { result ≡ message_hash id.now leaf randomizer.now message.now }
{
    let mut hasher = domain_hasher(id, leaf, D_MESG);
    hasher.update(randomizer);
    hasher.update(message);
    hasher.finalize()
}
