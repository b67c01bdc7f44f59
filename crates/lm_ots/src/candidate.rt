ghost use Rattle.std.specs.Prelude.{◌≡◌, length};
ghost use Rattle.lm_ots.specs.OtsKind.{signature_len_of};
ghost use Rattle.lm_ots.specs.Candidate.{candidate, candidate_key};

use crate::OtsType;
use crate::chains::{Chains, ROOM};
use crate::digits::digits;
use crate::hashing::message_hash;
use crate::values::{key_of, put_elements};
use crate::walk::walk;
use ar_bytes::Fields;

// Where C begins in a signature.
const RANDOMIZER_PLACE: usize = 4;

/// Where the elements begin in a signature.
pub(crate) const ELEMENTS_PLACE: usize = 36;

/// The public key that a signature of `message` leads to at a leaf (RFC 8554, section 4.6,
/// algorithm 4b). The signature is one of the leaf's key exactly where this is that key.
///
/// It is `None` exactly where the signature has not the length of its type, or the type's number
/// does not stand in its first four bytes.
#[tactic(auto, unfolding(ar_bytes::specs::Reading::number_at, ar_bytes::specs::Reading::bytes_at))]
pub fn ots_candidate(
    id: &[u8; 16],
    leaf: u32,
    kind: OtsType,
    message: &[u8],
    signature: &[u8],
) -> Option<[u8; 32]>
    ensures { result ≡ candidate id.now leaf kind message.now signature.now }
{
    let number = Fields::new(signature).u32()?;
    if signature.len() == kind.signature_len() && number == kind.number() {
        Some(candidate_key(id, leaf, kind, message, signature))
    } else {
        None
    }
}

fn candidate_key(
    id: &[u8; 16],
    leaf: u32,
    kind: OtsType,
    message: &[u8],
    signature: &[u8],
) -> [u8; 32]
    requires { length signature.now ≡ signature_len_of kind }
    ensures { result ≡ candidate_key id.now leaf kind message.now signature.now }
{
    let randomizer = &signature[RANDOMIZER_PLACE..ELEMENTS_PLACE];
    let hash = message_hash(id, leaf, randomizer, message);
    let mut chains = Chains {
        values: [[0; 32]; ROOM],
        next: digits(kind, &hash),
        ends: [kind.last(); ROOM],
    };
    put_elements(kind, signature, &mut chains.values);
    walk(id, leaf, kind.p(), &mut chains);
    key_of(id, leaf, kind, &chains.values)
}
