ghost use Rattle.std.specs.Prelude.{◌≡◌};
ghost use Rattle.party_keys.specs.Seeds.{seed_of};

use ar_statement::Role;
use sha2::{Digest, Sha256};

/// The byte before a master secret from which a party's secret is made.
const SEED_TAG: u8 = 0x53;

/// The secret of a party, from which its LMS key is made (SEED of RFC 8554, appendix A): SHA-256
/// (FIPS 180-4) of the byte 0x53, the master secret, the role's number in one byte and the party's
/// number in two, the highest first.
#[tactic(auto, unfolding(crate::specs::Seeds::seed_of, ar_bytes::specs::RoundTrip::number_text))]
pub fn party_seed(master: &[u8; 32], role: Role, number: u16) -> [u8; 32]
    ensures { result ≡ seed_of master.now role number }
{
    let mut hasher = Sha256::new();
    hasher.update(&[SEED_TAG]);
    hasher.update(master);
    hasher.update(&[role as u8]);
    hasher.update(&number.to_be_bytes());
    hasher.finalize()
}
