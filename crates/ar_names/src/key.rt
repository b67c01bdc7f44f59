ghost use Rattle.std.specs.Prelude.{◌≡◌};
ghost use Rattle.ar_names.specs.Names.{name_digest_of};

use sha2::{Digest, Sha256};

/// The byte before a name whose digest is its key in the integrity tree.
const KEY_TAG: u8 = 0x11;

/// The SHA-256 digest (FIPS 180-4) of the tag byte 0x11 and the text: the key of a name in the
/// integrity tree. The text may be any bytes.
pub fn name_digest(text: &[u8]) -> [u8; 32]
    ensures { result ≡ name_digest_of text.now }
{
    let mut hasher = Sha256::new();
    hasher.update(&[KEY_TAG]);
    hasher.update(text);
    hasher.finalize()
}
