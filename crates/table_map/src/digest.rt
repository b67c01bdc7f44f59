ghost use Rattle.std.specs.Prelude.{◌≡◌, ◌≤◌, ◌++◌, ℕ, List};
ghost use Rattle.sha2.specs.Hashers.{Holds256};
ghost use Rattle.party_keys.specs.Directory.{keys_of, role_keys};
ghost use Rattle.table_map.specs.Digests as digests;

use ar_statement::{Party, Role};
use party_keys::Directory;
use sha2::{Digest, Sha256};

// What the string of a directory begins with.
const DIRECTORY_TAG: u8 = 0x05;

/// The digest of a directory: SHA-256 of the byte 0x05, the size of a quorum, the number of logs and that of authorities in
/// a byte each, and the texts of their first keys. What the directory learnt does not change it.
#[tactic(auto, unfolding(crate::specs::Digests::directory_digest))]
pub fn directory_digest(directory: &Directory) -> [u8; 32]
    ensures { result ≡ digests.directory_digest directory.now }
{
    let (logs, authorities) = (directory.logs(), directory.authorities());
    let mut hasher = Sha256::new();
    hasher.update(&[
        DIRECTORY_TAG,
        directory.quorum() as u8,
        logs as u8,
        authorities as u8,
    ]);
    add_keys(&mut hasher, directory, Role::LogServer, logs);
    add_keys(&mut hasher, directory, Role::Authority, authorities);
    hasher.finalize()
}

// Hashes the texts of the first keys of the parties of a role below a number.
fn add_keys(hasher: &mut Sha256, directory: &Directory, role: Role, count: usize)
    requires { count ≤ 16 }
    ensures { (m : List ℕ) → Holds256 hasher.old m
        → Holds256 hasher.new (m ++ digests.texts_below (role_keys directory.now role) count) }
{
    for number in 0..count {
        add_key(hasher, directory, role.party(number as u16));
    }
}

// Hashes the text of the first key of a party.
fn add_key(hasher: &mut Sha256, directory: &Directory, party: Party)
    ensures { (m : List ℕ) → Holds256 hasher.old m
        → Holds256 hasher.new (m ++ digests.first_text (keys_of directory.now party)) }
{
    if let Some(key) = directory.key(party, 0) {
        hasher.update(&key.bytes());
    }
}
