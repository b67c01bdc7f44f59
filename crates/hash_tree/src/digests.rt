ghost use Rattle.std.specs.Prelude.{◌≡◌, ◌∷◌, ◌++◌};
ghost use Rattle.std.specs.Int.{w64, to_be_bytes};
ghost use Rattle.sha2.specs.Sha256.{sha256};
ghost use Rattle.hash_tree.specs.Strings as strings;

use sha2::{Digest, Sha256};

// What a node's string begins with.
pub(crate) const NODE_TAG: u8 = 0x02;

// SHA-256 of the byte 0x00.
const EMPTY_DIGEST: [u8; 32] =
    *b"\x6e\x34\x0b\x9c\xff\xb3\x7a\x98\x9c\xa5\x44\xe6\xbb\x78\x0a\x2c\x78\x90\x1d\x3f\xb3\x37\x38\x76\x85\x11\xa3\x06\x17\xaf\xa0\x1d";

/// The digest of an empty set of entries: SHA-256 of the byte 0x00. It is a constant, and nothing is
/// hashed.
pub fn empty_digest() -> [u8; 32]
    ensures { result ≡ strings.empty_digest }
{
    EMPTY_DIGEST
}

/// The digest of a set of one entry: SHA-256 of the byte 0x01, the key and the value.
#[inline(always)]
pub fn entry_digest(key: &[u8; 32], value: &[u8; 32]) -> [u8; 32]
    ensures { result ≡ strings.entry_digest key.now value.now }
{
    let mut bytes = [0x01; 65];
    bytes[33..].copy_from_slice(value);
    bytes[1..33].copy_from_slice(key);
    hash(&bytes)
}

/// The digest of a set of more entries, from those of its halves: SHA-256 of the byte 0x02 and the
/// two digests, first that of the entries whose bit is 0.
pub fn node_digest(left: &[u8; 32], right: &[u8; 32]) -> [u8; 32]
    ensures { result ≡ strings.node_digest left.now right.now }
{
    let mut bytes = [NODE_TAG; 65];
    bytes[33..].copy_from_slice(right);
    bytes[1..33].copy_from_slice(left);
    hash(&bytes)
}

/// The value of a domain in the tree, from its newest certificate: SHA-256 of the byte 0x03, the
/// serial as 8 bytes, the highest first, and the certificate's digest.
pub fn value_digest(serial: u64, certificate: &[u8; 32]) -> [u8; 32]
    ensures { result ≡ strings.value_digest serial certificate.now }
{
    numbered_digest(0x03, serial, certificate)
}

/// The value of a pending certificate in the tree: SHA-256 of the byte 0x04, the epoch since which it
/// waits as 8 bytes, the highest first, and the certificate's digest.
pub fn pending_digest(since: u64, certificate: &[u8; 32]) -> [u8; 32]
    ensures { result ≡ strings.pending_digest since certificate.now }
{
    numbered_digest(0x04, since, certificate)
}

/// The key that the pending certificate of a name has in the tree: SHA-256 of the byte 0x12 and the
/// name's bytes.
pub fn pending_key(name: &[u8]) -> [u8; 32]
    ensures { result ≡ strings.pending_key name.now }
{
    let mut hasher = Sha256::new();
    hasher.update(&[0x12]);
    hasher.update(name);
    hasher.finalize()
}

// SHA-256 of a tag byte, a number as 8 bytes, the highest first, and a certificate's digest.
#[inline(always)]
fn numbered_digest(tag: u8, number: u64, certificate: &[u8; 32]) -> [u8; 32]
    ensures { result ≡ sha256 (tag ∷ to_be_bytes w64 number ++ certificate.now) }
{
    let mut bytes = [tag; 41];
    bytes[1..9].copy_from_slice(&number.to_be_bytes());
    bytes[9..].copy_from_slice(certificate);
    Sha256::digest(&bytes)
}

// SHA-256 of a tag byte and two digests.
//
// It hashes once. The two loops, of one turn each, are for the compiler, which inlines the hasher's work in
// nested loops alone: so most of what is above the compressions goes.
#[inline(always)]
pub(crate) fn hash(bytes: &[u8; 65]) -> [u8; 32]
    ensures { result ≡ sha256 bytes.now }
{
    let mut digest = [0; 32];
    for _ in 0..1u8 {
        for _ in 0..1u8 {
            let mut hasher = Sha256::new();
            hasher.update(bytes);
            digest = hasher.finalize();
        }
    }
    digest
}
