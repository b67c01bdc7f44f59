ghost use Rattle.std.specs.Prelude.{◌≡◌, ◌+◌, ◌*◌, ◌∷◌, ◌++◌, length, take};
ghost use Rattle.std.specs.List.{flat_map, range_with_len};
ghost use Rattle.sha2.specs.Sha256.{sha256};
ghost use Rattle.lm_ots.specs.OtsKind.{count_of, signature_len_of};
ghost use Rattle.lm_ots.specs.Signing.{public_key_of, randomizer_of, signature_of, signed_element};

use crate::OtsSecret;
use crate::candidate::ELEMENTS_PLACE;
use crate::chains::{Chains, ROOM};
use crate::digits::digits;
use crate::hashing::message_hash;
use crate::values::{key_of, put_beginnings};
use crate::walk::walk;
use ar_bytes::{write_bytes, write_u32};
use byteorder::{ByteOrder, LittleEndian};
use rand_chacha::ChaCha20Rng;
use rand_core::SeedableRng;
use rand_core::utils::NextWord;
use sha2::{Digest, Sha256};

// What stands before the seed where the key of the generator is hashed.
const RANDOMIZER_TAG: u8 = 0x43;

/// The public key of a one-time private key (RFC 8554, section 4.3, algorithm 1).
pub fn ots_public(secret: &OtsSecret) -> [u8; 32]
    ensures { result ≡ public_key_of secret.now }
{
    let mut chains = Chains {
        values: [[0; 32]; ROOM],
        next: [0; ROOM],
        ends: [secret.kind.last(); ROOM],
    };
    put_beginnings(secret, &mut chains.values);
    walk(&secret.id, secret.leaf, secret.kind.p(), &mut chains);
    key_of(&secret.id, secret.leaf, secret.kind, &chains.values)
}

/// Writes the signature of `message` (RFC 8554, section 4.5, algorithm 3): the type, C and the
/// elements.
///
/// C is the first eight words, each low byte first, of ChaCha20 with the key H(0x43 || SEED) in the
/// stream of the leaf, so that one message has one signature.
pub fn ots_sign_into(secret: &OtsSecret, message: &[u8], out: &mut [u8])
    requires { length out.old ≡ signature_len_of secret.now.kind }
    ensures { out.new ≡ signature_of secret.now message.now }
{
    let randomizer = randomizer(&secret.seed, secret.leaf);
    let hash = message_hash(&secret.id, secret.leaf, &randomizer, message);
    let place = write_u32(out, 0, secret.kind.number());
    write_bytes(out, place, &randomizer);
    put_elements(secret, &hash, out);
}

// Writes the elements of a signature of a message with this hash.
fn put_elements(secret: &OtsSecret, hash: &[u8; 32], out: &mut [u8])
    requires { length out.old ≡ signature_len_of secret.now.kind }
    ensures { out.new ≡ take 36 out.old
        ++ flat_map (signed_element secret.now hash.now)
        (range_with_len 0 (count_of secret.now.kind)) }
{
    let mut chains = Chains {
        values: [[0; 32]; ROOM],
        next: [0; ROOM],
        ends: digits(secret.kind, hash),
    };
    put_beginnings(secret, &mut chains.values);
    walk(&secret.id, secret.leaf, secret.kind.p(), &mut chains);
    let mut place = ELEMENTS_PLACE;
    for i in 0..secret.kind.p() {
        place = write_bytes(out, place, &chains.values[i]);
    }
}

// The key of the generator that gives C.
fn randomizer_key(seed: &[u8; 32]) -> [u8; 32]
    ensures { result ≡ sha256 (0x43 ∷ seed.now) }
{
    let mut hasher = Sha256::new();
    hasher.update(&[RANDOMIZER_TAG]);
    hasher.update(seed);
    hasher.finalize()
}

// C of a leaf.
fn randomizer(seed: &[u8; 32], leaf: u32) -> [u8; 32]
    ensures { result ≡ randomizer_of seed.now leaf }
{
    let mut words = ChaCha20Rng::from_seed(randomizer_key(seed));
    words.set_stream(u64::from(leaf));
    let mut bytes = [0u8; 32];
    for k in 0..8 {
        let mut word = [0u8; 4];
        LittleEndian::write_u32(&mut word, words.next_word());
        write_bytes(&mut bytes, 4 * k, &word);
    }
    bytes
}
