ghost use Rattle.std.specs.Prelude.{◌≡◌, ◌+◌, ◌*◌, ◌<◌, ◌≤◌, ℕ, List, [], length, slice_index_or};
ghost use Rattle.lm_ots.specs.Candidate.{element, key_of_ends};
ghost use Rattle.lm_ots.specs.OtsKind.{count_of, signature_len_of};
ghost use Rattle.lm_ots.specs.Signing.{secret_element};

use crate::candidate::ELEMENTS_PLACE;
use crate::chains::ROOM;
use crate::hashing::{D_PBLC, domain_hasher};
use crate::{OtsSecret, OtsType};
use hash_lanes::FourValues;
use sha2::Digest;

/// The number that stands for a step where a chain's beginning is made (RFC 8554, appendix A).
pub(crate) const SECRET_STEP: u8 = 0xff;

/// Puts the beginnings of the chains of a private key, as the seed gives them (RFC 8554, appendix A).
pub(crate) fn put_beginnings(secret: &OtsSecret, values: &mut [[u8; 32]; ROOM])
    ensures { (i : ℕ) → i < count_of secret.now.kind
        → slice_index_or values.new i [] ≡ secret_element secret.now i }
{
    let groups = secret.kind.p().div_ceil(4);
    for group in 0..groups {
        put_four(values, group, &four_beginnings(secret, group));
    }
}

// The beginnings of the chains from `4 * group` on.
fn four_beginnings(secret: &OtsSecret, group: usize) -> FourValues
    requires { group < 67 }
    ensures { (k : ℕ) → k < 4
        → slice_index_or result k [] ≡ secret_element secret.now (4 * group + k) }
{
    let first = (4 * group) as u16;
    let mut four = FourValues::new(&[secret.seed; 4]);
    four.step(
        &secret.id,
        &[secret.leaf; 4],
        &[first, first + 1, first + 2, first + 3],
        &[SECRET_STEP; 4],
    );
    four
}

// Puts four values at the places from `4 * group` on.
fn put_four(values: &mut [[u8; 32]; ROOM], group: usize, four: &FourValues)
    requires { group < 67 }
    ensures front { (i : ℕ) → i < 4 * group
        → slice_index_or values.new i [] ≡ slice_index_or values.old i [] }
    ensures four { (k : ℕ) → k < 4
        → slice_index_or values.new (4 * group + k) [] ≡ slice_index_or four.now k [] }
{
    values[4 * group] = four.value(0);
    values[4 * group + 1] = four.value(1);
    values[4 * group + 2] = four.value(2);
    values[4 * group + 3] = four.value(3);
}

/// Puts the elements of a signature.
pub(crate) fn put_elements(kind: OtsType, signature: &[u8], values: &mut [[u8; 32]; ROOM])
    requires { length signature.now ≡ signature_len_of kind }
    ensures { (i : ℕ) → i < count_of kind
        → slice_index_or values.new i [] ≡ element signature.now i }
{
    for i in 0..kind.p() {
        values[i] = element(signature, i);
    }
}

// Element `i` of a signature.
fn element(signature: &[u8], i: usize) -> [u8; 32]
    requires { 36 + 32 * i + 32 ≤ length signature.now }
    ensures { result ≡ element signature.now i }
{
    let place = ELEMENTS_PLACE + 32 * i;
    let mut bytes = [0u8; 32];
    bytes.copy_from_slice(&signature[place..place + 32]);
    bytes
}

/// K: the hash of the ends of all chains (RFC 8554, section 4.3).
pub(crate) fn key_of(id: &[u8; 16], leaf: u32, kind: OtsType, ends: &[[u8; 32]; ROOM]) -> [u8; 32]
    ensures { result ≡ key_of_ends id.now leaf kind (λ i. slice_index_or ends.now i []) }
{
    let mut hasher = domain_hasher(id, leaf, D_PBLC);
    for i in 0..kind.p() {
        hasher.update(&ends[i]);
    }
    hasher.finalize()
}
