ghost use Rattle.std.specs.Prelude.{◌≡◌, ◌*◌, ◌/◌, ◌<◌, ℕ, length, slice_index};
ghost use Rattle.lm_ots.specs.OtsKind.{count_of, width_of};
ghost use Rattle.lm_ots.specs.Digits.{checksum, coef, digit, with_checksum};

use crate::OtsType;
use crate::chains::ROOM;
use ar_bytes::{write_bytes, write_u16};

// Digit `i` of `bytes`, cut into numbers of the type's width (RFC 8554, section 3.1.3).
fn coef(kind: OtsType, bytes: &[u8], i: usize) -> u8
    requires { i / (8 / width_of kind) < length bytes.now }
    ensures { result ≡ coef bytes.now i (width_of kind) }
{
    let w = kind.w() as usize;
    let per_byte = 8 / w;
    let shift = 8 - (w * (i % per_byte) + w);
    kind.last() & (bytes[i / per_byte] >> shift)
}

// The checksum of a hash (RFC 8554, section 4.4).
fn checksum(kind: OtsType, hash: &[u8; 32]) -> u16
    ensures { result ≡ checksum kind hash.now }
{
    let mut sum = 0u16;
    for i in 0..256 / kind.w() as usize {
        sum += u16::from(kind.last() - coef(kind, hash, i));
    }
    sum << kind.ls()
}

// A hash with its checksum behind it, which the digits are read from (RFC 8554, section 4.5).
#[tactic(auto, unfolding(ar_bytes::specs::RoundTrip::number_text))]
fn with_checksum(kind: OtsType, hash: &[u8; 32]) -> [u8; 34]
    ensures { result ≡ with_checksum kind hash.now }
{
    let mut digits = [0u8; 34];
    let place = write_bytes(&mut digits, 0, hash);
    write_u16(&mut digits, place, checksum(kind, hash));
    digits
}

/// The digits of a hash and its checksum, one for each chain (RFC 8554, section 4.5).
pub(crate) fn digits(kind: OtsType, hash: &[u8; 32]) -> [u8; ROOM]
    ensures { (i : ℕ) → i < count_of kind → slice_index result i ≡ digit kind hash.now i }
{
    let text = with_checksum(kind, hash);
    let mut digits = [0u8; ROOM];
    for i in 0..kind.p() {
        digits[i] = coef(kind, &text, i);
    }
    digits
}
