ghost use Rattle.std.specs.Prelude.{◌≡◌, OnErr};
ghost use Rattle.hex.specs.Hex.{encode_lower};
ghost use Rattle.ar_base.specs.Appending.{Appends};
ghost use Rattle.ar_text.specs.Parts.{part_text, text_of_parts};

use crate::part::Part;
use itoa::Buffer;
use std::alloc::{AllocError, Global};

/// Appends one part.
fn append_part(out: &mut Vec<u8>, part: &Part) -> Result<(), AllocError>
    ensures { Appends (part_text part.now) out.old out.new result }
{
    match part {
        Part::Bytes(bytes) => out.extend_from_slice(bytes),
        Part::Number(number) => out.extend_from_slice(Buffer::new().format(*number).as_bytes()),
        Part::Digest(digest) => out.extend_from_slice(&hex_of(digest)),
    }
}

/// A digest in hex.
fn hex_of(digest: &[u8; 32]) -> [u8; 64]
    ensures { result ≡ encode_lower digest.now }
{
    let mut digits = [0; 64];
    match hex::encode_to_slice(digest.as_slice(), &mut digits) {
        Ok(()) => digits,
        // Each of the 32 bytes has two digits.
        Err(_) => unreachable!(),
    }
}

/// Appends parts one after the other. After an error some may stand in `out`.
fn append_each(out: &mut Vec<u8>, parts: &[Part]) -> Result<(), AllocError>
    ensures { Appends (text_of_parts parts.now) out.old out.new result }
{
    for part in parts {
        append_part(out, part)?;
    }
    Ok(())
}

/// Appends the parts, one behind the other.
///
/// The one error is want of memory. It leaves the bytes of `out` as they were, and does not come where
/// `out` has room for what is appended.
pub fn append(_alloc: Global, out: &mut Vec<u8>, parts: &[Part]) -> Result<(), AllocError>
    ensures appends { Appends (text_of_parts parts.now) out.old out.new result }
    ensures err { OnErr result (out.new.items ≡ out.old.items) }
{
    let start = out.len();
    let result = append_each(out, parts);
    if result.is_err() {
        out.truncate(start);
    }
    result
}
