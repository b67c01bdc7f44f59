ghost use Rattle.std.specs.Prelude.{◌≡◌, OnErr};
ghost use Rattle.std.specs.Int.{w8, w16, w32, w64};
ghost use Rattle.ar_base.specs.Appending.{Appends};
ghost use Rattle.ar_bytes.specs.RoundTrip.{number_text};

use std::alloc::{AllocError, Global};

/// Appends a number of one byte.
///
/// Here and below the one error is want of memory. It leaves the bytes of `out` as they were, and does
/// not come where `out` has room for what is appended.
#[tactic(auto, unfolding(crate::specs::RoundTrip::number_text))]
pub fn put_u8(_alloc: Global, out: &mut Vec<u8>, v: u8) -> Result<(), AllocError>
    ensures appends { Appends (number_text w8 v) out.old out.new result }
    ensures err { OnErr result (out.new.items ≡ out.old.items) }
{
    out.push(v)?;
    Ok(())
}

/// Appends a big-endian number of two bytes.
#[tactic(auto, unfolding(crate::specs::RoundTrip::number_text))]
pub fn put_u16(_alloc: Global, out: &mut Vec<u8>, v: u16) -> Result<(), AllocError>
    ensures appends { Appends (number_text w16 v) out.old out.new result }
    ensures err { OnErr result (out.new.items ≡ out.old.items) }
{
    out.extend_from_slice(&v.to_be_bytes())
}

/// Appends a big-endian number of four bytes.
#[tactic(auto, unfolding(crate::specs::RoundTrip::number_text))]
pub fn put_u32(_alloc: Global, out: &mut Vec<u8>, v: u32) -> Result<(), AllocError>
    ensures appends { Appends (number_text w32 v) out.old out.new result }
    ensures err { OnErr result (out.new.items ≡ out.old.items) }
{
    out.extend_from_slice(&v.to_be_bytes())
}

/// Appends a big-endian number of eight bytes.
#[tactic(auto, unfolding(crate::specs::RoundTrip::number_text))]
pub fn put_u64(_alloc: Global, out: &mut Vec<u8>, v: u64) -> Result<(), AllocError>
    ensures appends { Appends (number_text w64 v) out.old out.new result }
    ensures err { OnErr result (out.new.items ≡ out.old.items) }
{
    out.extend_from_slice(&v.to_be_bytes())
}

/// Appends bytes as they stand, without a count.
pub fn put_bytes(_alloc: Global, out: &mut Vec<u8>, v: &[u8]) -> Result<(), AllocError>
    ensures appends { Appends v.now out.old out.new result }
    ensures err { OnErr result (out.new.items ≡ out.old.items) }
{
    out.extend_from_slice(v)
}
