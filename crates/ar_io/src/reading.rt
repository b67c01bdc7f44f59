ghost use Rattle.std.specs.Prelude.{◌≡◌, ◌≢◌, ◌≤◌, vec_len, IfOk, IfErr, OnOk};
ghost use Rattle.std.specs.Io.KnownBytes.{Consumes, IsAtEnd};
ghost use Rattle.ar_base.specs.Faults.{HasRisen};
ghost use Rattle.ar_io.specs.ReadAll.{Stopped};

use crate::{ReadFault, Source};
use std::alloc::Global;

// How many bytes one read asks for at most.
const PIECE_LEN: usize = 4096;

/// All bytes that the source has left, read to its end, where they are at most `limit`.
///
/// At most `limit + 1` bytes are taken. `Long` comes exactly where that one byte more was there,
/// and `Fault` exactly where a read failed. After a `Fault` and after `Memory`, for which what was taken
/// stands, at most `limit` bytes were taken.
pub fn read_all<S: Source>(
    alloc: Global,
    source: &mut S,
    limit: usize,
) -> Result<Vec<u8>, ReadFault>
    // On `Ok` the bytes are all that was taken, and the source was read to its end.
    ensures bytes { IfOk result (λ all.
        Consumes (S.left source.old) (S.left source.new) all.items) }
    ensures end { OnOk result (IsAtEnd (S.left source.new)) }
    ensures within { IfOk result (λ all. vec_len all ≤ limit) }

    // On an error some front of what was left was taken, longer than the limit exactly at `Long`.
    ensures stopped { IfErr result (Stopped (S.left source.old) (S.left source.new) limit) }

    // A fault has its cause in the count of faults, and none is hidden behind another answer.
    ensures fault { result ≡ Err ReadFault.Fault
        → HasRisen (S.faults source.old) (S.faults source.new) }
    ensures uncounted { result ≢ Err ReadFault.Fault → S.faults source.new ≡ S.faults source.old }
    ensures never_falls { S.faults source.old ≤ S.faults source.new }
{
    let mut bytes = Vec::new(alloc);
    let mut piece = [0u8; PIECE_LEN];
    loop {
        let room = limit - bytes.len();
        let wanted = room.min(PIECE_LEN - 1) + 1;
        let count = source.read(&mut piece[..wanted])?;
        if count == 0 {
            return Ok(bytes);
        }
        if count > room {
            return Err(ReadFault::Long);
        }
        bytes.extend_from_slice(&piece[..count])?;
    }
}
