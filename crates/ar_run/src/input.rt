ghost use Rattle.std.specs.Prelude.{◌≡◌, ◌≢◌, ◌≤◌, IfErr, IfOk};
ghost use Rattle.ar_base.specs.Faults.{HasRisen};
ghost use Rattle.ar_run.specs.Runs.{ReadsInput, TakesAtMost, most_read_bytes};

use crate::Fault;
use ar_io::{ReadFault, Source, read_all};
use std::alloc::Global;

/// The bytes of the longest input.
const MOST_BYTES: usize = 1_048_576;

/// All that the source has left; `None` where it is too long.
pub fn read_input<S: Source>(alloc: Global, source: &mut S) -> Result<Option<Vec<u8>>, Fault>
    ensures ok { IfOk result (λ input. ReadsInput (S.left source.old) (S.left source.new) input) }
    ensures source { result ≡ Err Fault.Source
        → HasRisen (S.faults source.old) (S.faults source.new) }
    ensures sink { result ≢ Err Fault.Sink }
    ensures taken { IfErr result (λ fault.
        TakesAtMost most_read_bytes (S.left source.old) (S.left source.new)) }
    ensures uncounted { result ≢ Err Fault.Source → S.faults source.new ≡ S.faults source.old }
    ensures faults { S.faults source.old ≤ S.faults source.new }
{
    match read_all(alloc, source, MOST_BYTES) {
        Ok(input) => Ok(Some(input)),
        Err(ReadFault::Long) => Ok(None),
        Err(ReadFault::Fault) => Err(Fault::Source),
        Err(ReadFault::Memory) => Err(Fault::Memory),
    }
}
