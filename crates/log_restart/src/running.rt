//! A log that is kept is asked things again, one behind the other.

ghost use Rattle.std.specs.Prelude.{◌≡◌, ◌≢◌, [], ◌∷◌, true, false, Ok};
ghost use Rattle.kept_journal.specs.Replays.{ReachesBy};
ghost use Rattle.log_journal.specs.Steps.{LogStanding, standing_of, takes};
ghost use Rattle.log_journal.specs.declared.refusal.KeptRefusal.TheVariants as refusals;
ghost use Rattle.log_restart.specs.Inputs.{text_of, texts_of};
ghost use Rattle.log_restart.specs.Running.{FailedAt, Fails, Took, TookAll};
ghost use Rattle.log_core.below.log_sending.specs.declared.refusal.LogRefusal.{LogRefusal};

use log_core::LogInput;
use log_journal::{Disk, KeptLog, KeptRefusal, input_told};
use std::alloc::{AllocError, Global};

/// Why a log that is kept did not answer what it has to take: its disk failed, or memory was wanting.
fn stopped_by(refusal: KeptRefusal) -> Result<bool, AllocError>
    requires runs { refusal ≢ refusals.Reopen }
    requires taken { (why : LogRefusal) → refusal ≢ refusals.Log why }
    ensures never { result ≢ Ok true }
    ensures disk { result ≡ Ok false → refusal ≡ refusals.DiskFault }
{
    match refusal {
        KeptRefusal::DiskFault => Ok(false),
        KeptRefusal::Memory => Err(AllocError),
        _ => unreachable!(),
    }
}

/// Asks a log once more. It answers whether the log took it, or the disk failed; the only error is want of memory.
fn ask<K: Disk>(alloc: Global, kept: &mut KeptLog<K>, input: &LogInput) -> Result<bool, AllocError>
    requires going { kept.old.journal.stopped ≡ false }
    requires takes { (later : LogStanding)
        × takes (standing_of kept.old.log) (text_of input.now) later }
    ensures took { result ≡ Ok true
        → Took K.fuel K.faults kept.old kept.new (text_of input.now ∷ []) }
    ensures failed { result ≡ Ok false
        → Fails K.seen K.held K.fuel K.faults kept.old kept.new (text_of input.now) }
{
    kept.told();
    input_told(input);
    match kept.step(alloc, input) {
        Ok(_sent) => Ok(true),
        Err(refusal) => stopped_by(refusal),
    }
}

/// Asks a log these things again, one behind the other. It answers whether the log took them all, or the disk failed at one of
/// them; the only error is want of memory.
pub(crate) fn ask_all<K: Disk>(
    alloc: Global,
    kept: &mut KeptLog<K>,
    inputs: &[LogInput],
) -> Result<bool, AllocError>
    requires going { kept.old.journal.stopped ≡ false }
    requires replays { (last : LogStanding)
        × ReachesBy takes (standing_of kept.old.log) (texts_of inputs.now) last }
    ensures took { result ≡ Ok true
        → TookAll K.seen K.held K.fuel K.faults kept.old kept.new (texts_of inputs.now) }
    ensures failed { result ≡ Ok false
        → FailedAt K.seen K.held K.fuel K.faults kept.old kept.new (texts_of inputs.now) }
{
    for input in inputs {
        if !ask(alloc, kept, input)? {
            return Ok(false);
        }
    }
    kept.told();
    Ok(true)
}
