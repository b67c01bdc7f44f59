//! A log takes what its journal has of it again.

ghost use Rattle.std.specs.Prelude.{◌≡◌, IfOk, IsErrOf};
ghost use Rattle.log_core.specs.Inputs.{input_of};
ghost use Rattle.log_core.specs.Keyed.{IsPlain};
ghost use Rattle.log_core.specs.State.{rolls};
ghost use Rattle.log_journal.specs.Steps.{LogStanding, standing_of};
ghost use Rattle.log_keeper.specs.Keeping.{Steps};

use ar_message::Sent;
use kept_party::ReplayFault;
use lms_tree::LmsPublic;
use log_core::{Log, LogInput, answer};
use log_journal::again::{fault_of, is_newest, newest_told};
use std::alloc::Global;

/// Takes an input again that is no roll.
pub(crate) fn take_again(
    alloc: Global,
    log: &mut Log,
    input: &LogInput,
) -> Result<Sent, ReplayFault>
    requires { IsPlain (input_of input.now) }
    ensures taken { IfOk result (λ sent.
        Steps (standing_of log.old) (input_of input.now) sent (standing_of log.new)) }
    ensures stuck { IsErrOf result ReplayFault.Stuck → (sent : Sent) (later : LogStanding)
        → ¬ Steps (standing_of log.old) (input_of input.now) sent later }
    ensures number { log.new.core.log.me ≡ log.old.core.log.me }
{
    match answer(log, alloc, input) {
        Ok(sent) => Ok(sent),
        Err(refusal) => Err(fault_of(refusal)),
    }
}

/// Goes on to its next key again, which is to be this one.
pub(crate) fn roll_again(alloc: Global, log: &mut Log, key: &LmsPublic) -> Result<Sent, ReplayFault>
    ensures taken { IfOk result (λ sent.
        Steps (standing_of log.old) (rolls key.now) sent (standing_of log.new)) }
    ensures stuck { IsErrOf result ReplayFault.Stuck → (sent : Sent) (later : LogStanding)
        → ¬ Steps (standing_of log.old) (rolls key.now) sent later }
    ensures number { log.new.core.log.me ≡ log.old.core.log.me }
{
    newest_told(log);
    match log.roll(alloc) {
        Ok(sent) => {
            if is_newest(log, key) {
                Ok(sent)
            } else {
                Err(ReplayFault::Stuck)
            }
        }
        Err(refusal) => Err(fault_of(refusal)),
    }
}
