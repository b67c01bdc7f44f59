//! A log takes the inputs of its journal again.

ghost use Rattle.std.specs.Prelude.{OnOk, IsErrOf};
ghost use Rattle.log_core.specs.Inputs.{input_of};
ghost use Rattle.log_core.specs.Keyed.{IsPlain};
ghost use Rattle.log_core.specs.State.{rolls};
ghost use Rattle.log_journal.specs.Determined.{one_standing};
ghost use Rattle.log_journal.specs.Steps.{LogStanding, TakesInput, standing_of, takes};

use crate::again::{fault_of, is_newest, newest_told};
use crate::input::{Said, read_text};
use kept_journal::{Replay, ReplayFault};
use lms_tree::LmsPublic;
use log_core::{Log, LogInput, answer};
use std::alloc::Global;
use std::marker::Model;

/// The bytes with which a log's journal begins: `ARPKILG1`.
pub(crate) const MARK: [u8; 8] = *b"ARPKILG1";

/// A log that takes the inputs of its journal again.
#[derive(Drop)]
pub(crate) struct Replaying {
    pub(crate) log: Log,
}

// Clauses see where it stands, and its keys.
impl Model for Replaying {
    ghost use Rattle.log_journal.specs.Steps.{LogStanding, standing_of};

    ghost Value = { LogStanding };

    ghost view = { λ r. standing_of r.log };
}

/// A log takes an input again that is no roll.
fn take_again(alloc: Global, log: &mut Log, input: &LogInput) -> Result<(), ReplayFault>
    requires { IsPlain (input_of input.now) }
    ensures taken { OnOk result
        (TakesInput (standing_of log.old) (input_of input.now) (standing_of log.new)) }
    ensures stuck { IsErrOf result ReplayFault.Stuck → (later : LogStanding)
        → ¬ TakesInput (standing_of log.old) (input_of input.now) later }
{
    match answer(log, alloc, input) {
        Ok(_) => Ok(()),
        Err(refusal) => Err(fault_of(refusal)),
    }
}

/// A log goes on to its next key again, which is to be this one.
fn roll_again(alloc: Global, log: &mut Log, key: &LmsPublic) -> Result<(), ReplayFault>
    ensures taken { OnOk result
        (TakesInput (standing_of log.old) (rolls key.now) (standing_of log.new)) }
    ensures stuck { IsErrOf result ReplayFault.Stuck → (later : LogStanding)
        → ¬ TakesInput (standing_of log.old) (rolls key.now) later }
{
    newest_told(log);
    match log.roll(alloc) {
        Ok(_) => {
            if is_newest(log, key) {
                Ok(())
            } else {
                Err(ReplayFault::Stuck)
            }
        }
        Err(refusal) => Err(fault_of(refusal)),
    }
}

impl Replay for Replaying {
    ghost takes = { takes };

    ghost determined = { one_standing };

    fn replay(&mut self, alloc: Global, text: &[u8]) -> Result<(), ReplayFault> {
        match read_text(text) {
            Said::Plain(input) => take_again(alloc, &mut self.log, &input),
            Said::Roll(key) => roll_again(alloc, &mut self.log, &key),
            Said::Nothing => Err(ReplayFault::Stuck),
        }
    }
}
