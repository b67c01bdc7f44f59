//! A log does what it is asked, and has the record of that.

ghost use Rattle.std.specs.Prelude.{◌≡◌, IfErr, IfOk, OnErr};
ghost use Rattle.key_roll.specs.Ring.{IsOfNext};
ghost use Rattle.log_core.specs.Inputs.{input_of};
ghost use Rattle.log_core.specs.Keyed.{IsOwn};
ghost use Rattle.log_core.specs.State.{rolls};
ghost use Rattle.log_journal.specs.Steps.{standing_of};
ghost use Rattle.log_keeper.specs.Keeping.{DoneBy, RefusesBy, RefusesRoll};

use ar_message::Sent;
use kept_party::Done;
use lms_tree::LmsPublic;
use log_core::{Log, LogInput, LogRefusal, answer};
use log_journal::{input_told, record_of_input};
use std::alloc::Global;

/// Does what it is asked. All memory is taken before the first change.
pub(crate) fn ask(alloc: Global, log: &mut Log, input: &LogInput) -> Result<Done<Sent>, LogRefusal>
    requires { IsOwn log.old.ring.keys (input_of input.now) }
    ensures done { IfOk result (λ done.
        DoneBy (standing_of log.old) (input_of input.now) done (standing_of log.new)) }
    ensures refused { IfErr result (λ refusal.
        RefusesBy (standing_of log.old) (input_of input.now) refusal) }
    ensures err { OnErr result (standing_of log.new ≡ standing_of log.old) }
    ensures number { log.new.core.log.me ≡ log.old.core.log.me }
{
    input_told(input);
    let text = record_of_input(alloc, input)?;
    let reply = answer(log, alloc, input)?;
    Ok(Done {
        reply,
        text: Some(text),
    })
}

/// Goes on to its next key.
pub(crate) fn ask_to_roll(alloc: Global, log: &mut Log) -> Result<Done<Sent>, LogRefusal>
    ensures done { IfOk result (λ done. (key : LmsPublic) × (IsOfNext log.old.ring.keys key
        × DoneBy (standing_of log.old) (rolls key) done (standing_of log.new))) }
    ensures refused { IfErr result (λ refusal. RefusesRoll (standing_of log.old) refusal) }
    ensures err { OnErr result (standing_of log.new ≡ standing_of log.old) }
    ensures number { log.new.core.log.me ≡ log.old.core.log.me }
{
    let key = log.next_key(alloc)?;
    ask(alloc, log, &LogInput::Roll(&key))
}
