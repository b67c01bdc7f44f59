//! How a log and an authority take a message.

ghost use Rattle.std.specs.Prelude.{◌≡◌, ◌≢◌, Err, IfOk, OnErr, unwrap_or};
ghost use Rattle.std.specs.Option.{option_map};
ghost use Rattle.ar_message.specs.Messages.{message_in};
ghost use Rattle.authority_core.specs.Row.{asked_in};
ghost use Rattle.authority_core.specs.declared.refusal.AuthorityRefusal.TheVariants as refusals;
ghost use Rattle.log_core.specs.Row.{row};
ghost use Rattle.log_core.specs.State.{takes};
ghost use Rattle.owner_check.specs.declared.answer.Outcome.TheVariants.{No};
ghost use Rattle.ar_nodes.specs.Parties.{check_told};
ghost use Rattle.station.specs.Station.{IsAnswerOf, a_log, an_authority, authority_took, coded, log_replied};

use crate::asking::note_by;
use ar_bytes::are_bytes;
use ar_message::Unsigned;
use ar_nodes::codes::{authority_code, log_code};
use authority_core::{AuthorityCore, AuthorityRefusal};
use log_core::{LogCore, LogInput, LogRefusal};
use owner_check::{Outcome, OwnerCheck};
use report_text::Code;
use std::alloc::{AllocError, Global};

/// What is sent before it is signed, or the code of a refusal.
pub(crate) type Unfilled = Result<Unsigned, Code>;

/// A log takes a message.
pub(crate) fn log_takes(
    core: &mut LogCore,
    alloc: Global,
    bytes: &[u8],
) -> Result<Unfilled, AllocError>
    ensures ok { IfOk result (λ reply.
        log_replied core.old (row core.old (takes bytes.now)) ≡ (reply, a_log core.new)) }
    ensures err { OnErr result (core.new ≡ core.old) }
{
    match core.step(alloc, &LogInput::Take(bytes)) {
        Ok(unsigned) => Ok(Ok(unsigned)),
        Err(LogRefusal::Memory) => Err(AllocError),
        Err(refusal) => Ok(Err(log_code(refusal))),
    }
}

/// An authority's answer with the code of its refusal, unless memory was wanting.
fn coded(answer: Result<Unsigned, AuthorityRefusal>) -> Result<Unfilled, AllocError>
    ensures ok { IfOk result (λ reply. (answer ≢ Err refusals.Memory) × (reply ≡ coded answer)) }
    ensures err { OnErr result (answer ≡ Err refusals.Memory) }
{
    match answer {
        Ok(unsigned) => Ok(Ok(unsigned)),
        Err(AuthorityRefusal::Memory) => Err(AllocError),
        Err(refusal) => Ok(Err(authority_code(refusal))),
    }
}

/// An authority takes a message, and it is noted what its check answered.
pub(crate) fn authority_takes<C: OwnerCheck>(
    core: &mut AuthorityCore<C>,
    alloc: Global,
    bytes: &[u8],
) -> Result<(Unfilled, Option<Outcome>), AllocError>
    ensures note { IfOk result (λ made.
        IsAnswerOf (option_map (check_told C.told C.answers) core.old.check)
        (asked_in (message_in bytes.now)) made.1) }
    ensures ok { IfOk result (λ made.
        authority_took (unwrap_or made.1 No) core.old.state
        (option_map (check_told C.told C.answers) core.old.check) (message_in bytes.now)
        ≡ (
          made.0,
          an_authority core.new.state
              (option_map (check_told C.told C.answers) core.new.check),
        )) }
    ensures state { OnErr result (core.new.state ≡ core.old.state) }
    ensures check { OnErr result (option_map (check_told C.told C.answers) core.new.check
        ≡ option_map (check_told C.told C.answers) core.old.check) }
{
    are_bytes(bytes);
    let answer = core.step(alloc, bytes);
    let note = note_by(bytes, &answer);
    let reply = coded(answer)?;
    Ok((reply, note))
}
