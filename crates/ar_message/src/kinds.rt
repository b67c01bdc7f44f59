//! Messages of each kind but the confirmations, read from the fields behind the number of the kind. Memory is
//! taken only once all that is left was found in order.

ghost use Rattle.std.specs.Prelude.{◌≡◌, IfOk};
ghost use Rattle.ar_bytes.specs.Reading.{Tells, such_that};
ghost use Rattle.ar_cert.specs.Changes.{IsSignature};
ghost use Rattle.ar_statement.specs.Ranges.{is_witness};
ghost use Rattle.ar_statement.specs.Texts.{role_at};
ghost use Rattle.ar_message.specs.Answers.{Fills};
ghost use Rattle.ar_message.specs.Messages.{endorse_ask_at, endorsed_at, submit_at, propose_at, ballot_at, status_note_at, decision_at, skip_note_at, confirm_ask_at, witness_at, roll_note_at};

use crate::take_lists::{take_changes, take_statuses, take_votes};
use crate::{Message, MessageFault, Signature};
use ar_bytes::Fields;
use ar_cert::{CertView, ChangeView, take_key};
use ar_statement::fields::{digest, epoch, name, optional_value, role, value};
use ar_statement::{Party, Role};
use std::alloc::Global;
use vote_quorum::Value;

#[tactic(auto, unfolding(crate::specs::Messages::endorse_ask_at))]
pub(crate) fn endorse_ask(alloc: Global, fields: &mut Fields) -> Result<Message, MessageFault>
    ensures { Fills result endorse_ask_at fields.old }
{
    let owner = fields.take_u16()?;
    let cert = CertView::take_counted(fields)?;
    fields.take_end()?;
    let cert = cert.to_cert(alloc)?;
    Ok(Message::EndorseAsk { owner, cert })
}

#[tactic(auto, unfolding(crate::specs::Messages::endorsed_at))]
pub(crate) fn endorsed(alloc: Global, fields: &mut Fields) -> Result<Message, MessageFault>
    ensures { Fills result endorsed_at fields.old }
{
    let owner = fields.take_u16()?;
    let authority = fields.take_u16()?;
    let certificate = digest(fields)?;
    let signature = fields.take_counted()?;
    fields.take_end()?;
    let signature = Signature::of(alloc, signature)?;
    Ok(Message::Endorsed {
        owner,
        authority,
        certificate,
        signature,
    })
}

#[tactic(auto, unfolding(crate::specs::Messages::submit_at))]
pub(crate) fn submit(alloc: Global, fields: &mut Fields) -> Result<Message, MessageFault>
    ensures { Fills result submit_at fields.old }
{
    let change = ChangeView::take(fields)?;
    fields.take_end()?;
    let change = change.to_change(alloc)?;
    Ok(Message::Submit { change })
}

#[tactic(auto, unfolding(crate::specs::Messages::propose_at))]
pub(crate) fn propose(alloc: Global, fields: &mut Fields) -> Result<Message, MessageFault>
    ensures { Fills result propose_at fields.old }
{
    let log = fields.take_u16()?;
    let epoch = epoch(fields)?;
    let Value { base, root } = value(fields)?;
    let changes = take_changes(alloc, fields)?;
    let signature = fields.take_counted()?;
    fields.take_end()?;
    let changes = changes?;
    let signature = Signature::of(alloc, signature)?;
    Ok(Message::Propose {
        log,
        epoch,
        base,
        root,
        changes,
        signature,
    })
}

#[tactic(auto, unfolding(crate::specs::Messages::ballot_at))]
pub(crate) fn ballot(alloc: Global, fields: &mut Fields) -> Result<Message, MessageFault>
    ensures { Fills result ballot_at fields.old }
{
    let log = fields.take_u16()?;
    let epoch = epoch(fields)?;
    let Value { base, root } = value(fields)?;
    let signature = fields.take_counted()?;
    fields.take_end()?;
    let signature = Signature::of(alloc, signature)?;
    Ok(Message::Ballot {
        log,
        epoch,
        base,
        root,
        signature,
    })
}

#[tactic(auto, unfolding(crate::specs::Messages::status_note_at))]
pub(crate) fn status_note(alloc: Global, fields: &mut Fields) -> Result<Message, MessageFault>
    ensures { Fills result status_note_at fields.old }
{
    let log = fields.take_u16()?;
    let epoch = epoch(fields)?;
    let value = optional_value(fields)?;
    let signature = fields.take_counted()?;
    fields.take_end()?;
    let signature = Signature::of(alloc, signature)?;
    Ok(Message::StatusNote {
        log,
        epoch,
        value,
        signature,
    })
}

#[tactic(auto, unfolding(crate::specs::Messages::decision_at))]
pub(crate) fn decision(alloc: Global, fields: &mut Fields) -> Result<Message, MessageFault>
    ensures { Fills result decision_at fields.old }
{
    let epoch = epoch(fields)?;
    let Value { base, root } = value(fields)?;
    let changes = take_changes(alloc, fields)?;
    let votes = take_votes(alloc, fields)?;
    fields.take_end()?;
    let changes = changes?;
    let votes = votes?;
    Ok(Message::Decision {
        epoch,
        base,
        root,
        changes,
        votes,
    })
}

#[tactic(auto, unfolding(crate::specs::Messages::skip_note_at))]
pub(crate) fn skip_note(alloc: Global, fields: &mut Fields) -> Result<Message, MessageFault>
    ensures { Fills result skip_note_at fields.old }
{
    let epoch = epoch(fields)?;
    let statuses = take_statuses(alloc, fields)?;
    fields.take_end()?;
    let statuses = statuses?;
    Ok(Message::SkipNote { epoch, statuses })
}

#[tactic(auto, unfolding(crate::specs::Messages::confirm_ask_at))]
pub(crate) fn confirm_ask(alloc: Global, fields: &mut Fields) -> Result<Message, MessageFault>
    ensures { Fills result confirm_ask_at fields.old }
{
    let client = fields.take_u16()?;
    let name = name(fields)?;
    let first = fields.take_u16()?;
    let second = fields.take_u16()?;
    fields.take_end()?;
    let name = name.to_name(alloc)?;
    Ok(Message::ConfirmAsk {
        client,
        name,
        first,
        second,
    })
}

/// The role of a log or an authority.
#[tactic(auto, unfolding(ar_bytes::specs::Reading::such_that))]
fn witness_role(fields: &mut Fields) -> Result<Role, usize>
    ensures { Tells (λ role. role) result fields.new (such_that is_witness role_at fields.old) }
{
    let place = fields.place();
    let role = role(fields)?;
    if !role.is_witness() {
        return Err(place);
    }
    Ok(role)
}

/// A log or an authority.
#[tactic(auto, unfolding(crate::specs::Messages::witness_at))]
fn witness(fields: &mut Fields) -> Result<Party, usize>
    ensures { Tells (λ party. party) result fields.new (witness_at fields.old) }
{
    let role = witness_role(fields)?;
    let number = fields.take_u16()?;
    Ok(role.party(number))
}

#[tactic(auto, unfolding(crate::specs::Messages::roll_note_at))]
pub(crate) fn roll_note(alloc: Global, fields: &mut Fields) -> Result<Message, MessageFault>
    ensures { Fills result roll_note_at fields.old }
{
    let party = witness(fields)?;
    let generation = fields.take_u32()?;
    let key = take_key(fields)?;
    let signature = fields.take_counted()?;
    fields.take_end()?;
    let signature = Signature::of(alloc, signature)?;
    Ok(Message::RollNote {
        party,
        generation,
        key,
        signature,
    })
}
