//! Messages written, kind by kind.

ghost use Rattle.std.specs.Prelude.{◌≡◌, ◌++◌, IfOk, OnErr};
ghost use Rattle.std.specs.Int.{w8, w16, w32, w64};
ghost use Rattle.ar_base.specs.Ranges.{IsFromTo};
ghost use Rattle.ar_bytes.specs.Joined.{optional_text};
ghost use Rattle.ar_bytes.specs.RoundTrip.{counted_text, number_text};
ghost use Rattle.ar_cert.specs.Certificate.{certificate_text};
ghost use Rattle.ar_message.specs.Confirmation.{body_text, form_text, is_present, path_text, signers_text, subject_text};
ghost use Rattle.ar_message.specs.Lists.{changes_text, statuses_text, votes_text};
ghost use Rattle.ar_message.specs.declared.message.Message.TheVariants.{EndorseAsk, LogConfirmed, Submit};
ghost use Rattle.ar_message.specs.Messages.{fields_text, kind_of, message_text, path_in, shown_in, signed_in};
ghost use Rattle.ar_statement.specs.Claims.{name_text, party_text, value_text, value_with};
ghost use Rattle.ar_base.specs.Appending.{Appends};
ghost use Rattle.lms_tree.specs.PublicKey.{key_text};

use crate::writing::{
    put_body, put_changes, put_confirming, put_form, put_name, put_numbers, put_roots,
    put_signature, put_signed, put_statuses, put_subject, put_value, put_votes,
};
use crate::{Body, Changes, Confirming, Message, Signature, Votes};
use ar_bytes::{put_bytes, put_u8, put_u16, put_u32, put_u64};
use ar_cert::{Cert, ChangeParts};
use ar_names::Name;
use ar_statement::Party;
use lms_tree::LmsPublic;
use std::alloc::{AllocError, Global};
use vote_quorum::Value;

/// The number of the kind of a request to endorse.
const ENDORSE_ASK: u8 = 1;
/// The number of the kind of a change on its way to the logs.
const SUBMIT: u8 = 3;
/// The number of the kind of what a log has confirmed.
const LOG_CONFIRMED: u8 = 10;

fn put_endorse_ask(
    alloc: Global,
    out: &mut Vec<u8>,
    owner: u16,
    cert: &Cert,
) -> Result<(), AllocError>
    ensures { Appends (number_text w16 owner
        ++ counted_text (certificate_text cert.now)) out.old out.new result }
{
    put_u16(alloc, out, owner)?;
    cert.write_counted(alloc, out)
}

fn put_endorsed(
    alloc: Global,
    out: &mut Vec<u8>,
    owner: u16,
    authority: u16,
    certificate: &[u8; 32],
    signature: &Signature,
) -> Result<(), AllocError>
    ensures { Appends (number_text w16 owner
        ++ (number_text w16 authority
        ++ (certificate.now ++ counted_text signature.now))) out.old out.new result }
{
    put_numbers(alloc, out, owner, authority)?;
    put_bytes(alloc, out, certificate)?;
    put_signature(alloc, out, signature)
}

/// A log, an epoch, a base and a root.
fn put_voted(
    alloc: Global,
    out: &mut Vec<u8>,
    log: u16,
    epoch: u64,
    base: &[u8; 32],
    root: &[u8; 32],
) -> Result<(), AllocError>
    ensures { Appends (number_text w16 log
        ++ (number_text w64 epoch
        ++ value_text (value_with base.now root.now))) out.old out.new result }
{
    put_u16(alloc, out, log)?;
    put_u64(alloc, out, epoch)?;
    put_roots(alloc, out, base, root)
}

/// Changes, and a signature.
fn put_proposed(
    alloc: Global,
    out: &mut Vec<u8>,
    changes: &Changes,
    signature: &Signature,
) -> Result<(), AllocError>
    ensures { Appends (changes_text changes.now
        ++ counted_text signature.now) out.old out.new result }
{
    put_changes(alloc, out, changes)?;
    put_signature(alloc, out, signature)
}

fn put_status_note(
    alloc: Global,
    out: &mut Vec<u8>,
    log: u16,
    epoch: u64,
    value: &Option<Value>,
    signature: &Signature,
) -> Result<(), AllocError>
    ensures { Appends (number_text w16 log
        ++ (number_text w64 epoch
        ++ (optional_text value_text value.now
        ++ counted_text signature.now))) out.old out.new result }
{
    put_u16(alloc, out, log)?;
    put_u64(alloc, out, epoch)?;
    put_value(alloc, out, value)?;
    put_signature(alloc, out, signature)
}

fn put_decision(
    alloc: Global,
    out: &mut Vec<u8>,
    epoch: u64,
    base: &[u8; 32],
    root: &[u8; 32],
    changes: &Changes,
    votes: &Votes,
) -> Result<(), AllocError>
    ensures { Appends (number_text w64 epoch
        ++ (value_text (value_with base.now root.now)
        ++ (changes_text changes.now ++ votes_text votes.now))) out.old out.new result }
{
    put_u64(alloc, out, epoch)?;
    put_roots(alloc, out, base, root)?;
    put_changes(alloc, out, changes)?;
    put_votes(alloc, out, votes)
}

fn put_confirm_ask(
    alloc: Global,
    out: &mut Vec<u8>,
    client: u16,
    name: &Name,
    first: u16,
    second: u16,
) -> Result<(), AllocError>
    ensures { Appends (number_text w16 client
        ++ (name_text name.now
        ++ (number_text w16 first ++ number_text w16 second))) out.old out.new result }
{
    put_u16(alloc, out, client)?;
    put_name(alloc, out, name)?;
    put_numbers(alloc, out, first, second)
}

/// What a confirmation says, in front of its signatures.
fn put_said(
    alloc: Global,
    out: &mut Vec<u8>,
    client: u16,
    epoch: u64,
    name: &Name,
    root: &[u8; 32],
    body: &Body,
) -> Result<(), AllocError>
    ensures { Appends (form_text (is_present (shown_in body.now))
        ++ (subject_text (record {
          client = client;
          epoch = epoch;
          name = name.now;
          root = root.now;
        })
        ++ (body_text (shown_in body.now)
        ++ path_text (path_in body.now)))) out.old out.new result }
{
    put_form(alloc, out, body)?;
    put_subject(alloc, out, client, epoch, name, root)?;
    put_body(alloc, out, body)
}

/// Three parties, each with its signature.
fn put_signers(
    alloc: Global,
    out: &mut Vec<u8>,
    log: (u16, &Signature),
    first: (u16, &Signature),
    second: (u16, &Signature),
) -> Result<(), AllocError>
    ensures { Appends (signers_text (
      signed_in log.entry.0 log.entry.1.now,
      signed_in first.entry.0 first.entry.1.now,
      signed_in second.entry.0 second.entry.1.now,
    )) out.old out.new result }
{
    put_signed(alloc, out, log.0, log.1)?;
    put_signed(alloc, out, first.0, first.1)?;
    put_signed(alloc, out, second.0, second.1)
}

/// A log or an authority: its role and its number.
fn put_party(alloc: Global, out: &mut Vec<u8>, party: Party) -> Result<(), AllocError>
    ensures { Appends (party_text party) out.old out.new result }
{
    put_u8(alloc, out, party.role.number())?;
    put_u16(alloc, out, party.number)
}

/// A generation, and a key.
fn put_next_key(
    alloc: Global,
    out: &mut Vec<u8>,
    generation: u32,
    key: &LmsPublic,
) -> Result<(), AllocError>
    ensures { Appends (number_text w32 generation ++ key_text key.now) out.old out.new result }
{
    put_u32(alloc, out, generation)?;
    put_bytes(alloc, out, &key.bytes())
}

fn put_roll_note(
    alloc: Global,
    out: &mut Vec<u8>,
    party: Party,
    generation: u32,
    key: &LmsPublic,
    signature: &Signature,
) -> Result<(), AllocError>
    ensures { Appends (party_text party
        ++ (number_text w32 generation
        ++ (key_text key.now ++ counted_text signature.now))) out.old out.new result }
{
    put_party(alloc, out, party)?;
    put_next_key(alloc, out, generation, key)?;
    put_signature(alloc, out, signature)
}

/// The fields of a message about an epoch that ends, behind the number of its kind.
#[tactic(auto, unfolding(crate::specs::Messages::fields_text))]
fn put_ending(alloc: Global, out: &mut Vec<u8>, message: &Message) -> Result<(), AllocError>
    requires { IsFromTo 4 8 (kind_of message.now) }
    ensures { Appends (fields_text message.now) out.old out.new result }
{
    match message {
        Message::Propose {
            log,
            epoch,
            base,
            root,
            changes,
            signature,
        } => {
            put_voted(alloc, out, *log, *epoch, base, root)?;
            put_proposed(alloc, out, changes, signature)
        }
        Message::Ballot {
            log,
            epoch,
            base,
            root,
            signature,
        } => {
            put_voted(alloc, out, *log, *epoch, base, root)?;
            put_signature(alloc, out, signature)
        }
        Message::StatusNote {
            log,
            epoch,
            value,
            signature,
        } => put_status_note(alloc, out, *log, *epoch, value, signature),
        Message::Decision {
            epoch,
            base,
            root,
            changes,
            votes,
        } => put_decision(alloc, out, *epoch, base, root, changes, votes),
        Message::SkipNote { epoch, statuses } => {
            put_u64(alloc, out, *epoch)?;
            put_statuses(alloc, out, statuses)
        }
        _ => unreachable!(),
    }
}

/// The fields of a message that brings a confirmation to its client, behind the number of its kind.
#[tactic(auto, unfolding(crate::specs::Messages::fields_text, crate::specs::Confirmation::confirmation_fields_text))]
fn put_confirmed_to(alloc: Global, out: &mut Vec<u8>, message: &Message) -> Result<(), AllocError>
    requires { IsFromTo 10 12 (kind_of message.now) }
    ensures { Appends (fields_text message.now) out.old out.new result }
{
    match message {
        Message::LogConfirmed { part } => put_confirming(alloc, out, part),
        Message::HalfConfirmed {
            part,
            first_signature,
        } => {
            put_confirming(alloc, out, part)?;
            put_signature(alloc, out, first_signature)
        }
        Message::Confirmation {
            client,
            epoch,
            name,
            root,
            body,
            log,
            log_signature,
            first,
            first_signature,
            second,
            second_signature,
        } => {
            put_said(alloc, out, *client, *epoch, name, root, body)?;
            let log = (*log, log_signature);
            let first = (*first, first_signature);
            put_signers(alloc, out, log, first, (*second, second_signature))
        }
        _ => unreachable!(),
    }
}

/// The fields behind the number of the kind.
#[tactic(auto, unfolding(crate::specs::Messages::fields_text))]
fn put_fields(alloc: Global, out: &mut Vec<u8>, message: &Message) -> Result<(), AllocError>
    ensures { Appends (fields_text message.now) out.old out.new result }
{
    match message {
        Message::EndorseAsk { owner, cert } => put_endorse_ask(alloc, out, *owner, cert),
        Message::Endorsed {
            owner,
            authority,
            certificate,
            signature,
        } => put_endorsed(alloc, out, *owner, *authority, certificate, signature),
        Message::Submit { change } => change.write(alloc, out),
        Message::ConfirmAsk {
            client,
            name,
            first,
            second,
        } => put_confirm_ask(alloc, out, *client, name, *first, *second),
        Message::RollNote {
            party,
            generation,
            key,
            signature,
        } => put_roll_note(alloc, out, *party, *generation, key, signature),
        Message::Propose { .. }
        | Message::Ballot { .. }
        | Message::StatusNote { .. }
        | Message::Decision { .. }
        | Message::SkipNote { .. } => put_ending(alloc, out, message),
        Message::LogConfirmed { .. }
        | Message::HalfConfirmed { .. }
        | Message::Confirmation { .. } => put_confirmed_to(alloc, out, message),
    }
}

/// The text. After an error a part of it may stand in `out`.
#[tactic(auto, unfolding(crate::specs::Messages::message_text))]
fn put_message(alloc: Global, out: &mut Vec<u8>, message: &Message) -> Result<(), AllocError>
    ensures { Appends (message_text message.now) out.old out.new result }
{
    put_u8(alloc, out, message.kind())?;
    put_fields(alloc, out, message)
}

/// The text of the message `EndorseAsk` of this owner and this certificate. The only error is want of memory.
#[tactic(auto, unfolding(crate::specs::Messages::message_text, crate::specs::Messages::fields_text))]
pub fn endorse_ask_text(alloc: Global, owner: u16, cert: &Cert) -> Result<Vec<u8>, AllocError>
    ensures { IfOk result (λ text. text.items ≡ message_text (EndorseAsk owner cert.now)) }
{
    let mut text = Vec::new(alloc);
    put_u8(alloc, &mut text, ENDORSE_ASK)?;
    put_endorse_ask(alloc, &mut text, owner, cert)?;
    Ok(text)
}

/// The text of the message `Submit` of the change that these parts make. The only error is want of memory.
#[tactic(auto, unfolding(crate::specs::Messages::message_text, crate::specs::Messages::fields_text))]
pub fn submit_text(alloc: Global, change: &ChangeParts) -> Result<Vec<u8>, AllocError>
    ensures { IfOk result (λ text. text.items ≡ message_text (Submit change.now)) }
{
    let mut text = Vec::new(alloc);
    put_u8(alloc, &mut text, SUBMIT)?;
    change.write(alloc, &mut text)?;
    Ok(text)
}

/// The text of the message `LogConfirmed` of this part. The only error is want of memory.
#[tactic(auto, unfolding(crate::specs::Messages::message_text, crate::specs::Messages::fields_text))]
pub fn log_confirmed_text(alloc: Global, part: &Confirming) -> Result<Vec<u8>, AllocError>
    ensures { IfOk result (λ text. text.items ≡ message_text (LogConfirmed part.now)) }
{
    let mut text = Vec::new(alloc);
    put_u8(alloc, &mut text, LOG_CONFIRMED)?;
    put_confirming(alloc, &mut text, part)?;
    Ok(text)
}

impl Message {
    ghost use Rattle.std.specs.Prelude.{◌≡◌, OnErr};
    ghost use Rattle.ar_message.specs.Messages.{kind_of, message_text};

    /// The number of its kind, the first byte of its text.
    pub fn kind(&self) -> u8
        ensures { result ≡ kind_of self.now }
    {
        match self {
            Message::EndorseAsk { .. } => ENDORSE_ASK,
            Message::Endorsed { .. } => 2,
            Message::Submit { .. } => SUBMIT,
            Message::Propose { .. } => 4,
            Message::Ballot { .. } => 5,
            Message::StatusNote { .. } => 6,
            Message::Decision { .. } => 7,
            Message::SkipNote { .. } => 8,
            Message::ConfirmAsk { .. } => 9,
            Message::LogConfirmed { .. } => LOG_CONFIRMED,
            Message::HalfConfirmed { .. } => 11,
            Message::Confirmation { .. } => 12,
            Message::RollNote { .. } => 13,
        }
    }

    /// Appends the text, however long it is. The one error is want of memory: it leaves the bytes of `out`
    /// as they were, and does not come where `out` has room for the text.
    pub fn write(&self, alloc: Global, out: &mut Vec<u8>) -> Result<(), AllocError>
        ensures appends { Appends (message_text self.now) out.old out.new result }
        ensures err { OnErr result (out.new.items ≡ out.old.items) }
    {
        let start = out.len();
        let result = put_message(alloc, out, self);
        if result.is_err() {
            out.truncate(start);
        }
        result
    }

    /// The text. The one error is want of memory.
    pub fn text(&self, alloc: Global) -> Result<Vec<u8>, AllocError>
        ensures { IfOk result (λ text. text.items ≡ message_text self.now) }
    {
        let mut text = Vec::new(alloc);
        self.write(alloc, &mut text)?;
        Ok(text)
    }
}
