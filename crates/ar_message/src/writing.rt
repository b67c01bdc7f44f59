//! Messages written: each function appends the text of a part of a message. After an error a part of the text may
//! stand behind what was there; `Message::write` takes it away again.

ghost use Rattle.std.specs.Prelude.{◌++◌, length};
ghost use Rattle.std.specs.List.{flat_map};
ghost use Rattle.std.specs.Int.{w8, w16, w32, w64};
ghost use Rattle.ar_bytes.specs.Joined.{optional_text};
ghost use Rattle.ar_bytes.specs.RoundTrip.{counted_text, number_text};
ghost use Rattle.ar_cert.specs.Changes.{change_text};
ghost use Rattle.ar_message.specs.Confirmation.{body_text, bottom_text, form_text, is_present, path_text, signed_text, subject_text};
ghost use Rattle.ar_message.specs.Lists.{changes_text, status_text, statuses_text, vote_text, votes_text};
ghost use Rattle.ar_message.specs.Messages.{about_in, confirmed_text, confirming_text, vouched_text, fields_text, message_text, path_in, shown_in, signed_in, kind_of};
ghost use Rattle.ar_statement.specs.Claims.{name_text, party_text, value_text, value_with};
ghost use Rattle.ar_base.specs.Appending.{Appends};
ghost use Rattle.lms_tree.specs.PublicKey.{key_text};

use crate::{
    Body, Changes, Confirming, LogStatus, Message, PathSteps, Signature, Statuses, Vote, Votes,
};
use ar_bytes::{put_bytes, put_u8, put_u16, put_u32, put_u64};
use ar_cert::Change;
use ar_names::Name;
use std::alloc::{AllocError, Global};
use tree_proof::Bottom;
use vote_quorum::Value;

// ---- fields

/// The numbers of two parties.
pub(crate) fn put_numbers(
    alloc: Global,
    out: &mut Vec<u8>,
    first: u16,
    second: u16,
) -> Result<(), AllocError>
    ensures { Appends (number_text w16 first ++ number_text w16 second) out.old out.new result }
{
    put_u16(alloc, out, first)?;
    put_u16(alloc, out, second)
}

/// A base and a root.
pub(crate) fn put_roots(
    alloc: Global,
    out: &mut Vec<u8>,
    base: &[u8; 32],
    root: &[u8; 32],
) -> Result<(), AllocError>
    ensures { Appends (value_text (value_with base.now root.now)) out.old out.new result }
{
    put_bytes(alloc, out, base)?;
    put_bytes(alloc, out, root)
}

/// A flag, and for 1 a base and a root.
#[tactic(auto, unfolding(ar_bytes::specs::Joined::optional_text))]
pub(crate) fn put_value(
    alloc: Global,
    out: &mut Vec<u8>,
    value: &Option<Value>,
) -> Result<(), AllocError>
    ensures { Appends (optional_text value_text value.now) out.old out.new result }
{
    match value {
        None => put_u8(alloc, out, 0),
        Some(value) => {
            put_u8(alloc, out, 1)?;
            put_roots(alloc, out, &value.base, &value.root)
        }
    }
}

/// A signature behind the number of its bytes.
pub(crate) fn put_signature(
    alloc: Global,
    out: &mut Vec<u8>,
    signature: &Signature,
) -> Result<(), AllocError>
    ensures { Appends (counted_text signature.now) out.old out.new result }
{
    let bytes = signature.as_slice();
    put_u16(alloc, out, bytes.len() as u16)?;
    put_bytes(alloc, out, bytes)
}

/// A name behind its length.
pub(crate) fn put_name(alloc: Global, out: &mut Vec<u8>, name: &Name) -> Result<(), AllocError>
    ensures { Appends (name_text name.now) out.old out.new result }
{
    let text = name.view().text();
    put_u8(alloc, out, text.len() as u8)?;
    put_bytes(alloc, out, text)
}

// ---- lists

fn put_each_change(alloc: Global, out: &mut Vec<u8>, changes: &[Change]) -> Result<(), AllocError>
    ensures { Appends (flat_map change_text changes.now) out.old out.new result }
{
    for change in changes {
        change.write(alloc, out)?;
    }
    Ok(())
}

pub(crate) fn put_changes(
    alloc: Global,
    out: &mut Vec<u8>,
    changes: &Changes,
) -> Result<(), AllocError>
    ensures { Appends (changes_text changes.now) out.old out.new result }
{
    put_u8(alloc, out, changes.list.len() as u8)?;
    put_each_change(alloc, out, &changes.list)
}

fn put_vote(alloc: Global, out: &mut Vec<u8>, vote: &Vote) -> Result<(), AllocError>
    ensures { Appends (vote_text vote.now) out.old out.new result }
{
    put_u16(alloc, out, vote.log)?;
    put_signature(alloc, out, &vote.signature)
}

fn put_each_vote(alloc: Global, out: &mut Vec<u8>, votes: &[Vote]) -> Result<(), AllocError>
    ensures { Appends (flat_map vote_text votes.now) out.old out.new result }
{
    for vote in votes {
        put_vote(alloc, out, vote)?;
    }
    Ok(())
}

pub(crate) fn put_votes(alloc: Global, out: &mut Vec<u8>, votes: &Votes) -> Result<(), AllocError>
    ensures { Appends (votes_text votes.now) out.old out.new result }
{
    put_u8(alloc, out, votes.list.len() as u8)?;
    put_each_vote(alloc, out, &votes.list)
}

fn put_status(alloc: Global, out: &mut Vec<u8>, status: &LogStatus) -> Result<(), AllocError>
    ensures { Appends (status_text status.now) out.old out.new result }
{
    put_u16(alloc, out, status.log)?;
    put_value(alloc, out, &status.value)?;
    put_signature(alloc, out, &status.signature)
}

fn put_each_status(
    alloc: Global,
    out: &mut Vec<u8>,
    statuses: &[LogStatus],
) -> Result<(), AllocError>
    ensures { Appends (flat_map status_text statuses.now) out.old out.new result }
{
    for status in statuses {
        put_status(alloc, out, status)?;
    }
    Ok(())
}

pub(crate) fn put_statuses(
    alloc: Global,
    out: &mut Vec<u8>,
    statuses: &Statuses,
) -> Result<(), AllocError>
    ensures { Appends (statuses_text statuses.now) out.old out.new result }
{
    put_u8(alloc, out, statuses.list.len() as u8)?;
    put_each_status(alloc, out, &statuses.list)
}

// ---- confirmations

/// Whether the name is present: 1, or 2.
pub(crate) fn put_form(alloc: Global, out: &mut Vec<u8>, body: &Body) -> Result<(), AllocError>
    ensures { Appends (form_text (is_present (shown_in body.now))) out.old out.new result }
{
    match body {
        Body::Present { .. } => put_u8(alloc, out, 1),
        Body::Absent { .. } => put_u8(alloc, out, 2),
    }
}

#[tactic(auto, unfolding(crate::specs::Confirmation::bottom_text))]
fn put_bottom(alloc: Global, out: &mut Vec<u8>, bottom: &Bottom) -> Result<(), AllocError>
    ensures { Appends (bottom_text bottom.now) out.old out.new result }
{
    match bottom {
        Bottom::Empty => put_u8(alloc, out, 0),
        Bottom::Other { key, value } => {
            put_u8(alloc, out, 1)?;
            put_bytes(alloc, out, key)?;
            put_bytes(alloc, out, value)
        }
    }
}

/// The steps behind their count.
fn put_path(alloc: Global, out: &mut Vec<u8>, path: &PathSteps) -> Result<(), AllocError>
    ensures { Appends (path_text path.now) out.old out.new result }
{
    let bytes = path.as_slice();
    put_u16(alloc, out, (bytes.len() / 32) as u16)?;
    put_bytes(alloc, out, bytes)
}

/// What the table has for the name, and the path.
#[tactic(auto, unfolding(crate::specs::Confirmation::body_text))]
pub(crate) fn put_body(alloc: Global, out: &mut Vec<u8>, body: &Body) -> Result<(), AllocError>
    ensures { Appends (body_text (shown_in body.now)
        ++ path_text (path_in body.now)) out.old out.new result }
{
    match body {
        Body::Present { cert, path } => {
            cert.write_counted(alloc, out)?;
            put_path(alloc, out, path)
        }
        Body::Absent { bottom, path } => {
            put_bottom(alloc, out, bottom)?;
            put_path(alloc, out, path)
        }
    }
}

/// A party's number and its signature.
pub(crate) fn put_signed(
    alloc: Global,
    out: &mut Vec<u8>,
    number: u16,
    signature: &Signature,
) -> Result<(), AllocError>
    ensures { Appends (signed_text (signed_in number signature.now)) out.old out.new result }
{
    put_u16(alloc, out, number)?;
    put_signature(alloc, out, signature)
}

/// What a confirmation is about.
#[tactic(auto, unfolding(crate::specs::Confirmation::subject_text))]
pub(crate) fn put_subject(
    alloc: Global,
    out: &mut Vec<u8>,
    client: u16,
    epoch: u64,
    name: &Name,
    root: &[u8; 32],
) -> Result<(), AllocError>
    ensures { Appends (subject_text (record {
      client = client;
      epoch = epoch;
      name = name.now;
      root = root.now;
    })) out.old out.new result }
{
    put_u16(alloc, out, client)?;
    put_u64(alloc, out, epoch)?;
    put_name(alloc, out, name)?;
    put_bytes(alloc, out, root)
}

/// A base, and what the table has for the name, with the path.
fn put_shown(
    alloc: Global,
    out: &mut Vec<u8>,
    base: &[u8; 32],
    body: &Body,
) -> Result<(), AllocError>
    ensures { Appends (base.now
        ++ (body_text (shown_in body.now) ++ path_text (path_in body.now))) out.old out.new result }
{
    put_bytes(alloc, out, base)?;
    put_body(alloc, out, body)
}

/// What is confirmed.
fn put_confirmed(alloc: Global, out: &mut Vec<u8>, part: &Confirming) -> Result<(), AllocError>
    ensures { Appends (confirmed_text part.now) out.old out.new result }
{
    put_form(alloc, out, &part.body)?;
    put_subject(alloc, out, part.client, part.epoch, &part.name, &part.root)?;
    put_shown(alloc, out, &part.base, &part.body)
}

/// What vouches for it, and who is asked to confirm it too.
fn put_vouched(alloc: Global, out: &mut Vec<u8>, part: &Confirming) -> Result<(), AllocError>
    ensures { Appends (vouched_text part.now) out.old out.new result }
{
    put_votes(alloc, out, &part.votes)?;
    put_signed(alloc, out, part.log, &part.signature)?;
    put_numbers(alloc, out, part.first, part.second)
}

/// What two kinds share.
#[tactic(auto, unfolding(crate::specs::Messages::confirming_text))]
pub(crate) fn put_confirming(
    alloc: Global,
    out: &mut Vec<u8>,
    part: &Confirming,
) -> Result<(), AllocError>
    ensures { Appends (confirming_text part.now) out.old out.new result }
{
    put_confirmed(alloc, out, part)?;
    put_vouched(alloc, out, part)
}
