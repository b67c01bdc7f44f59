//! The lists of messages, read behind their counts. Want of memory is kept back until the whole list was found
//! in order, so that it hides no fault.

ghost use Rattle.std.specs.Prelude.{◌≡◌, ◌++◌, ◌∷◌, [], List, IfOk};
ghost use Rattle.ar_bytes.specs.Reading.{Tells};
ghost use Rattle.ar_cert.specs.Changes.{Change, IsSignature};
ghost use Rattle.ar_message.specs.Answers.{Finds};
ghost use Rattle.ar_message.specs.Lists.{changes_at, status_from, statuses_at, vote_from, votes_at};
ghost use Rattle.ar_message.specs.Views.{status_of, vote_of};

use crate::{Changes, LogStatus, Signature, Statuses, Vote, Votes};
use ar_bytes::{Fields, are_bytes};
use ar_cert::{Change, ChangeView};
use ar_statement::fields::optional_value;
use std::alloc::{AllocError, Global};
use vote_quorum::Value;

/// The most changes.
pub const MOST_CHANGES: u8 = 64;
/// The most votes or statuses.
const MOST_LOGS: u8 = 16;

/// A vote in place.
#[derive(Clone, Copy, Debug)]
pub(crate) struct VoteView<'a> {
    log: u16,
    signature: &'a [u8],
}

/// A status in place.
#[derive(Clone, Copy, Debug)]
pub(crate) struct StatusView<'a> {
    log: u16,
    value: Option<Value>,
    signature: &'a [u8],
}

// ---- changes

/// A list with one change more, unless memory was wanting already.
fn with_change(
    alloc: Global,
    list: Result<Vec<Change>, AllocError>,
    change: &ChangeView,
) -> Result<Vec<Change>, AllocError>
    ensures { (front : List Change) → IfOk list (λ l. l.items ≡ front)
        → IfOk result (λ l. l.items ≡ front ++ change.now ∷ []) }
{
    let mut list = list?;
    list.push(change.to_change(alloc)?)?;
    Ok(list)
}

/// At most 64 changes behind their count.
#[tactic(auto, using(ar_bytes::proofs::Lists::list_steps), unfolding(ar_bytes::specs::Lists::counted_list_at))]
fn changes(alloc: Global, fields: &mut Fields) -> Result<Result<Vec<Change>, AllocError>, usize>
    ensures { Finds (λ l. l.items) result fields.new (changes_at fields.old) }
{
    let count = fields.take_count(MOST_CHANGES)?;
    let mut list = Vec::with_capacity(alloc, count as usize);
    for _ in 0..count {
        let change = ChangeView::take(fields)?;
        list = with_change(alloc, list, &change);
    }
    Ok(list)
}

/// At most 64 changes behind their count.
pub(crate) fn take_changes(
    alloc: Global,
    fields: &mut Fields,
) -> Result<Result<Changes, AllocError>, usize>
    ensures { Finds (λ l. l) result fields.new (changes_at fields.old) }
{
    are_bytes(fields.left());
    let list = changes(alloc, fields)?;
    match list {
        Ok(list) => Ok(Ok(Changes { list })),
        Err(error) => Ok(Err(error)),
    }
}

// ---- votes

/// A vote of a log whose number is not below `least`.
#[tactic(auto, unfolding(crate::specs::Lists::vote_from))]
fn vote<'a>(fields: &mut Fields<'a>, least: u32) -> Result<VoteView<'a>, usize>
    ensures tells { Tells vote_of result fields.new (vote_from least fields.old) }
    ensures few { IfOk result (λ vote. IsSignature vote.signature.now) }
{
    let log = fields.take_number_from(least)?;
    let signature = fields.take_counted()?;
    Ok(VoteView { log, signature })
}

/// A list with one vote more, unless memory was wanting already.
fn with_vote(
    alloc: Global,
    list: Result<Vec<Vote>, AllocError>,
    vote: &VoteView,
) -> Result<Vec<Vote>, AllocError>
    requires { IsSignature vote.now.signature.now }
    ensures { (front : List Vote) → IfOk list (λ l. l.items ≡ front)
        → IfOk result (λ l. l.items ≡ front ++ vote_of vote.now ∷ []) }
{
    let mut list = list?;
    let signature = Signature::of(alloc, vote.signature)?;
    list.push(Vote {
        log: vote.log,
        signature,
    })?;
    Ok(list)
}

/// At most 16 votes behind their count.
#[tactic(auto, using(ar_bytes::proofs::Ascending::list_steps), unfolding(ar_bytes::specs::Lists::counted_list_at))]
fn votes(alloc: Global, fields: &mut Fields) -> Result<Result<Vec<Vote>, AllocError>, usize>
    ensures { Finds (λ l. l.items) result fields.new (votes_at fields.old) }
{
    let count = fields.take_count(MOST_LOGS)?;
    let mut list = Vec::with_capacity(alloc, count as usize);
    let mut least = 0;
    for _ in 0..count {
        let next = vote(fields, least)?;
        least = next.log as u32 + 1;
        list = with_vote(alloc, list, &next);
    }
    Ok(list)
}

/// At most 16 votes, of logs whose numbers ascend strictly, behind their count.
pub(crate) fn take_votes(
    alloc: Global,
    fields: &mut Fields,
) -> Result<Result<Votes, AllocError>, usize>
    ensures { Finds (λ l. l) result fields.new (votes_at fields.old) }
{
    are_bytes(fields.left());
    let list = votes(alloc, fields)?;
    match list {
        Ok(list) => Ok(Ok(Votes { list })),
        Err(error) => Ok(Err(error)),
    }
}

// ---- statuses

/// A status of a log whose number is not below `least`.
#[tactic(auto, unfolding(crate::specs::Lists::status_from))]
fn status<'a>(fields: &mut Fields<'a>, least: u32) -> Result<StatusView<'a>, usize>
    ensures tells { Tells status_of result fields.new (status_from least fields.old) }
    ensures few { IfOk result (λ status. IsSignature status.signature.now) }
{
    let log = fields.take_number_from(least)?;
    let value = optional_value(fields)?;
    let signature = fields.take_counted()?;
    Ok(StatusView {
        log,
        value,
        signature,
    })
}

/// A list with one status more, unless memory was wanting already.
fn with_status(
    alloc: Global,
    list: Result<Vec<LogStatus>, AllocError>,
    status: &StatusView,
) -> Result<Vec<LogStatus>, AllocError>
    requires { IsSignature status.now.signature.now }
    ensures { (front : List LogStatus) → IfOk list (λ l. l.items ≡ front)
        → IfOk result (λ l. l.items ≡ front ++ status_of status.now ∷ []) }
{
    let mut list = list?;
    let signature = Signature::of(alloc, status.signature)?;
    list.push(LogStatus {
        log: status.log,
        value: status.value,
        signature,
    })?;
    Ok(list)
}

/// At most 16 statuses behind their count.
#[tactic(auto, using(ar_bytes::proofs::Ascending::list_steps), unfolding(ar_bytes::specs::Lists::counted_list_at))]
fn statuses(alloc: Global, fields: &mut Fields) -> Result<Result<Vec<LogStatus>, AllocError>, usize>
    ensures { Finds (λ l. l.items) result fields.new (statuses_at fields.old) }
{
    let count = fields.take_count(MOST_LOGS)?;
    let mut list = Vec::with_capacity(alloc, count as usize);
    let mut least = 0;
    for _ in 0..count {
        let next = status(fields, least)?;
        least = next.log as u32 + 1;
        list = with_status(alloc, list, &next);
    }
    Ok(list)
}

/// At most 16 statuses, of logs whose numbers ascend strictly, behind their count.
pub(crate) fn take_statuses(
    alloc: Global,
    fields: &mut Fields,
) -> Result<Result<Statuses, AllocError>, usize>
    ensures { Finds (λ l. l) result fields.new (statuses_at fields.old) }
{
    are_bytes(fields.left());
    let list = statuses(alloc, fields)?;
    match list {
        Ok(list) => Ok(Ok(Statuses { list })),
        Err(error) => Ok(Err(error)),
    }
}
