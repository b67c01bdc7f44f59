//! Whether an epoch ends with what is counted, and what its end takes, before anything changes.
ghost use Rattle.std.specs.Prelude.{◌≡◌, nat_le, length, map, filter, Some, IfOk, IfSome, IsSome};
ghost use Rattle.std.specs.Option.{option_map};
ghost use Rattle.ar_council.specs.Council.{council_of};
ghost use Rattle.vote_quorum.specs.Ballots.{is_same, log_count};
ghost use Rattle.vote_quorum.specs.Statuses.{AreStatuses};
ghost use Rattle.epoch_log.specs.Ending.{backs, excludes_all};
ghost use Rattle.epoch_log.specs.Plans.{IsDecision, IsOwnDecision, IsPlan, verdict_of};

use crate::Voted;
use crate::ending::Decision;
use ar_statement::fields::LAST_EPOCH;
use domain_table::{Table, copy_changes};
use party_keys::Directory;
use std::alloc::{AllocError, Global};
use vote_quorum::{Value, distinct_count, excluded};

/// How an epoch ends.
#[derive(Clone, Copy)]
pub(crate) enum Verdict {
    Open,
    Decided,
    Skipped,
}

/// How an epoch is to end, with all memory that this takes. A decision has a list for the votes, with room for all that are
/// counted.
#[derive(Drop)]
pub(crate) enum Plan {
    Open,
    Decided(Decision),
    Skipped(Vec<(u16, Option<Value>)>),
}

/// The logs that have a ballot for the value.
fn logs_for(alloc: Global, ballots: &[(u16, Value)], value: &Value) -> Result<Vec<u16>, AllocError>
    ensures { IfOk result (λ logs.
        logs.items ≡ map (λ b. b.0) (filter (λ b. is_same b.1 value.now) ballots.now)) }
{
    ballots
        .iter()
        .filter(|b| b.1 == *value)
        .map(|b| b.0)
        .collect(alloc)
}

/// Whether ballots of at least `quorum` logs are for the value.
fn has_quorum(
    alloc: Global,
    quorum: usize,
    ballots: &[(u16, Value)],
    value: &Value,
) -> Result<bool, AllocError>
    ensures { IfOk result (λ enough. enough ≡ nat_le quorum (log_count ballots.now value.now)) }
{
    let logs = logs_for(alloc, ballots, value)?;
    Ok(quorum <= distinct_count(&logs))
}

/// Whether the ballots are a quorum for the own vote.
fn backs(
    alloc: Global,
    quorum: usize,
    ballots: &[(u16, Value)],
    own: Option<&Voted>,
) -> Result<bool, AllocError>
    ensures { IfOk result (λ enough.
        enough ≡ backs quorum ballots.now (option_map (λ v. v.now) own.entry)) }
{
    match own {
        Some(vote) => has_quorum(alloc, quorum, ballots, &vote.value()),
        None => Ok(false),
    }
}

/// Whether the statuses exclude each root.
fn excludes(directory: &Directory, reports: &[(u16, Option<Value>)]) -> bool
    requires { AreStatuses (length directory.now.logs) reports.now }
    ensures { result ≡ excludes_all (council_of directory.now) reports.now }
{
    excluded(directory.logs(), directory.quorum(), reports).is_ok()
}

/// How the epoch ends, by the own vote, the counted ballots and the counted statuses.
pub(crate) fn verdict_on(
    alloc: Global,
    directory: &Directory,
    own: Option<&Voted>,
    ballots: &[(u16, Value)],
    reports: &[(u16, Option<Value>)],
) -> Result<Verdict, AllocError>
    requires { AreStatuses (length directory.now.logs) reports.now }
    ensures { IfOk result (λ verdict.
        verdict ≡ verdict_of (council_of directory.now) (option_map (λ v.
        v.now) own.entry) ballots.now reports.now) }
{
    if backs(alloc, directory.quorum(), ballots, own)? {
        return Ok(Verdict::Decided);
    }
    if excludes(directory, reports) {
        return Ok(Verdict::Skipped);
    }
    Ok(Verdict::Open)
}

/// What the decision of a vote takes, by the table that was tried for it, with room for so many votes.
fn decision_of(
    alloc: Global,
    vote: &Voted,
    tried: &Table,
    room: usize,
) -> Result<Decision, AllocError>
    ensures { IfOk result (IsDecision vote.now (Some tried.now) room) }
{
    Ok(Decision {
        changes: copy_changes(alloc, vote.changes.as_slice())?,
        value: vote.value(),
        table: tried.copy(alloc)?,
        votes: Vec::with_capacity(alloc, room)?,
    })
}

/// What the decision of the own vote takes.
fn own_decision(
    alloc: Global,
    own: Option<&Voted>,
    tried: Option<&Table>,
    room: usize,
) -> Result<Decision, AllocError>
    requires vote { IsSome (option_map (λ v. v.now) own) }
    requires table { IsSome (option_map (λ t. t.now) tried) }
    ensures { IfOk result
        (IsOwnDecision (option_map (λ v. v.now) own.entry)
        (option_map (λ t. t.now) tried.entry) room) }
{
    let (Some(vote), Some(table)) = (own, tried) else {
        unreachable!()
    };
    decision_of(alloc, vote, table, room)
}

/// How the epoch is to end, by what will be counted. A table was tried for the own vote.
pub(crate) fn plan_for(
    alloc: Global,
    directory: &Directory,
    epoch: u64,
    own: Option<&Voted>,
    tried: Option<&Table>,
    ballots: &[(u16, Value)],
    reports: Vec<(u16, Option<Value>)>,
) -> Result<Plan, AllocError>
    requires statuses { AreStatuses (length directory.now.logs) reports.items }
    requires tried { IfSome (option_map (λ v. v.now) own) (λ _.
        IsSome (option_map (λ t. t.now) tried)) }
    ensures { IfOk result
        (IsPlan (council_of directory.now) epoch
        (option_map (λ v. v.now) own.entry)
        (option_map (λ t. t.now) tried.entry) ballots.now reports.items) }
{
    if epoch >= LAST_EPOCH {
        return Ok(Plan::Open);
    }
    match verdict_on(alloc, directory, own, ballots, &reports)? {
        Verdict::Open => Ok(Plan::Open),
        Verdict::Skipped => Ok(Plan::Skipped(reports)),
        Verdict::Decided => {
            let decision = own_decision(alloc, own, tried, ballots.len())?;
            Ok(Plan::Decided(decision))
        }
    }
}
