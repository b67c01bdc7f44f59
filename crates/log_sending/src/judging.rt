//! What is checked of a proposal and of a decision: where their changes lead.

ghost use Rattle.std.specs.Prelude.{◌≡◌, ◌+◌, ◌^◌, ◌≤◌, All, IfOk, IfSome, Some, length};
ghost use Rattle.std.specs.Option.{option_map};
ghost use Rattle.ar_base.specs.Gives.{GivesUnless};
ghost use Rattle.ar_cert.specs.Changes.{IsChange};
ghost use Rattle.domain_table.specs.Applying.{apply, judge, ripen};
ghost use Rattle.domain_table.specs.Sound.{IsSound};
ghost use Rattle.ar_base.specs.FirstFailing.{first_error};
ghost use Rattle.epoch_log.specs.State.{epoch_of, table_of};
ghost use Rattle.log_sending.specs.Judged.{judged, judged_from};
ghost use Rattle.log_sending.specs.Leading.{leading_checks, table_behind, table_in};
ghost use Rattle.log_sending.specs.declared.refusal.LogRefusal.TheVariants as refusals;

use crate::LogRefusal;
use crate::checks::same_base;
use crate::queued::{are_same, recall_queued};
use ar_cert::Change;
use domain_table::{ApplyFault, Table};
use epoch_log::{EpochLog, own_vote};
use std::alloc::Global;
use vote_quorum::Value;

/// Takes a copy of the change with this index, unless the table refuses it. What was found of the handover of an equal
/// change that is queued is not verified again.
fn take_one(
    alloc: Global,
    epoch: u64,
    table: &mut Table,
    queue: &[Change],
    index: usize,
    change: &Change,
) -> Result<(), LogRefusal>
    ensures { GivesUnless refusals.Memory (λ _. table.new) result
        (table_behind (judge table.old epoch change.now) index
        (ripen table.old epoch) epoch change.now) }
{
    let mut copied = change.copy(alloc)?;
    recall_queued(queue, &mut copied);
    match table.apply(alloc, epoch, copied) {
        Ok(()) => Ok(()),
        Err((_, ApplyFault::Change(refusal))) => Err(LogRefusal::BadChange(index, refusal)),
        Err((_, ApplyFault::Memory)) => Err(LogRefusal::Memory),
    }
}

/// Takes copies of the changes, the first of which has this index, up to the first that is refused.
fn take_each(
    alloc: Global,
    epoch: u64,
    table: &mut Table,
    queue: &[Change],
    index: usize,
    changes: &[Change],
) -> Result<(), LogRefusal>
    requires sound { IsSound table.old }
    requires are { All IsChange changes.now }
    requires last { index + length changes.now ≤ 2 ^ 63 }
    ensures { GivesUnless refusals.Memory (λ _. ripen table.new epoch) result
        (table_in (judged_from index (ripen table.old epoch) epoch changes.now)) }
{
    match changes {
        [] => Ok(()),
        [change, rest @ ..] => match take_one(alloc, epoch, table, queue, index, change) {
            Ok(()) => take_each(alloc, epoch, table, queue, index + 1, rest),
            Err(refusal) => Err(refusal),
        },
    }
}

/// The table behind the changes, each judged on the table that those before it leave.
fn try_all(
    alloc: Global,
    table: &Table,
    epoch: u64,
    queue: &[Change],
    changes: &[Change],
) -> Result<Table, LogRefusal>
    requires sound { IsSound table.now }
    requires are { All IsChange changes.now }
    ensures { GivesUnless refusals.Memory (λ after.
        after) result (table_in (judged table.now epoch changes.now)) }
{
    let mut after = table.copy(alloc)?;
    take_each(alloc, epoch, &mut after, queue, 0, changes)?;
    after.ripen(alloc, epoch)?;
    Ok(after)
}

/// The table that the log tried for its own vote of the epoch, where these are the changes of the vote.
fn tried_for<'a>(log: &'a EpochLog, changes: &[Change]) -> Option<&'a Table>
    requires { All IsChange changes.now }
    ensures { IfSome (option_map (λ t. t.now) result) (λ table. apply (table_of log.now.state)
        (epoch_of log.now.state) changes.now ≡ Some table) }
{
    log.told();
    let Some(vote) = own_vote(&log.record().voted, log.epoch()) else {
        return None;
    };
    if are_same(vote.changes.as_slice(), changes) {
        log.tried()
    } else {
        None
    }
}

/// The table behind the changes: a copy of the one that the log tried for its own vote, where they are those of the vote.
fn table_for(
    alloc: Global,
    log: &EpochLog,
    queue: &[Change],
    changes: &[Change],
) -> Result<Table, LogRefusal>
    requires { All IsChange changes.now }
    ensures { GivesUnless refusals.Memory (λ after. after) result
        (table_in (judged (table_of log.now.state) (epoch_of log.now.state) changes.now)) }
{
    log.told();
    match tried_for(log, changes) {
        Some(tried) => Ok(tried.copy(alloc)?),
        None => try_all(alloc, log.table(), log.epoch(), queue, changes),
    }
}

/// That a value is for the log's base, that the log's table accepts each change behind those before it, and that they
/// lead to the value's root. It gives the table to which they lead. Where they are the changes of the log's own vote, it
/// verifies and hashes nothing anew; and nowhere a handover that an equal change of the queue was verified with, behind the same key.
pub fn leads(
    alloc: Global,
    log: &EpochLog,
    queue: &[Change],
    value: &Value,
    changes: &[Change],
) -> Result<Table, LogRefusal>
    requires { All IsChange changes.now }
    ensures checked { GivesUnless refusals.Memory (λ _.
        tt) result (first_error (leading_checks log.now.state value.now changes.now)) }
    ensures table { IfOk result (λ table. apply (table_of log.now.state)
        (epoch_of log.now.state) changes.now ≡ Some table) }
{
    same_base(log, &value.base)?;
    let table = table_for(alloc, log, queue, changes)?;
    let root = table.root();
    if root == value.root {
        Ok(table)
    } else {
        Err(LogRefusal::WrongRoot(root))
    }
}
