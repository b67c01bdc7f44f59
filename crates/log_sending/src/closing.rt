//! What follows where a step ends the epoch: what tells it to all logs, which is composed before the step, and what the log
//! keeps of its queue behind it.

ghost use Rattle.std.specs.Prelude.{◌≡◌, ◌<◌, Result, filter, IfOk, OnOk};
ghost use Rattle.std.specs.Result.{is_ok};
ghost use Rattle.ar_message.specs.Lists.{AreChanges, AreLogStatuses, AreVotes};
ghost use Rattle.ar_message.specs.Messages.{message_text};
ghost use Rattle.ar_message.specs.declared.message.Message.TheVariants.{Decision};
ghost use Rattle.cert_policy.specs.declared.manner.Manner.{Manner};
ghost use Rattle.domain_table.specs.Applying.{answer_of, judge};
ghost use Rattle.domain_table.specs.declared.refusal.ChangeRefusal.{ChangeRefusal};
ghost use Rattle.epoch_log.specs.Calls.{own_status_text, own_vote_text};
ghost use Rattle.epoch_log.specs.Foreseeing.{IsForeseen};
ghost use Rattle.epoch_log.specs.State.{LogState, epoch_of, newest_value};
ghost use Rattle.epoch_log.specs.declared.entries.Closing.{Closing};
ghost use Rattle.log_sending.specs.Closings.{closing_drafts, decision_draft, decision_of, ended_by, queue_after, skip_draft, skip_of};
ghost use Rattle.log_sending.specs.Sendable.{CanBeTold};
ghost use Rattle.log_sending.specs.Sending.{sealed, sent_statuses, sent_votes, with_draft, with_drafts};

use crate::own_places::{CountedStatus, own_statuses, own_votes, sent_statuses, sent_votes};
use crate::sending::{DraftMessages, Ready};
use ar_base::Items;
use ar_cert::Change;
use ar_message::{Address, Changes, Message, Unsigned, Votes};
use domain_table::{ChangeRefusal, Table};
use epoch_log::{Closing, EpochLog, Foreseen, Newest};
use std::alloc::{AllocError, Global};

// ---- before the step

/// A decision with these votes.
fn decision(changes: Items<Change>, newest: &Newest, votes: Votes) -> Message
    requires { AreChanges changes }
    ensures { result ≡ Decision newest.now.epoch newest.now.base newest.now.root changes votes }
{
    Message::Decision {
        epoch: newest.epoch,
        base: newest.base,
        root: newest.root,
        changes: Changes {
            list: changes.into_vec(),
        },
        votes,
    }
}

/// The bytes of a decision.
fn decision_bytes(
    alloc: Global,
    len: usize,
    changes: Items<Change>,
    newest: &Newest,
) -> Result<Vec<u8>, AllocError>
    requires changes { AreChanges changes }
    requires votes { AreVotes (sent_votes len newest.now.votes) }
    ensures { IfOk result (λ bytes.
        bytes.items ≡ message_text (decision_of len newest.now changes)) }
{
    match sent_votes(alloc, len, newest.votes.as_slice()) {
        Ok(votes) => decision(changes, newest, votes).text(alloc),
        Err(error) => Err(error),
    }
}

/// Adds a decision of the current epoch, with all votes that are kept of it.
fn add_decision(
    alloc: Global,
    log: &EpochLog,
    len: usize,
    changes: Items<Change>,
    newest: &Newest,
    drafts: &mut DraftMessages<'static>,
) -> Result<(), AllocError>
    requires changes { AreChanges changes }
    requires votes { AreVotes (sent_votes len newest.now.votes) }
    ensures { OnOk result
        (drafts.new ≡ with_draft drafts.old
        (decision_draft len (own_vote_text log.now.state
        (newest_value newest.now)) newest.now changes)) }
{
    let bytes = decision_bytes(alloc, len, changes, newest)?;
    let value = newest.value();
    let own = own_votes(
        alloc,
        len,
        log.number(),
        log.epoch(),
        &value,
        bytes.len(),
        newest.votes.as_slice(),
    )?;
    drafts.add_written(Address::Logs, bytes, own)
}

/// The bytes of a skip.
fn skip_bytes(
    alloc: Global,
    len: usize,
    epoch: u64,
    statuses: &[CountedStatus],
) -> Result<Vec<u8>, AllocError>
    requires { AreLogStatuses (sent_statuses len statuses.now) }
    ensures { IfOk result (λ bytes. bytes.items ≡ message_text (skip_of len epoch statuses.now)) }
{
    match sent_statuses(alloc, len, statuses) {
        Ok(statuses) => Message::SkipNote { epoch, statuses }.text(alloc),
        Err(error) => Err(error),
    }
}

/// Adds a skip of the current epoch, with all statuses that were counted.
fn add_skip(
    alloc: Global,
    log: &EpochLog,
    len: usize,
    statuses: &[CountedStatus],
    drafts: &mut DraftMessages<'static>,
) -> Result<(), AllocError>
    requires { AreLogStatuses (sent_statuses len statuses.now) }
    ensures { OnOk result
        (drafts.new ≡ with_draft drafts.old
        (skip_draft len (own_status_text log.now.state)
        (epoch_of log.now.state) statuses.now)) }
{
    let bytes = skip_bytes(alloc, len, log.epoch(), statuses)?;
    let own = own_statuses(
        alloc,
        len,
        log.number(),
        log.epoch(),
        &log.own_value(),
        bytes.len(),
        statuses,
    )?;
    drafts.add_written(Address::Logs, bytes, own)
}

/// Adds what tells to all logs how a step of this log ends the epoch, where it does, by what is foreseen of it.
pub fn add_closing(
    alloc: Global,
    log: &EpochLog,
    len: usize,
    foreseen: Foreseen,
    drafts: &mut DraftMessages<'static>,
) -> Result<(), AllocError>
    requires { CanBeTold len foreseen }
    ensures { (step : LogState × Closing) → IsForeseen step foreseen
        → OnOk result (drafts.new
        ≡ with_drafts drafts.old (closing_drafts step.1 len log.now.state step.0)) }
{
    match foreseen {
        Foreseen::Open => Ok(()),
        Foreseen::Decided { changes, newest } => {
            add_decision(alloc, log, len, changes, &newest, drafts)
        }
        Foreseen::Skipped(statuses) => add_skip(alloc, log, len, statuses.as_slice(), drafts),
    }
}

// ---- behind it

/// Whether a change is taken, by how it is judged.
fn is_taken(judged: Result<(), ChangeRefusal>) -> bool
    ensures { (manner : Result Manner ChangeRefusal) → judged ≡ answer_of manner
        → result ≡ is_ok manner }
{
    match judged {
        Ok(()) => true,
        Err(_) => false,
    }
}

/// Whether a change is accepted on a table in an epoch.
fn is_wanted(table: &Table, epoch: u64, change: &Change) -> bool
    ensures { result ≡ is_ok (judge table.now epoch change.now) }
{
    is_taken(table.judge(epoch, change))
}

/// Keeps of a queue what is accepted on the table of the epoch that begins, each change judged alone.
pub fn keep_wanted(table: &Table, epoch: u64, queue: &mut Vec<Change>)
    ensures { queue.new.items ≡ filter (λ change.
        is_ok (judge table.now epoch change)) queue.old.items }
{
    queue.retain(|change| is_wanted(table, epoch, change));
}

/// What a step leaves of the queue, by how it closed the epoch.
fn keep_queue(log: &EpochLog, closing: &Closing, queue: &mut Vec<Change>)
    ensures { queue.new.items ≡ queue_after closing.now log.now.state queue.old.items }
{
    match closing {
        Closing::Decided => keep_wanted(log.table(), log.epoch(), queue),
        Closing::Open | Closing::Skipped(_) => {}
    }
}

/// The epoch that ended, with the root that was decided.
fn ended(log: &EpochLog, epoch: u64, closing: &Closing) -> Option<(u64, Option<[u8; 32]>)>
    ensures { result ≡ ended_by closing.now epoch log.now.state.newest }
{
    match closing {
        Closing::Open => None,
        Closing::Decided => match log.newest() {
            Some(newest) => Some((epoch, Some(newest.root))),
            None => None,
        },
        Closing::Skipped(_) => Some((epoch, None)),
    }
}

/// Ends a step that was made in this epoch: what it leaves of the queue, and what it sends.
pub fn close(
    log: &EpochLog,
    queue: &mut Vec<Change>,
    ready: Ready,
    epoch: u64,
    closing: Closing,
) -> Unsigned
    ensures queue { queue.new.items ≡ queue_after closing log.now.state queue.old.items }
    ensures sent { result ≡ sealed log.now.state.past.signed ready.entry
        (ended_by closing epoch log.now.state.newest) }
{
    keep_queue(log, &closing, queue);
    ready.seal(log, ended(log, epoch, &closing))
}
