//! The row of Decision: the log ends its epoch as decided.

ghost use Rattle.std.specs.Prelude.{◌≡◌, All, IfOk, Some, if◌then◌else◌};
ghost use Rattle.ar_base.specs.Gives.{GivesUnless};
ghost use Rattle.ar_cert.specs.Changes.{IsChange};
ghost use Rattle.ar_message.specs.Lists.{AreChanges, AreVotes};
ghost use Rattle.domain_table.specs.Applying.{apply};
ghost use Rattle.epoch_log.specs.State.{epoch_of, table_of};
ghost use Rattle.epoch_log.specs.Telling.{votes_in};
ghost use Rattle.ar_base.specs.FirstFailing.{first_error};
ghost use Rattle.log_sending.specs.Closings.{still_wanted};
ghost use Rattle.log_core.specs.Decided.{decision_checks, decision_row, decision_signers, plain_votes};
ghost use Rattle.log_sending.specs.Signers.{signers};
ghost use Rattle.log_core.specs.Steps.{IsStep};
ghost use Rattle.log_sending.specs.declared.refusal.LogRefusal.TheVariants as refusals;

use crate::LogRefusal;
use crate::log_core::{LogCore, ended_epoch};
use ar_base::Items;
use ar_cert::Change;
use ar_message::{Unsigned, Vote};
use ar_statement::value_told;
use domain_table::Table;
use epoch_log::EpochLog;
use log_sending::{Signers, enough, in_epoch, keep_wanted, leads};
use std::alloc::{AllocError, Global};
use vote_quorum::Value;

/// The votes, as the log takes them.
fn plain_votes(alloc: Global, votes: Items<Vote>) -> Result<Vec<(u16, Vec<u8>)>, AllocError>
    ensures { IfOk result (λ list. votes_in list.items ≡ plain_votes votes) }
{
    let mut list = Vec::new(alloc);
    for vote in votes.into_vec() {
        list.push((vote.log, vote.signature.bytes))?;
    }
    Ok(list)
}

/// Keeps of the queue what is still wanted, where the epoch ended.
fn keep_if(ended: bool, log: &EpochLog, queue: &mut Vec<Change>)
    ensures { queue.new.items ≡ (if ended then still_wanted log.now.state queue.old.items
        else queue.old.items) }
{
    if ended {
        keep_wanted(log.table(), log.epoch(), queue);
    }
}

impl LogCore {
    /// That the logs that vote and the endorsers have signed.
    fn have_signed_decision(
        &self,
        alloc: Global,
        epoch: u64,
        value: &Value,
        changes: &[Change],
        votes: &[Vote],
    ) -> Result<(), LogRefusal>
        requires { All IsChange changes.now }
        ensures { GivesUnless refusals.Memory (λ unit. unit) result
            (signers self.now.keys
            (decision_signers (record {
              epoch = epoch;
              value = value.now;
              changes = changes.now;
              votes = votes.now;
            }))) }
    {
        let mut front = Signers::new(alloc);
        front.add_votes(epoch, value, votes)?;
        self.have_signed(front, changes)
    }

    /// The checks of a decision, in their order, and the table to which its changes lead.
    fn check_decision(
        &self,
        alloc: Global,
        epoch: u64,
        value: &Value,
        changes: &[Change],
        votes: &[Vote],
    ) -> Result<Table, LogRefusal>
        requires { All IsChange changes.now }
        ensures checked { GivesUnless refusals.Memory (λ _. tt) result
            (first_error (decision_checks self.now
            (record {
              epoch = epoch;
              value = value.now;
              changes = changes.now;
              votes = votes.now;
            }))) }
        ensures table { IfOk result (λ table. apply (table_of self.now.log)
            (epoch_of self.now.log) changes.now ≡ Some table) }
    {
        self.told();
        self.have_signed_decision(alloc, epoch, value, changes, votes)?;
        in_epoch(&self.log, epoch)?;
        let table = leads(alloc, &self.log, &self.queue, value, changes)?;
        enough(self.log.directory(), votes.len())?;
        Ok(table)
    }

    /// Ends the epoch as decided, as another log tells with the votes of a quorum; of the queue is kept what is still
    /// wanted. The last epoch that a statement can name does not end.
    pub(crate) fn decision(
        &mut self,
        alloc: Global,
        epoch: u64,
        value: Value,
        changes: Vec<Change>,
        votes: Items<Vote>,
    ) -> Result<Unsigned, LogRefusal>
        requires changes { AreChanges changes.items }
        requires votes { AreVotes votes }
        ensures { IsStep result self.old self.new
            (decision_row self.old (record {
              epoch = epoch;
              value = value;
              changes = changes.items;
              votes = votes;
            })) }
    {
        value_told(&value);
        let table = match self.check_decision(alloc, epoch, &value, &changes, votes.as_slice()) {
            Ok(table) => table,
            Err(refusal) => return Err(refusal),
        };
        let votes = plain_votes(alloc, votes)?;
        let decided = ended_epoch(&self.log, Some(value.root));
        self.log.decide(alloc, changes, value.root, table, votes)?;
        keep_if(decided.is_some(), &self.log, &mut self.queue);
        Ok(Unsigned::ended(alloc, decided))
    }
}
