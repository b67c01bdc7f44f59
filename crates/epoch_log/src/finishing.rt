//! An epoch ends as it is planned, by the closing rule.
ghost use Rattle.std.specs.Prelude.{◌≡◌, ◌≤◌, ◌<◌, [], IfOk, length, vec_len, vec_capacity};
ghost use Rattle.std.specs.Option.{option_map};
ghost use Rattle.vote_quorum.specs.Statuses.{AreStatuses};
ghost use Rattle.epoch_log.specs.Ending.{closed, decided, own_table, own_vote, votes_for};
ghost use Rattle.epoch_log.specs.Log.{IsLog, moved, parts_of, state_in, untried};
ghost use Rattle.epoch_log.specs.Plans.{IsPlan, IsPlanIn};
ghost use Rattle.epoch_log.specs.State.{epoch_of};
ghost use Rattle.epoch_log.specs.Told.{value_of};

use crate::closing::{Plan, plan_for};
use crate::ending::Decision;
use crate::parts::{CountedVote, Parts};
use crate::{Closing, Voted};
use ar_base::Items;
use std::alloc::{AllocError, Global};
use std::mem;
use vote_quorum::Value;

/// The own vote of an epoch, if there is one, among what a log voted.
pub fn own_vote(voted: &[Voted], epoch: u64) -> Option<&Voted>
    ensures { option_map (λ v. v.now) result ≡ own_vote voted.now epoch }
{
    voted.iter().find(|v| v.epoch == epoch)
}

/// What the own vote of an epoch is for.
pub(crate) fn own_value(voted: &[Voted], epoch: u64) -> Option<Value>
    ensures { result ≡ option_map value_of (own_vote voted.now epoch) }
{
    match own_vote(voted, epoch) {
        Some(vote) => Some(vote.value()),
        None => None,
    }
}

/// The counted ballots for a value, as logs with their signatures, in a list that has room for them.
pub(crate) fn votes_for(
    counted: Vec<CountedVote>,
    value: &Value,
    mut votes: Vec<(u16, Option<Items<u8>>)>,
) -> Vec<(u16, Option<Items<u8>>)>
    requires none { votes.items ≡ [] }
    requires room { length counted.items ≤ vec_capacity votes }
    ensures { result.items ≡ votes_for counted.items value.now }
{
    for (log, cast, signature) in counted {
        if cast == *value {
            votes.push_reserved((log, signature));
        }
    }
    votes
}

impl Parts {
    /// How the epoch is to end with these ballots and statuses, by the own vote.
    pub(crate) fn plan(
        &self,
        alloc: Global,
        ballots: &[(u16, Value)],
        reports: Vec<(u16, Option<Value>)>,
    ) -> Result<Plan, AllocError>
        requires kept { IsLog self.now }
        requires statuses { AreStatuses (state_in self.now).council.logs reports.items }
        ensures { IfOk result
            (IsPlan (state_in self.now).council (epoch_of (state_in self.now))
            (own_vote (state_in self.now).past.voted (epoch_of (state_in self.now)))
            (own_table (state_in self.now)) ballots.now reports.items) }
    {
        let epoch = self.epoch();
        plan_for(
            alloc,
            &self.directory,
            epoch,
            own_vote(&self.past.voted, epoch),
            self.tables.tried.as_ref(),
            ballots,
            reports,
        )
    }

    /// Ends the epoch as decided, by the counted ballots for the value.
    fn finish_decided(&mut self, alloc: Global, epoch: u64, decision: Decision)
        requires epoch { epoch ≡ epoch_of (state_in self.old) }
        requires room { vec_len self.old.past.ended < vec_capacity self.old.past.ended }
        requires none { decision.votes.items ≡ [] }
        requires votes { length self.old.votes.items ≤ vec_capacity decision.votes }
        ensures parts { parts_of self.new
            ≡ moved (parts_of self.old)
            (decided (state_in self.old) decision.changes.items decision.value
            (votes_for self.old.votes.items decision.value)) }
        ensures tables { self.new.tables ≡ untried decision.table }
    {
        let counted = mem::replace(&mut self.votes, Vec::new(alloc));
        let Decision {
            changes,
            value,
            table,
            votes,
        } = decision;
        let votes = votes_for(counted, &value, votes);
        self.end_decided(
            alloc,
            epoch,
            Decision {
                changes,
                value,
                table,
                votes,
            },
        );
    }

    /// Ends the epoch as it is planned, by the closing rule.
    pub(crate) fn finish(&mut self, alloc: Global, plan: Plan) -> Closing
        requires kept { IsLog self.old }
        requires room { vec_len self.old.past.ended < vec_capacity self.old.past.ended }
        requires plan { IsPlanIn (state_in self.old) plan }
        ensures answer { result ≡ (closed (state_in self.old)).1 }
        ensures parts { parts_of self.new
            ≡ moved (parts_of self.old) (closed (state_in self.old)).0 }
        ensures kept { IsLog self.new }
    {
        let epoch = self.epoch();
        match plan {
            Plan::Open => Closing::Open,
            Plan::Decided(decision) => {
                self.finish_decided(alloc, epoch, decision);
                Closing::Decided
            }
            Plan::Skipped(statuses) => {
                Closing::Skipped(self.end_skipped(alloc, epoch, statuses))
            }
        }
    }
}
