//! What would become of the epoch, told before the step that may end it is made.
ghost use Rattle.std.specs.Prelude.{◌≡◌, ◌≢◌, ◌<◌, ℕ, List, Option, None, Some, All, IfOk, IfSome, IsSome};
ghost use Rattle.std.specs.Option.{option_map};
ghost use Rattle.ar_statement.specs.Ranges.{IsValue};
ghost use Rattle.vote_quorum.specs.Statuses.{AreStatuses};
ghost use Rattle.epoch_log.specs.Calls.{after_ballot, after_propose, after_state, after_status_seen, own_value, stating, vote_of, with_status, with_vote};
ghost use Rattle.epoch_log.specs.Foreseeing.{IsForeseen, foretold, newest_by};
ghost use Rattle.epoch_log.specs.Log.{IsLog, state_in};
ghost use Rattle.epoch_log.specs.Plans.{verdict_at};
ghost use Rattle.epoch_log.specs.State.{ballots_of, epoch_of, reports_of};
ghost use Rattle.epoch_log.specs.declared.foreseeing.Foreseen.TheVariants as foreseen;

use crate::closing::{Verdict, verdict_on};
use crate::copying::{counted_copies, statuses_with, votes_with};
use crate::counting::{ballots, ballots_with, reports, reports_with};
use crate::finishing::{own_vote, votes_for};
use crate::parts::{CountedVote, Parts};
use crate::{Newest, Voted};
use ar_base::Items;
use ar_cert::Change;
use ar_statement::fields::LAST_EPOCH;
use ar_statement::optional_value_told;
use domain_table::copy_changes;
use std::alloc::{AllocError, Global};
use vote_quorum::Value;

/// What would become of the epoch, with copies of what is then to be told.
#[derive(Debug, Drop)]
pub enum Foreseen {
    /// It would go on.
    Open,
    /// It would end as decided, by these changes of the own vote: the newest decision would be this one.
    Decided {
        changes: Items<Change>,
        newest: Newest,
    },
    /// It would end as skipped, by what these logs stated, each with its signature; `None` stands for the log's own
    /// status, which would be counted without one.
    Skipped(Items<(u16, Option<Value>, Option<Items<u8>>)>),
}

/// What a decision by a vote is foreseen as, with these ballots counted.
fn decided_by(
    alloc: Global,
    epoch: u64,
    vote: &Voted,
    counted: Vec<CountedVote>,
) -> Result<Foreseen, AllocError>
    ensures { IfOk result (λ f.
        f ≡ foreseen.Decided vote.now.changes (newest_by epoch vote.now counted.items)) }
{
    let changes = Items::from_vec(copy_changes(alloc, vote.changes.as_slice())?);
    let list = Vec::with_capacity(alloc, counted.len())?;
    let votes = Items::from_vec(votes_for(counted, &vote.value(), list));
    Ok(Foreseen::Decided {
        changes,
        newest: Newest {
            epoch,
            base: vote.base,
            root: vote.root,
            votes,
        },
    })
}

/// The same by the own vote, which there is.
fn decided_by_own(
    alloc: Global,
    epoch: u64,
    own: Option<&Voted>,
    counted: Vec<CountedVote>,
) -> Result<Foreseen, AllocError>
    requires { IsSome (option_map (λ v. v.now) own) }
    ensures { IfOk result (λ f.
        IfSome (option_map (λ v. v.now) own.entry) (λ v.
        f ≡ foreseen.Decided v.changes (newest_by epoch v counted.items))) }
{
    match own {
        Some(vote) => decided_by(alloc, epoch, vote, counted),
        None => unreachable!(),
    }
}

impl Parts {
    /// How the epoch would end by the own vote, with these ballots and statuses counted.
    fn verdict(
        &self,
        alloc: Global,
        own: Option<&Voted>,
        ballots: &[(u16, Value)],
        reports: &[(u16, Option<Value>)],
    ) -> Result<Verdict, AllocError>
        requires kept { IsLog self.now }
        requires statuses { AreStatuses (state_in self.now).council.logs reports.now }
        ensures { IfOk result (λ verdict.
            verdict ≡ verdict_at (epoch_of (state_in self.now)) (state_in self.now).council
            (option_map (λ v. v.now) own.entry) ballots.now reports.now) }
    {
        if self.epoch() >= LAST_EPOCH {
            return Ok(Verdict::Open);
        }
        verdict_on(alloc, &self.directory, own, ballots, reports)
    }

    /// How the epoch would end by the own vote, with one ballot more.
    fn verdict_with_ballot(
        &self,
        alloc: Global,
        own: Option<&Voted>,
        log: u16,
        value: &Value,
    ) -> Result<Verdict, AllocError>
        requires { IsLog self.now }
        ensures { IfOk result (λ verdict.
            (signature : Option (List ℕ))
            → verdict ≡ verdict_at (epoch_of (state_in self.now)) (state_in self.now).council
            (option_map (λ v. v.now) own.entry)
            (ballots_of (with_vote (state_in self.now).votes (log, value.now, signature)))
            (reports_of (state_in self.now).statuses)) }
    {
        let ballots = ballots_with(alloc, &self.votes, log, value)?;
        let reports = reports(alloc, &self.statuses)?;
        self.verdict(alloc, own, &ballots, &reports)
    }

    /// How the epoch would end by the own vote, with one status more.
    fn verdict_with_status(
        &self,
        alloc: Global,
        own: Option<&Voted>,
        log: u16,
        value: &Option<Value>,
    ) -> Result<Verdict, AllocError>
        requires kept { IsLog self.now }
        requires log { log < (state_in self.now).council.logs }
        requires value { IfSome value.now IsValue }
        ensures { IfOk result (λ verdict.
            (signature : Option (List ℕ))
            → verdict ≡ verdict_at (epoch_of (state_in self.now)) (state_in self.now).council
            (option_map (λ v. v.now) own.entry)
            (ballots_of (state_in self.now).votes)
            (reports_of (with_status (state_in self.now).statuses
            (log, value.now, signature)))) }
    {
        let ballots = ballots(alloc, &self.votes)?;
        let reports = reports_with(alloc, &self.statuses, log, value)?;
        self.verdict(alloc, own, &ballots, &reports)
    }

    /// What would become of the epoch by the own vote, with one ballot more.
    fn foresee_with_ballot(
        &self,
        alloc: Global,
        own: Option<&Voted>,
        log: u16,
        value: &Value,
        signature: Option<&[u8]>,
    ) -> Result<Foreseen, AllocError>
        requires { IsLog self.now }
        ensures { IfOk result (λ f.
            f ≡ foretold (state_in self.now).council (epoch_of (state_in self.now))
            (option_map (λ v. v.now) own.entry)
            (with_vote (state_in self.now).votes (
              log,
              value.now,
              option_map (λ s.
                  s.now) signature.entry,
            )) (state_in self.now).statuses) }
    {
        match self.verdict_with_ballot(alloc, own, log, value)? {
            Verdict::Open => Ok(Foreseen::Open),
            Verdict::Decided => {
                let counted = votes_with(alloc, &self.votes, log, value, signature)?;
                decided_by_own(alloc, self.epoch(), own, counted)
            }
            Verdict::Skipped => {
                let counted = counted_copies(alloc, &self.statuses)?;
                Ok(Foreseen::Skipped(Items::from_vec(counted)))
            }
        }
    }

    /// What would become of the epoch by the own vote, with one status more.
    fn foresee_with_status(
        &self,
        alloc: Global,
        own: Option<&Voted>,
        log: u16,
        value: &Option<Value>,
        signature: Option<&[u8]>,
    ) -> Result<Foreseen, AllocError>
        requires kept { IsLog self.now }
        requires log { log < (state_in self.now).council.logs }
        requires value { IfSome value.now IsValue }
        ensures { IfOk result (λ f.
            f ≡ foretold (state_in self.now).council (epoch_of (state_in self.now))
            (option_map (λ v. v.now) own.entry)
            (state_in self.now).votes
            (with_status (state_in self.now).statuses
            (log, value.now, option_map (λ s. s.now) signature.entry))) }
    {
        match self.verdict_with_status(alloc, own, log, value)? {
            Verdict::Open => Ok(Foreseen::Open),
            Verdict::Decided => {
                let counted = counted_copies(alloc, &self.votes)?;
                decided_by_own(alloc, self.epoch(), own, counted)
            }
            Verdict::Skipped => {
                let counted = statuses_with(alloc, &self.statuses, log, value, signature)?;
                Ok(Foreseen::Skipped(Items::from_vec(counted)))
            }
        }
    }

    /// `EpochLog::foresee_ballot`.
    pub(crate) fn foresee_ballot(
        &self,
        alloc: Global,
        log: u16,
        value: &Value,
        signature: &[u8],
    ) -> Result<Foreseen, AllocError>
        requires { IsLog self.now }
        ensures { IfOk result
            (IsForeseen (after_ballot (state_in self.now) log value.now signature.now)) }
    {
        let own = own_vote(&self.past.voted, self.epoch());
        self.foresee_with_ballot(alloc, own, log, value, Some(signature))
    }

    /// `EpochLog::foresee_status`.
    pub(crate) fn foresee_status(
        &self,
        alloc: Global,
        log: u16,
        value: &Option<Value>,
        signature: &[u8],
    ) -> Result<Foreseen, AllocError>
        requires kept { IsLog self.now }
        requires log { log < (state_in self.now).council.logs }
        ensures { IfOk result
            (IsForeseen (after_status_seen (state_in self.now) log value.now
            (Some signature.now))) }
    {
        optional_value_told(value);
        let own = own_vote(&self.past.voted, self.epoch());
        self.foresee_with_status(alloc, own, log, value, Some(signature))
    }

    /// What the log's own status would make of the epoch, where it is counted.
    fn foresee_own_status(&self, alloc: Global) -> Result<Foreseen, AllocError>
        requires kept { IsLog self.now }
        requires log { (state_in self.now).me < (state_in self.now).council.logs }
        ensures { IfOk result
            (IsForeseen (after_status_seen (stating (state_in self.now)) (state_in self.now).me
            (own_value (state_in self.now)) None)) }
    {
        let value = self.own_value();
        optional_value_told(&value);
        let own = own_vote(&self.past.voted, self.epoch());
        self.foresee_with_status(alloc, own, self.number, &value, None)
    }

    /// `EpochLog::foresee_state`.
    pub(crate) fn foresee_state(&self, alloc: Global) -> Result<Foreseen, AllocError>
        requires { IsLog self.now }
        ensures { IfOk result (IsForeseen (after_state (state_in self.now))) }
    {
        if self.is_turn(self.epoch() + 1) {
            return self.foresee_own_status(alloc);
        }
        Ok(Foreseen::Open)
    }

    /// The vote for a value by copies of these changes, as the log would cast it.
    fn vote_copy(
        &self,
        alloc: Global,
        value: &Value,
        changes: &[Change],
    ) -> Result<Voted, AllocError>
        requires { IsLog self.now }
        ensures { IfOk result (λ vote. vote ≡ vote_of (state_in self.now) value.now changes.now) }
    {
        Ok(Voted {
            epoch: self.epoch(),
            base: value.base,
            changes: Items::from_vec(copy_changes(alloc, changes)?),
            root: value.root,
        })
    }

    /// `EpochLog::foresee_propose`.
    pub(crate) fn foresee_propose(
        &self,
        alloc: Global,
        value: &Value,
        changes: &[Change],
    ) -> Result<Foreseen, AllocError>
        requires kept { IsLog self.now }
        requires not_voted { All (λ v.
            v.epoch ≢ epoch_of (state_in self.now)) (state_in self.now).past.voted }
        ensures { IfOk result
            (IsForeseen (after_propose (state_in self.now) value.now changes.now)) }
    {
        let vote = self.vote_copy(alloc, value, changes)?;
        self.foresee_with_ballot(alloc, Some(&vote), self.number, value, None)
    }
}
