//! The log's own proposal.
ghost use Rattle.std.specs.Prelude.{◌≡◌, None, Ok, Err, Some, All, IfErr, IfOk, IsOk, OnOk, OnErr};
ghost use Rattle.ar_base.specs.Gives.{GivesOrWants};
ghost use Rattle.ar_council.specs.Room.{HasRoom};
ghost use Rattle.ar_statement.specs.Claims.{text_of};
ghost use Rattle.ar_statement.specs.declared.fault.BookFault.TheVariants as book_fault;
ghost use Rattle.domain_table.specs.Applying.{apply};
ghost use Rattle.epoch_log.specs.Answers.{first_entered, proposed};
ghost use Rattle.epoch_log.specs.Calls.{IsTurn, MayVote, after_propose, own_vote_text, proposal_texts, propose_claim, with_vote, IsOpenTo};
ghost use Rattle.epoch_log.specs.Log.{IsLog, moved, parts_of, state_in};
ghost use Rattle.epoch_log.specs.Plans.{IsPlan};
ghost use Rattle.epoch_log.specs.Right.{SawEndorsements};
ghost use Rattle.epoch_log.specs.State.{ballots_of, epoch_of, reports_of, table_of};
ghost use Rattle.epoch_log.specs.Taking.{CanSignProposal, SignsProposal};
ghost use Rattle.epoch_log.specs.Told.{value_of};

use crate::closing::{Plan, plan_for};
use crate::counting::{ballots_with, reports};
use crate::parts::Parts;
use crate::signing::{leaves_for, sign};
use crate::statements::changes_told;
use crate::{Closing, Voted};
use ar_base::Items;
use ar_cert::Change;
use ar_council::{propose_statement, vote_statement};
use ar_statement::value_told;
use domain_table::Table;
use key_roll::{BookFault, RollDue, forgo};
use std::alloc::{AllocError, Global};
use vote_quorum::Value;

impl Parts {
    /// That there are leaves for the proposal and the own vote, if they need them; it is `Spent` exactly where there are
    /// not.
    fn proposal_leaves(&self, value: &Value) -> Result<(), BookFault>
        requires { IsLog self.now }
        ensures room { OnOk result
            (HasRoom (state_in self.now).past.signed
            (proposal_texts (state_in self.now) value.now)) }
        ensures some { OnOk result
            (IsOk (first_entered (state_in self.now).past.signed
            (text_of (propose_claim (state_in self.now) value.now))
            (own_vote_text (state_in self.now) value.now))) }
        ensures none { IfErr result (λ fault.
            first_entered (state_in self.now).past.signed
            (text_of (propose_claim (state_in self.now) value.now))
            (own_vote_text (state_in self.now) value.now) ≡ Err fault) }
    {
        let epoch = self.epoch();
        let proposal = propose_statement(self.number, epoch, value);
        let vote = vote_statement(self.number, epoch, value);
        leaves_for(&self.past.signed, &proposal, &vote)
    }

    /// How the epoch is to end where this vote is the log's own, by this table, and is counted.
    fn plan_with_own(&self, alloc: Global, vote: &Voted, tried: &Table) -> Result<Plan, AllocError>
        requires { IsLog self.now }
        ensures { IfOk result
            (IsPlan (state_in self.now).council (epoch_of (state_in self.now))
            (Some vote.now) (Some tried.now)
            (ballots_of (with_vote (state_in self.now).votes
            ((state_in self.now).me, value_of vote.now, None)))
            (reports_of (state_in self.now).statuses)) }
    {
        let value = vote.value();
        let ballots = ballots_with(alloc, &self.votes, self.number, &value)?;
        let reports = reports(alloc, &self.statuses)?;
        plan_for(
            alloc,
            &self.directory,
            self.epoch(),
            Some(vote),
            Some(tried),
            &ballots,
            reports,
        )
    }

    /// Signs the proposal and then the own vote, and tells of the vote and of the table that was tried for it. There is room
    /// for them, and leaves.
    fn put_proposal(&mut self, alloc: Global, vote: Voted, tried: Table) -> RollDue
        requires { CanSignProposal self.old vote }
        ensures { SignsProposal self.old self.new vote tried result }
    {
        let value = vote.value();
        let proposal = propose_statement(self.number, vote.epoch, &value);
        let statement = vote_statement(self.number, vote.epoch, &value);
        let due = sign(alloc, &mut self.past.signed, &proposal);
        forgo(sign(alloc, &mut self.past.signed, &statement));
        self.past.voted.push_reserved(vote);
        self.tables.tried = Some(tried);
        due
    }

    /// The same, which keeps what is kept.
    fn take_proposal(&mut self, alloc: Global, vote: Voted, tried: Table) -> RollDue
        requires kept { IsLog self.old }
        requires may { MayVote (state_in self.old) (value_of vote) vote.changes }
        requires tried { apply (table_of (state_in self.old))
            (epoch_of (state_in self.old)) vote.changes ≡ Some tried }
        requires endorsed { All (SawEndorsements (state_in self.old).past.seen) vote.changes }
        requires can { CanSignProposal self.old vote }
        ensures signed { SignsProposal self.old self.new vote tried result }
        ensures kept { IsLog self.new }
    {
        self.put_proposal(alloc, vote, tried)
    }

    /// Signs, sees and counts as `propose` does, once the statements have their leaves.
    fn propose_with(
        &mut self,
        alloc: Global,
        value: Value,
        changes: Vec<Change>,
        tried: Table,
    ) -> Result<(RollDue, Closing), AllocError>
        requires kept { IsLog self.old }
        requires turn { IsTurn (state_in self.old).council (state_in self.old).me
            (epoch_of (state_in self.old)) }
        requires may { MayVote (state_in self.old) value changes.items }
        requires tried { apply (table_of (state_in self.old))
            (epoch_of (state_in self.old)) changes.items ≡ Some tried }
        requires endorsed { All (SawEndorsements (state_in self.old).past.seen) changes.items }
        requires leaves { HasRoom (state_in self.old).past.signed
            (proposal_texts (state_in self.old) value) }
        ensures answer { IfOk result (λ r.
            proposed (state_in self.old) value changes.items ≡ Ok r) }
        ensures ok { OnOk result
            (parts_of self.new ≡ moved (parts_of self.old)
            (after_propose (state_in self.old) value changes.items).0) }
        ensures err { OnErr result (parts_of self.new ≡ parts_of self.old) }
        ensures kept { IsLog self.new }
    {
        let number = self.number;
        let Value { base, root } = value;
        let vote = Voted {
            epoch: self.epoch(),
            base,
            changes: Items::from_vec(changes),
            root,
        };
        let plan = self.plan_with_own(alloc, &vote, &tried)?;
        self.reserve(alloc, 1, 2)?;
        let due = self.take_proposal(alloc, vote, tried);
        self.take_ballot(number, value, None);
        Ok((due, self.finish(alloc, plan)))
    }

    /// `EpochLog::propose`.
    pub(crate) fn propose(
        &mut self,
        alloc: Global,
        value: Value,
        changes: Vec<Change>,
        tried: Table,
    ) -> Result<(RollDue, Closing), BookFault>
        requires kept { IsLog self.old }
        requires turn { IsTurn (state_in self.old).council (state_in self.old).me
            (epoch_of (state_in self.old)) }
        requires open { IsOpenTo (state_in self.old) value changes.items }
        requires tried { apply (table_of (state_in self.old))
            (epoch_of (state_in self.old)) changes.items ≡ Some tried }
        requires endorsed { All (SawEndorsements (state_in self.old).past.seen) changes.items }
        ensures answer { GivesOrWants book_fault.Memory (λ r.
            r) result (proposed (state_in self.old) value changes.items) }
        ensures ok { OnOk result
            (parts_of self.new ≡ moved (parts_of self.old)
            (after_propose (state_in self.old) value changes.items).0) }
        ensures err { OnErr result (parts_of self.new ≡ parts_of self.old) }
        ensures kept { IsLog self.new }
    {
        value_told(&value);
        changes_told(&changes);
        self.proposal_leaves(&value)?;
        match self.propose_with(alloc, value, changes, tried) {
            Ok(answer) => Ok(answer),
            Err(_) => Err(BookFault::Memory),
        }
    }
}
