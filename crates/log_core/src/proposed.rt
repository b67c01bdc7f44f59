//! The row of Propose: the log votes for another log's proposal.

ghost use Rattle.std.specs.Prelude.{◌≡◌, ◌∷◌, [], All, IfOk, OnOk, Some};
ghost use Rattle.ar_base.specs.Gives.{GivesUnless};
ghost use Rattle.ar_cert.specs.Changes.{IsChange};
ghost use Rattle.ar_message.specs.Lists.{AreChanges};
ghost use Rattle.domain_table.specs.Applying.{apply};
ghost use Rattle.epoch_log.specs.State.{epoch_of, table_of};
ghost use Rattle.ar_base.specs.FirstFailing.{first_error};
ghost use Rattle.log_core.specs.Proposed.{ballot_draft, proposal_signers, proposed_checks, proposed_judged, proposed_row, voting_checks};
ghost use Rattle.log_sending.specs.Checks.{not_stated, not_voted};
ghost use Rattle.log_sending.specs.Sending.{none_composed, with_draft};
ghost use Rattle.log_sending.specs.Signers.{signers};
ghost use Rattle.log_core.specs.Steps.{IsStep};
ghost use Rattle.log_sending.specs.declared.refusal.LogRefusal.TheVariants as refusals;

use crate::LogRefusal;
use crate::log_core::LogCore;
use ar_cert::Change;
use ar_council::{propose_statement, vote_statement};
use ar_message::{Address, Message, Signature, Unsigned};
use ar_statement::{Role, value_told};
use domain_table::Table;
use key_roll::forgo;
use log_sending::{
    DraftMessages, Ready, Signers, book_refusal, in_epoch, in_turn, leads, leaf_left, not_stated,
    not_voted, turn_of,
};
use std::alloc::{AllocError, Global};
use vote_quorum::Value;

impl LogCore {
    /// That the proposer and the endorsers have signed.
    fn have_signed_proposal(
        &self,
        alloc: Global,
        log: u16,
        epoch: u64,
        value: &Value,
        changes: &[Change],
        signature: &[u8],
    ) -> Result<(), LogRefusal>
        requires { All IsChange changes.now }
        ensures { GivesUnless refusals.Memory (λ unit. unit) result
            (signers self.now.keys
            (proposal_signers (record {
              log = log;
              epoch = epoch;
              value = value.now;
              changes = changes.now;
              signature = signature.now;
            }))) }
    {
        let mut front = Signers::new(alloc);
        front.add(&propose_statement(log, epoch, value), signature)?;
        self.have_signed(front, changes)
    }

    /// That the log has neither voted in the epoch nor told its status.
    fn has_done_nothing(&self) -> Result<(), LogRefusal>
        ensures { result ≡ first_error (not_voted self.now.log ∷ not_stated self.now.log ∷ []) }
    {
        self.told();
        not_voted(&self.log)?;
        not_stated(&self.log)
    }

    /// That the log has done nothing in the epoch, that it may vote for this value, and that it has a leaf for the vote. It
    /// gives the table to which the changes lead.
    fn may_vote(
        &self,
        alloc: Global,
        value: &Value,
        changes: &[Change],
    ) -> Result<Table, LogRefusal>
        requires { All IsChange changes.now }
        ensures checked { GivesUnless refusals.Memory (λ _.
            tt) result (first_error (voting_checks self.now.log value.now changes.now)) }
        ensures table { IfOk result (λ table. apply (table_of self.now.log)
            (epoch_of self.now.log) changes.now ≡ Some table) }
    {
        self.has_done_nothing()?;
        let table = leads(alloc, &self.log, &self.queue, value, changes)?;
        let statement = vote_statement(self.log.number(), self.log.epoch(), value);
        leaf_left(&self.log.record().signed, &statement).and(Ok(table))
    }

    /// The checks of a proposal, in their order, and the table to which its changes lead.
    fn check_proposal(
        &self,
        alloc: Global,
        log: u16,
        epoch: u64,
        value: &Value,
        changes: &[Change],
        signature: &[u8],
    ) -> Result<Table, LogRefusal>
        requires { All IsChange changes.now }
        ensures checked { GivesUnless refusals.Memory (λ _. tt) result
            (first_error (proposed_checks self.now
            (record {
              log = log;
              epoch = epoch;
              value = value.now;
              changes = changes.now;
              signature = signature.now;
            }))) }
        ensures table { IfOk result (λ table. apply (table_of self.now.log)
            (epoch_of self.now.log) changes.now ≡ Some table) }
    {
        self.told();
        self.have_signed_proposal(alloc, log, epoch, value, changes, signature)?;
        in_epoch(&self.log, epoch)?;
        in_turn(self.log.directory(), self.log.epoch(), log)?;
        self.may_vote(alloc, value, changes)
    }

    /// Adds the ballot, which goes to the log whose turn it is.
    fn add_ballot(
        &self,
        alloc: Global,
        drafts: &mut DraftMessages<'static>,
        value: &Value,
    ) -> Result<(), AllocError>
        ensures { OnOk result
            (drafts.new ≡ with_draft drafts.old (ballot_draft self.now value.now)) }
    {
        self.told();
        let epoch = self.log.epoch();
        let number = self.log.number();
        let turn = turn_of(self.log.directory(), epoch);
        let signature = Signature::zeros(alloc, self.signature_len)?;
        let ballot = Message::Ballot {
            log: number,
            epoch,
            base: value.base,
            root: value.root,
            signature,
        };
        drafts.add(
            alloc,
            Address::One(Role::LogServer.party(turn)),
            &ballot,
            self.signature_len,
            0,
            vote_statement(number, epoch, value),
        )
    }

    /// The ballot alone.
    fn ballot_ready(&self, alloc: Global, value: &Value) -> Result<Ready<'static>, AllocError>
        ensures { IfOk result (λ ready.
            ready ≡ with_draft none_composed (ballot_draft self.now value.now)) }
    {
        let mut drafts: DraftMessages<'static> = DraftMessages::new(alloc);
        self.add_ballot(alloc, &mut drafts, value)?;
        drafts.ready(alloc)
    }

    /// What is sent for a proposal, where no check refuses it, and the table to which its changes lead.
    #[tactic(auto, unfolding(crate::specs::Proposed::proposed_judged))]
    fn judge_proposal(
        &self,
        alloc: Global,
        log: u16,
        epoch: u64,
        value: &Value,
        changes: &[Change],
        signature: &[u8],
    ) -> Result<(Ready<'static>, Table), LogRefusal>
        requires { All IsChange changes.now }
        ensures judged { GivesUnless refusals.Memory (λ made. made.0) result
            (proposed_judged self.now (record {
              log = log;
              epoch = epoch;
              value = value.now;
              changes = changes.now;
              signature = signature.now;
            })) }
        ensures table { IfOk result (λ made. apply (table_of self.now.log)
            (epoch_of self.now.log) changes.now ≡ Some made.1) }
    {
        let table = self.check_proposal(alloc, log, epoch, value, changes, signature)?;
        let ready = self.ballot_ready(alloc, value)?;
        Ok((ready, table))
    }

    /// Votes for another log's proposal; the ballot goes to the log whose turn it is.
    pub(crate) fn proposed(
        &mut self,
        alloc: Global,
        log: u16,
        epoch: u64,
        value: Value,
        changes: Vec<Change>,
        signature: &[u8],
    ) -> Result<Unsigned, LogRefusal>
        requires { AreChanges changes.items }
        ensures { IsStep result self.old self.new
            (proposed_row self.old (record {
              log = log;
              epoch = epoch;
              value = value;
              changes = changes.items;
              signature = signature.now;
            })) }
    {
        value_told(&value);
        let made = match self.judge_proposal(alloc, log, epoch, &value, &changes, signature) {
            Ok(made) => made,
            Err(refusal) => return Err(refusal),
        };
        let (ready, table) = made;
        match self
            .log
            .vote(alloc, log, value.base, changes, value.root, table)
        {
            Ok(due) => {
                forgo(due);
                Ok(ready.seal(&self.log, None))
            }
            Err(fault) => {
                ready.discard();
                Err(book_refusal(fault))
            }
        }
    }
}
