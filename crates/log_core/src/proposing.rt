//! The row of the order to propose: the log proposes what it walked over, and counts its own vote at once.

ghost use Rattle.std.specs.Prelude.{◌≡◌, ◌∷◌, ◌<◌, ◌^◌, Ok, Err, Some, IfOk, IfErr, OnOk};
ghost use Rattle.ar_base.specs.Gives.{GivesUnless};
ghost use Rattle.ar_message.specs.Lists.{AreChanges};
ghost use Rattle.ar_message.specs.declared.address.Address.TheVariants.{Logs};
ghost use Rattle.ar_message.specs.declared.message.Message.TheVariants.{Propose};
ghost use Rattle.ar_message.specs.Filling.{zeros};
ghost use Rattle.ar_statement.specs.Claims.{propose, text_of};
ghost use Rattle.domain_table.specs.Applying.{apply};
ghost use Rattle.epoch_log.specs.Calls.{after_propose, proposal_texts};
ghost use Rattle.epoch_log.specs.State.{epoch_of, table_of};
ghost use Rattle.log_sending.specs.Checks.{leaves_left};
ghost use Rattle.log_sending.specs.Closings.{closing_drafts};
ghost use Rattle.log_core.specs.Proposing.{proposal, proposal_draft, proposed_value, proposing_judged, proposing_row, turn_judged};
ghost use Rattle.log_sending.specs.Sending.{draft_with, none_composed, with_draft, with_drafts};
ghost use Rattle.log_core.specs.Steps.{IsStep};
ghost use Rattle.log_sending.specs.declared.refusal.LogRefusal.TheVariants as refusals;

use crate::LogRefusal;
use crate::log_core::LogCore;
use ar_cert::Change;
use ar_council::{propose_statement, vote_statement};
use ar_message::{Address, Changes, Message, Signature, Unsigned};
use domain_table::copy_changes;
use key_roll::forgo;
use log_sending::{
    DraftMessages, Ready, Walked, add_closing, close, in_turn, leaves_left, not_stated, not_voted,
    walk,
};
use std::alloc::{AllocError, Global};
use vote_quorum::Value;

/// The changes of a proposal, in memory of their own.
fn copied(alloc: Global, changes: &[Change]) -> Result<Changes, AllocError>
    requires { AreChanges changes.now }
    ensures { IfOk result (λ copies. copies ≡ changes.now) }
{
    let list = copy_changes(alloc, changes)?;
    Ok(Changes { list })
}

/// Adds a log's proposal with these changes and this signature, which goes to all logs.
fn add_signed(
    alloc: Global,
    drafts: &mut DraftMessages<'static>,
    log: u16,
    epoch: u64,
    value: &Value,
    changes: Changes,
    signature: Signature,
    signature_len: usize,
) -> Result<(), AllocError>
    requires { signature_len < 2 ^ 16 }
    ensures { OnOk result
        (drafts.new ≡ with_draft drafts.old
        (draft_with Logs (Propose log epoch value.now.base value.now.root changes signature)
        signature_len 0 (text_of (propose log epoch value.now.base value.now.root)))) }
{
    let message = Message::Propose {
        log,
        epoch,
        base: value.base,
        root: value.root,
        changes,
        signature,
    };
    let statement = propose_statement(log, epoch, value);
    drafts.add(alloc, Address::Logs, &message, signature_len, 0, statement)
}

/// Adds a log's proposal, with zero bytes in place of its signature.
fn add_proposal(
    alloc: Global,
    drafts: &mut DraftMessages<'static>,
    log: u16,
    epoch: u64,
    value: &Value,
    changes: &[Change],
    signature_len: usize,
) -> Result<(), AllocError>
    requires changes { AreChanges changes.now }
    requires len { signature_len < 2 ^ 16 }
    ensures { OnOk result
        (drafts.new ≡ with_draft drafts.old
        (draft_with Logs (Propose log epoch value.now.base value.now.root changes.now
        (zeros signature_len))
        signature_len 0 (text_of (propose log epoch value.now.base value.now.root)))) }
{
    let signature = Signature::zeros(alloc, signature_len)?;
    let changes = copied(alloc, changes)?;
    add_signed(
        alloc,
        drafts,
        log,
        epoch,
        value,
        changes,
        signature,
        signature_len,
    )
}

impl LogCore {
    /// The changes that the log proposes, and to which root they lead.
    fn walk(&self, alloc: Global) -> Result<Walked, AllocError>
        ensures changes { IfOk result (λ w. w.changes.items ≡ proposal self.now) }
        ensures value { IfOk result (λ w. w.value ≡ proposed_value self.now) }
        ensures table { IfOk result (λ w. apply (table_of self.now.log)
            (epoch_of self.now.log) w.changes.items ≡ Some w.table) }
    {
        self.log.told();
        walk(alloc, self.log.epoch(), self.log.table(), &self.queue)
    }

    /// That it is the log's turn, and that it has not voted and stated nothing in the epoch.
    #[tactic(auto, unfolding(crate::specs::Proposing::turn_judged))]
    fn judge_turn(&self) -> Result<(), LogRefusal>
        ensures { result ≡ turn_judged self.now }
    {
        self.log.told();
        in_turn(self.log.directory(), self.log.epoch(), self.log.number())?;
        not_voted(&self.log)?;
        not_stated(&self.log)
    }

    /// That there are leaves for a proposal and the own vote.
    fn judge_leaves(&self, value: &Value) -> Result<(), LogRefusal>
        ensures { result ≡ leaves_left self.now.log.past.signed
            (proposal_texts self.now.log value.now) }
    {
        let log = self.log.number();
        let epoch = self.log.epoch();
        leaves_left(
            &self.log.record().signed,
            &propose_statement(log, epoch, value),
            &vote_statement(log, epoch, value),
        )
    }

    /// What the log walked over, where there are leaves for it.
    fn judge_walked(&self, walked: Walked) -> Result<Walked, LogRefusal>
        requires turn { turn_judged self.now ≡ Ok tt }
        requires value { walked.value ≡ proposed_value self.now }
        requires changes { walked.changes.items ≡ proposal self.now }
        ensures judged { GivesUnless refusals.Memory (λ w.
            (w.value, w.changes.items)) result (proposing_judged self.now) }
        ensures same { IfOk result (λ w. w ≡ walked) }
    {
        match self.judge_leaves(&walked.value) {
            Ok(()) => Ok(walked),
            Err(refusal) => Err(refusal),
        }
    }

    /// The checks of the order to propose, in their order, and what the log proposes.
    fn judge_order(&self, alloc: Global) -> Result<Walked, LogRefusal>
        ensures judged { GivesUnless refusals.Memory (λ w.
            (w.value, w.changes.items)) result (proposing_judged self.now) }
        ensures table { IfOk result (λ w. apply (table_of self.now.log)
            (epoch_of self.now.log) w.changes.items ≡ Some w.table) }
        ensures refused { IfErr (turn_judged self.now) (λ why. result ≡ Err why) }
    {
        match self.judge_turn() {
            Ok(()) => {}
            Err(refusal) => return Err(refusal),
        }
        match self.walk(alloc) {
            Ok(walked) => self.judge_walked(walked),
            Err(_) => Err(LogRefusal::Memory),
        }
    }

    /// The proposal, and what tells how the epoch ends with the own vote, where it does.
    fn proposing_drafts(
        &self,
        alloc: Global,
        value: &Value,
        changes: &[Change],
    ) -> Result<Ready<'static>, AllocError>
        requires { proposing_judged self.now ≡ Ok (value.now, changes.now) }
        ensures { IfOk result (λ ready.
            ready ≡ with_drafts none_composed (proposal_draft self.now value.now changes.now
            ∷ closing_drafts (after_propose self.now.log value.now changes.now).1
            self.now.signature_len self.now.log
            (after_propose self.now.log value.now changes.now).0)) }
    {
        let mut drafts: DraftMessages<'static> = DraftMessages::new(alloc);
        add_proposal(
            alloc,
            &mut drafts,
            self.log.number(),
            self.log.epoch(),
            value,
            changes,
            self.signature_len,
        )?;
        let foreseen = self.log.foresee_propose(alloc, value, changes)?;
        add_closing(alloc, &self.log, self.signature_len, foreseen, &mut drafts)?;
        drafts.ready(alloc)
    }

    /// Makes the proposal, once all is composed that it sends. There are leaves for it.
    fn make_proposal(
        &mut self,
        alloc: Global,
        walked: Walked,
        ready: Ready<'static>,
    ) -> Result<Unsigned, LogRefusal>
        requires judged { proposing_judged self.old ≡ Ok (walked.value, walked.changes.items) }
        requires table { apply (table_of self.old.log)
            (epoch_of self.old.log) walked.changes.items ≡ Some walked.table }
        requires ready { ready ≡ with_drafts none_composed
            (proposal_draft self.old walked.value walked.changes.items
            ∷ closing_drafts (after_propose self.old.log walked.value walked.changes.items).1
            self.old.signature_len self.old.log
            (after_propose self.old.log walked.value walked.changes.items).0) }
        ensures { IsStep result self.old self.new (proposing_row self.old) }
    {
        let epoch = self.log.epoch();
        let Walked {
            changes,
            value,
            table,
        } = walked;
        match self
            .log
            .propose(alloc, value.base, changes, value.root, table)
        {
            Ok((due, closing)) => {
                forgo(due);
                Ok(close(&self.log, &mut self.queue, ready, epoch, closing))
            }
            Err(_) => {
                ready.discard();
                Err(LogRefusal::Memory)
            }
        }
    }

    /// Composes and makes the proposal of what the log walked over.
    fn propose_walked(&mut self, alloc: Global, walked: Walked) -> Result<Unsigned, LogRefusal>
        requires judged { proposing_judged self.old ≡ Ok (walked.value, walked.changes.items) }
        requires table { apply (table_of self.old.log)
            (epoch_of self.old.log) walked.changes.items ≡ Some walked.table }
        ensures { IsStep result self.old self.new (proposing_row self.old) }
    {
        match self.proposing_drafts(alloc, &walked.value, &walked.changes) {
            Ok(ready) => self.make_proposal(alloc, walked, ready),
            Err(_) => Err(LogRefusal::Memory),
        }
    }

    /// Proposes, in the log's turn, the changes of its queue that a walk takes. The epoch may end with its own vote.
    pub(crate) fn propose(&mut self, alloc: Global) -> Result<Unsigned, LogRefusal>
        ensures row { IsStep result self.old self.new (proposing_row self.old) }
        ensures refused { IfErr (turn_judged self.old) (λ why. result ≡ Err why) }
    {
        match self.judge_order(alloc) {
            Ok(walked) => self.propose_walked(alloc, walked),
            Err(refusal) => Err(refusal),
        }
    }
}
