//! The row of the order to pass: the log states what it did in the epoch.

ghost use Rattle.std.specs.Prelude.{◌≡◌, ◌++◌, Err, IfErr, IfOk, OnOk};
ghost use Rattle.ar_statement.specs.Claims.{claim_of, text_of};
ghost use Rattle.epoch_log.specs.Calls.{after_state, own_status_text};
ghost use Rattle.log_sending.specs.Closings.{closing_drafts};
ghost use Rattle.log_core.specs.Passing.{passing_judged, passing_row, status_draft, status_drafts};
ghost use Rattle.log_sending.specs.Sending.{none_composed, with_draft, with_drafts};
ghost use Rattle.log_core.specs.Steps.{IsStep};

use crate::LogRefusal;
use crate::log_core::LogCore;
use ar_council::status_statement;
use ar_message::{Address, Message, Signature, Unsigned};
use ar_statement::{Role, Statement};
use epoch_log::EpochLog;
use key_roll::forgo;
use log_sending::{DraftMessages, Ready, add_closing, close, leaf_left, not_stated, turn_of};
use std::alloc::{AllocError, Global};

/// The log's own status.
fn own_status(log: &EpochLog) -> Statement<'static>
    ensures { text_of (claim_of result) ≡ own_status_text log.now.state }
{
    status_statement(log.number(), log.epoch(), &log.own_value())
}

impl LogCore {
    /// The checks of the order to pass.
    #[tactic(auto, unfolding(crate::specs::Passing::passing_judged))]
    fn judge_pass(&self) -> Result<(), LogRefusal>
        ensures { result ≡ passing_judged self.now }
    {
        not_stated(&self.log)?;
        leaf_left(&self.log.record().signed, &own_status(&self.log))
    }

    /// The status, which goes to the log whose turn is the next epoch.
    fn add_status(
        &self,
        alloc: Global,
        drafts: &mut DraftMessages<'static>,
    ) -> Result<(), AllocError>
        ensures { OnOk result (drafts.new ≡ with_draft drafts.old (status_draft self.now)) }
    {
        self.log.told();
        let next = turn_of(self.log.directory(), self.log.epoch() + 1);
        let note = Message::StatusNote {
            log: self.log.number(),
            epoch: self.log.epoch(),
            value: self.log.own_value(),
            signature: Signature::zeros(alloc, self.signature_len)?,
        };
        drafts.add(
            alloc,
            Address::One(Role::LogServer.party(next)),
            &note,
            self.signature_len,
            0,
            own_status(&self.log),
        )
    }

    /// The same, unless the log counts the statuses itself.
    fn add_status_unless_counted(
        &self,
        alloc: Global,
        drafts: &mut DraftMessages<'static>,
    ) -> Result<(), AllocError>
        ensures { OnOk result (drafts.new ≡ with_drafts drafts.old (status_drafts self.now)) }
    {
        if self.log.is_turn(self.log.epoch() + 1) {
            return Ok(());
        }
        self.add_status(alloc, drafts)
    }

    /// The status, and what tells how the epoch ends with it, where it does.
    fn passing_drafts(&self, alloc: Global) -> Result<Ready<'static>, AllocError>
        ensures { IfOk result (λ ready. ready ≡ with_drafts none_composed (status_drafts self.now
            ++ closing_drafts (after_state self.now.log).1 self.now.signature_len self.now.log
            (after_state self.now.log).0)) }
    {
        let mut drafts: DraftMessages<'static> = DraftMessages::new(alloc);
        self.add_status_unless_counted(alloc, &mut drafts)?;
        let foreseen = self.log.foresee_state(alloc)?;
        add_closing(alloc, &self.log, self.signature_len, foreseen, &mut drafts)?;
        drafts.ready(alloc)
    }

    /// States what the log did in the epoch. Where it counts the statuses itself, the epoch may end with its own.
    pub(crate) fn pass(&mut self, alloc: Global) -> Result<Unsigned, LogRefusal>
        ensures row { IsStep result self.old self.new (passing_row self.old) }
        ensures refused { IfErr (passing_judged self.old) (λ why. result ≡ Err why) }
    {
        match self.judge_pass() {
            Ok(()) => {}
            Err(refusal) => return Err(refusal),
        }
        let ready = self.passing_drafts(alloc)?;
        let epoch = self.log.epoch();
        match self.log.state(alloc) {
            Ok((due, closing)) => {
                forgo(due);
                Ok(close(&self.log, &mut self.queue, ready, epoch, closing))
            }
            // There is a leaf, so the fault is want of memory.
            Err(_) => {
                ready.discard();
                Err(LogRefusal::Memory)
            }
        }
    }
}
