//! The row of StatusNote: a status is counted by the log whose turn is the next epoch.

ghost use Rattle.std.specs.Prelude.{◌≡◌, ◌<◌, IfOk, Some};
ghost use Rattle.ar_base.specs.Gives.{GivesUnless};
ghost use Rattle.ar_cert.specs.Changes.{IsSignature};
ghost use Rattle.epoch_log.specs.Calls.{after_status_seen};
ghost use Rattle.log_sending.specs.Closings.{closing_drafts};
ghost use Rattle.log_sending.specs.Sending.{none_composed, with_drafts};
ghost use Rattle.log_core.specs.Stated.{status_judged, status_row};
ghost use Rattle.log_core.specs.Steps.{IsStep};
ghost use Rattle.log_sending.specs.declared.refusal.LogRefusal.TheVariants as refusals;

use crate::LogRefusal;
use crate::log_core::LogCore;
use crate::verifying::has_signed;
use ar_council::status_statement;
use ar_message::{Signature, Unsigned};
use ar_statement::optional_value_told;
use log_sending::{DraftMessages, Ready, add_closing, close, in_epoch, in_turn};
use std::alloc::{AllocError, Global};
use vote_quorum::Value;

impl LogCore {
    /// The checks of a StatusNote, in their order.
    #[tactic(auto, unfolding(crate::specs::Stated::status_judged))]
    fn judge_status(
        &self,
        alloc: Global,
        log: u16,
        epoch: u64,
        value: &Option<Value>,
        signature: &[u8],
    ) -> Result<(), LogRefusal>
        ensures { GivesUnless refusals.Memory (λ u.
            u) result (status_judged self.now log epoch value.now signature.now) }
    {
        let statement = status_statement(log, epoch, value);
        has_signed(alloc, self.log.directory(), &statement, signature)?;
        in_epoch(&self.log, epoch)?;
        self.log.told();
        in_turn(
            self.log.directory(),
            self.log.epoch() + 1,
            self.log.number(),
        )
    }

    /// What tells how the epoch ends with this status, where it does.
    fn status_drafts(
        &self,
        alloc: Global,
        log: u16,
        value: &Option<Value>,
        signature: &[u8],
    ) -> Result<Ready<'static>, AllocError>
        requires log { log < self.now.log.council.logs }
        requires signature { IsSignature signature.now }
        ensures { IfOk result (λ ready.
            ready ≡ with_drafts none_composed
            (closing_drafts (after_status_seen self.now.log log value.now
            (Some signature.now)).1
            self.now.signature_len self.now.log
            (after_status_seen self.now.log log value.now (Some signature.now)).0)) }
    {
        optional_value_told(value);
        let mut drafts: DraftMessages<'static> = DraftMessages::new(alloc);
        let foreseen = self.log.foresee_status(alloc, log, value, signature)?;
        add_closing(alloc, &self.log, self.signature_len, foreseen, &mut drafts)?;
        drafts.ready(alloc)
    }

    /// Takes a status: it is seen, and counted where it is the log's first, and the epoch may end with it.
    pub(crate) fn status_note(
        &mut self,
        alloc: Global,
        log: u16,
        epoch: u64,
        value: Option<Value>,
        signature: &Signature,
    ) -> Result<Unsigned, LogRefusal>
        ensures { IsStep result self.old self.new
            (status_row self.old log epoch value signature.now) }
    {
        optional_value_told(&value);
        let signature = signature.as_slice();
        match self.judge_status(alloc, log, epoch, &value, signature) {
            Ok(()) => {}
            Err(refusal) => return Err(refusal),
        }
        let ready = self.status_drafts(alloc, log, &value, signature)?;
        match self.log.status_seen(alloc, log, value, signature) {
            Ok(closing) => Ok(close(&self.log, &mut self.queue, ready, epoch, closing)),
            Err(_) => {
                ready.discard();
                Err(LogRefusal::Memory)
            }
        }
    }
}
