//! The row of Ballot: a ballot is counted by the log whose turn it is.

ghost use Rattle.std.specs.Prelude.{◌≡◌, ◌<◌, IfOk, Ok};
ghost use Rattle.ar_base.specs.Gives.{GivesUnless};
ghost use Rattle.ar_cert.specs.Changes.{IsSignature};
ghost use Rattle.epoch_log.specs.Calls.{after_ballot};
ghost use Rattle.log_core.specs.Balloted.{ballot_judged, ballot_row};
ghost use Rattle.log_sending.specs.Closings.{closing_drafts};
ghost use Rattle.log_sending.specs.Sending.{none_composed, with_drafts};
ghost use Rattle.log_core.specs.Steps.{IsStep};
ghost use Rattle.log_sending.specs.declared.refusal.LogRefusal.TheVariants as refusals;

use crate::LogRefusal;
use crate::log_core::LogCore;
use crate::verifying::has_signed;
use ar_council::vote_statement;
use ar_message::{Signature, Unsigned};
use log_sending::{DraftMessages, Ready, add_closing, close, in_epoch, in_turn};
use std::alloc::{AllocError, Global};
use vote_quorum::Value;

impl LogCore {
    /// The checks of a Ballot, in their order.
    #[tactic(auto, unfolding(crate::specs::Balloted::ballot_judged))]
    fn judge_ballot(
        &self,
        alloc: Global,
        log: u16,
        epoch: u64,
        value: &Value,
        signature: &[u8],
    ) -> Result<(), LogRefusal>
        ensures { GivesUnless refusals.Memory (λ u.
            u) result (ballot_judged self.now log epoch value.now signature.now) }
    {
        let statement = vote_statement(log, epoch, value);
        has_signed(alloc, self.log.directory(), &statement, signature)?;
        in_epoch(&self.log, epoch)?;
        self.log.told();
        in_turn(self.log.directory(), self.log.epoch(), self.log.number())
    }

    /// What tells how the epoch ends with this ballot, where it does.
    fn ballot_drafts(
        &self,
        alloc: Global,
        log: u16,
        value: &Value,
        signature: &[u8],
    ) -> Result<Ready<'static>, AllocError>
        requires log { log < self.now.log.council.logs }
        requires signature { IsSignature signature.now }
        ensures { IfOk result (λ ready.
            ready ≡ with_drafts none_composed
            (closing_drafts (after_ballot self.now.log log value.now signature.now).1
            self.now.signature_len self.now.log
            (after_ballot self.now.log log value.now signature.now).0)) }
    {
        let mut drafts: DraftMessages<'static> = DraftMessages::new(alloc);
        let foreseen = self.log.foresee_ballot(alloc, log, value, signature)?;
        add_closing(alloc, &self.log, self.signature_len, foreseen, &mut drafts)?;
        drafts.ready(alloc)
    }

    /// Takes a ballot: it is seen and counted, and the epoch may end with it.
    pub(crate) fn ballot(
        &mut self,
        alloc: Global,
        log: u16,
        epoch: u64,
        value: Value,
        signature: &Signature,
    ) -> Result<Unsigned, LogRefusal>
        ensures { IsStep result self.old self.new
            (ballot_row self.old log epoch value signature.now) }
    {
        let signature = signature.as_slice();
        match self.judge_ballot(alloc, log, epoch, &value, signature) {
            Ok(()) => {}
            Err(refusal) => return Err(refusal),
        }
        let ready = self.ballot_drafts(alloc, log, &value, signature)?;
        match self.log.ballot(alloc, log, value, signature) {
            Ok(closing) => Ok(close(&self.log, &mut self.queue, ready, epoch, closing)),
            Err(_) => {
                ready.discard();
                Err(LogRefusal::Memory)
            }
        }
    }
}
