//! The row of Submit: a change is queued.

ghost use Rattle.std.specs.Prelude.{◌≡◌, Ok, Result, OnOk, OnErr, false};
ghost use Rattle.ar_base.specs.Gives.{GivesUnless, with_error};
ghost use Rattle.log_sending.specs.Checks.{has_place};
ghost use Rattle.ar_claims.specs.Lists.{endorsements_in};
ghost use Rattle.log_sending.specs.Signers.{signers};
ghost use Rattle.log_core.specs.Steps.{IsStep};
ghost use Rattle.log_core.specs.Submit.{queueing, submit_judged, submit_row};
ghost use Rattle.log_sending.specs.declared.refusal.LogRefusal.TheVariants as refusals;

use crate::LogRefusal;
use crate::log_core::LogCore;
use ar_cert::Change;
use ar_message::Unsigned;
use domain_table::ChangeRefusal;
use log_sending::{Signers, is_queued};
use party_keys::Directory;
use std::alloc::{AllocError, Global};

/// The most changes that are queued.
const MOST_QUEUED: usize = 256;

/// Whether the endorsers of a change have signed.
fn check_endorsements(
    alloc: Global,
    directory: &Directory,
    change: &Change,
) -> Result<(), LogRefusal>
    ensures { GivesUnless refusals.Memory (λ u.
        u) result (signers directory.now (endorsements_in change.now)) }
{
    let mut signers = Signers::new(alloc);
    signers.add_endorsements(change)?;
    signers.check(directory)
}

/// Whether a change is taken, by how the table judges it; it is the only one, with the index 0.
fn taken_alone(judged: Result<(), ChangeRefusal>) -> Result<(), LogRefusal>
    ensures { result ≡ with_error (refusals.BadChange 0) judged }
{
    match judged {
        Ok(()) => Ok(()),
        Err(refusal) => Err(LogRefusal::BadChange(0, refusal)),
    }
}

/// Whether the queue has a place left.
fn has_place(queue: &[Change]) -> Result<(), LogRefusal>
    ensures { result ≡ has_place queue.now }
{
    if queue.len() < MOST_QUEUED {
        Ok(())
    } else {
        Err(LogRefusal::QueueFull)
    }
}

impl LogCore {
    /// Verifies the handover behind the newest certificate of the change's name, if the log has one, and keeps in the change
    /// what it finds. It takes no memory.
    fn find_handover(&self, change: &mut Change)
        ensures { change.new ≡ change.old }
    {
        if let Some(old) = self.log.table().newest(change.cert.name.text()) {
            change.verify_handover(old);
        }
    }

    /// The checks of a Submit, in their order; and then whether an equal change is queued. What is found of its handover is
    /// kept in the change, behind the check of its endorsements, so that no one else has the log verify it.
    #[tactic(auto, unfolding(crate::specs::Submit::submit_judged))]
    fn judge_submit(&self, alloc: Global, change: &mut Change) -> Result<bool, LogRefusal>
        ensures judged { GivesUnless refusals.Memory (λ queued.
            queued) result (submit_judged self.now change.old) }
        ensures same { change.new ≡ change.old }
    {
        check_endorsements(alloc, self.log.directory(), change)?;
        self.find_handover(change);
        taken_alone(self.log.table().judge(self.log.epoch(), change))?;
        let queued = is_queued(&self.queue, change);
        if !queued {
            has_place(&self.queue)?;
        }
        Ok(queued)
    }

    /// Queues a change that is accepted and has a place. The only error is want of memory.
    fn enqueue(&mut self, alloc: Global, change: Change) -> Result<(), AllocError>
        requires { submit_judged self.old change ≡ Ok false }
        ensures ok { OnOk result (self.new ≡ queueing self.old change) }
        ensures err { OnErr result (self.new ≡ self.old) }
    {
        change.told();
        self.queue.reserve(1)?;
        self.log.endorsed(alloc, &change)?;
        self.queue.push_reserved(change);
        Ok(())
    }

    /// Takes a change that is submitted: it is the last of the queue, unless an equal one is queued.
    pub(crate) fn submit(&mut self, alloc: Global, change: Change) -> Result<Unsigned, LogRefusal>
        ensures { IsStep result self.old self.new (submit_row self.old change) }
    {
        let mut change = change;
        let queued = match self.judge_submit(alloc, &mut change) {
            Ok(queued) => queued,
            Err(refusal) => return Err(refusal),
        };
        if !queued {
            self.enqueue(alloc, change)?;
        }
        Ok(Unsigned::nothing(alloc))
    }
}
