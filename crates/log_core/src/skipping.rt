//! The row of a SkipNote: the log ends its epoch as skipped.

ghost use Rattle.std.specs.Prelude.{◌≡◌, IfOk, length};
ghost use Rattle.ar_base.specs.Gives.{GivesUnless};
ghost use Rattle.ar_council.specs.Council.{council_of};
ghost use Rattle.epoch_log.specs.State.{reports_of};
ghost use Rattle.epoch_log.specs.Telling as telling;
ghost use Rattle.log_sending.specs.Checks.{none_can_win};
ghost use Rattle.ar_claims.specs.Lists.{claimed_statuses};
ghost use Rattle.log_sending.specs.Signers.{signers};
ghost use Rattle.log_core.specs.Skipped.{signed_statuses, skip_judged, skip_row};
ghost use Rattle.log_core.specs.Steps.{IsStep};
ghost use Rattle.log_sending.specs.declared.refusal.LogRefusal.TheVariants as refusals;
ghost use Rattle.vote_quorum.specs.Statuses.{AreStatuses};

use crate::LogRefusal;
use crate::log_core::{LogCore, ended_epoch};
use ar_message::{LogStatus, Statuses, Unsigned};
use log_sending::{Signers, in_epoch};
use party_keys::Directory;
use std::alloc::{AllocError, Global};
use vote_quorum::{Value, excluded};

/// Whether the logs have signed their statuses of an epoch.
fn check_statuses(
    alloc: Global,
    directory: &Directory,
    epoch: u64,
    statuses: &[LogStatus],
) -> Result<(), LogRefusal>
    ensures { GivesUnless refusals.Memory (λ u.
        u) result (signers directory.now (claimed_statuses epoch statuses.now)) }
{
    let mut signers = Signers::new(alloc);
    signers.add_statuses(epoch, statuses)?;
    signers.check(directory)
}

/// The statuses without their signatures.
fn reports_of(
    alloc: Global,
    statuses: &[LogStatus],
) -> Result<Vec<(u16, Option<Value>)>, AllocError>
    ensures { IfOk result (λ list. list.items ≡ reports_of (signed_statuses statuses.now)) }
{
    let mut list = Vec::new(alloc);
    for status in statuses {
        list.push((status.log, status.value))?;
    }
    Ok(list)
}

/// The statuses with their signatures, as the log takes them.
fn signed_statuses(
    alloc: Global,
    statuses: &[LogStatus],
) -> Result<Vec<(u16, Option<Value>, Vec<u8>)>, AllocError>
    ensures { IfOk result (λ list. telling.statuses_in list.items ≡ signed_statuses statuses.now) }
{
    let mut list = Vec::new(alloc);
    for status in statuses {
        let signature = Vec::from_slice(alloc, status.signature.as_slice())?;
        list.push((status.log, status.value, signature))?;
    }
    Ok(list)
}

/// Whether no root can have a quorum by these statuses.
fn none_can_win(directory: &Directory, statuses: &[(u16, Option<Value>)]) -> Result<(), LogRefusal>
    requires { AreStatuses (length directory.now.logs) statuses.now }
    ensures { result ≡ none_can_win (council_of directory.now) statuses.now }
{
    match excluded(directory.logs(), directory.quorum(), statuses) {
        Ok(()) => Ok(()),
        Err((root, count)) => Err(LogRefusal::CouldBeDecided(root, count)),
    }
}

impl LogCore {
    /// The checks of a SkipNote, in their order.
    #[tactic(auto, unfolding(crate::specs::Skipped::skip_judged))]
    fn judge_skip(&self, alloc: Global, epoch: u64, statuses: &Statuses) -> Result<(), LogRefusal>
        ensures { GivesUnless refusals.Memory (λ u.
            u) result (skip_judged self.now epoch statuses.now) }
    {
        let directory = self.log.directory();
        let list = statuses.list.as_slice();
        check_statuses(alloc, directory, epoch, list)?;
        in_epoch(&self.log, epoch)?;
        let plain = reports_of(alloc, list)?;
        none_can_win(directory, plain.as_slice())
    }

    /// Ends the epoch as skipped, as another log tells with statuses by which no root can have a quorum.
    pub(crate) fn skip_note(
        &mut self,
        alloc: Global,
        epoch: u64,
        statuses: &Statuses,
    ) -> Result<Unsigned, LogRefusal>
        ensures { IsStep result self.old self.new (skip_row self.old epoch statuses.now) }
    {
        match self.judge_skip(alloc, epoch, statuses) {
            Ok(()) => {}
            Err(refusal) => return Err(refusal),
        }
        let signed = signed_statuses(alloc, statuses.list.as_slice())?;
        let skipped = ended_epoch(&self.log, None);
        self.log.skip(alloc, signed)?;
        Ok(Unsigned::ended(alloc, skipped))
    }
}
