//! Skips of which other logs tell.
ghost use Rattle.std.specs.Prelude.{◌≡◌, All, IfOk, IfSome, OnOk, OnErr};
ghost use Rattle.party_keys.specs.Seen.{seen_of};
ghost use Rattle.ar_council.specs.Values.{status_claim};
ghost use Rattle.ar_statement.specs.Ranges.{IsValue};
ghost use Rattle.ar_statement.specs.Claims.{log_party};
ghost use Rattle.epoch_log.specs.Calls.{after_skip, statuses_seen, CanSkip};
ghost use Rattle.epoch_log.specs.State.{reports_of};
ghost use Rattle.epoch_log.specs.Log.{IsLog, moved, parts_of, state_in};
ghost use Rattle.epoch_log.specs.Telling.{statuses_in, tables_if};

use crate::parts::Parts;
use ar_council::{see_each, seen_text, status_statement};
use ar_statement::{Role, SeenText, optional_value_told};
use std::alloc::{AllocError, Global};
use vote_quorum::Value;

/// Tells a proof that the ballots that statuses report are of digests.
fn statuses_told(statuses: &[(u16, Option<Value>, Vec<u8>)])
    ensures { All (λ s. IfSome s.1 IsValue) (reports_of (statuses_in statuses.now)) }
{
    for status in statuses {
        optional_value_told(&status.1);
    }
}

/// The statuses without their signatures.
fn unsigned(
    alloc: Global,
    statuses: &[(u16, Option<Value>, Vec<u8>)],
) -> Result<Vec<(u16, Option<Value>)>, AllocError>
    ensures { IfOk result (λ list. list.items ≡ reports_of (statuses_in statuses.now)) }
{
    let mut list = Vec::new(alloc);
    for status in statuses {
        list.push((status.0, status.1))?;
    }
    Ok(list)
}

/// A log's status, as it is kept.
pub(crate) fn status_text(log: u16, epoch: u64, value: &Option<Value>) -> SeenText
    ensures { result ≡ seen_of (log_party log) (status_claim log epoch value.now) }
{
    seen_text(
        Role::LogServer.party(log),
        &status_statement(log, epoch, value),
    )
}

/// The statuses, as they are kept.
fn texts(
    alloc: Global,
    epoch: u64,
    statuses: &[(u16, Option<Value>, Vec<u8>)],
) -> Result<Vec<SeenText>, AllocError>
    ensures { IfOk result (λ list. list.items ≡ statuses_seen epoch (statuses_in statuses.now)) }
{
    let mut list = Vec::new(alloc);
    for status in statuses {
        list.push(status_text(status.0, epoch, &status.1))?;
    }
    Ok(list)
}

impl Parts {
    /// Sees the statuses, and ends the epoch.
    fn skip_by(
        &mut self,
        alloc: Global,
        statuses: &[(u16, Option<Value>, Vec<u8>)],
    ) -> Result<(), AllocError>
        requires { IsLog self.old }
        ensures ok { OnOk result
            (parts_of self.new ≡ moved (parts_of self.old)
            (after_skip (state_in self.old) (statuses_in statuses.now))) }
        ensures err { OnErr result (parts_of self.new ≡ parts_of self.old) }
        ensures tables { OnOk result
            (self.new.tables
            ≡ tables_if (state_in self.old) self.old.tables self.old.tables.base) }
        ensures same { OnErr result (self.new.tables ≡ self.old.tables) }
    {
        let epoch = self.epoch();
        let seen = texts(alloc, epoch, statuses)?;
        let plain = unsigned(alloc, statuses)?;
        self.reserve(alloc, seen.len(), 0)?;
        see_each(&mut self.past.seen, &seen);
        self.skip_unless_last(alloc, epoch, plain);
        Ok(())
    }

    /// `EpochLog::skip`.
    pub(crate) fn skip(
        &mut self,
        alloc: Global,
        statuses: Vec<(u16, Option<Value>, Vec<u8>)>,
    ) -> Result<(), AllocError>
        requires kept { IsLog self.old }
        requires may { CanSkip (state_in self.old) (statuses_in statuses.items) }
        ensures ok { OnOk result
            (parts_of self.new ≡ moved (parts_of self.old)
            (after_skip (state_in self.old) (statuses_in statuses.items))) }
        ensures err { OnErr result (parts_of self.new ≡ parts_of self.old) }
        ensures kept { IsLog self.new }
    {
        statuses_told(&statuses);
        match self.skip_by(alloc, &statuses) {
            Ok(()) => Ok(()),
            Err(error) => Err(error),
        }
    }
}
