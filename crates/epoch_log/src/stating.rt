//! Statuses of logs.
ghost use Rattle.std.specs.Prelude.{◌≡◌, ◌<◌, ℕ, List, Option, Some, IfOk, IfSome, OnOk, OnErr};
ghost use Rattle.ar_statement.specs.Ranges.{IsValue};
ghost use Rattle.epoch_log.specs.Calls.{after_status_seen, with_report};
ghost use Rattle.epoch_log.specs.Log.{IsLog, moved, parts_of, state_in};
ghost use Rattle.epoch_log.specs.Plans.{IsPlanIn};
ghost use Rattle.epoch_log.specs.State.{epoch_of};
ghost use Rattle.epoch_log.specs.Taking.{CountsReport, HasRoomForReport};

use crate::Closing;
use crate::closing::Plan;
use crate::counting::{ballots, count_status, reports_with};
use crate::parts::Parts;
use crate::skipping::status_text;
use ar_base::Items;
use ar_council::see;
use ar_statement::optional_value_told;
use std::alloc::{AllocError, Global};
use vote_quorum::Value;

impl Parts {
    /// How the epoch is to end where this status is counted too.
    pub(crate) fn plan_with_status(
        &self,
        alloc: Global,
        log: u16,
        value: &Option<Value>,
    ) -> Result<Plan, AllocError>
        requires kept { IsLog self.now }
        requires log { log < (state_in self.now).council.logs }
        requires value { IfSome value.now IsValue }
        ensures { IfOk result (λ plan.
            (signature : Option (List ℕ))
            → IsPlanIn (with_report
            (state_in self.now) log value.now signature) plan) }
    {
        let ballots = ballots(alloc, &self.votes)?;
        let reports = reports_with(alloc, &self.statuses, log, value)?;
        self.plan(alloc, &ballots, reports)
    }

    /// Sees and counts a status. There is room for it.
    fn put_report(
        &mut self,
        epoch: u64,
        log: u16,
        value: Option<Value>,
        signature: Option<Items<u8>>,
    )
        requires epoch { epoch ≡ epoch_of (state_in self.old) }
        requires room { HasRoomForReport self.old }
        ensures { CountsReport self.old self.new log value signature }
    {
        see(&mut self.past.seen, status_text(log, epoch, &value));
        count_status(&mut self.statuses, (log, value, signature));
    }

    /// The same of a log of the council, which keeps what is kept.
    pub(crate) fn take_report(
        &mut self,
        log: u16,
        value: Option<Value>,
        signature: Option<Items<u8>>,
    )
        requires kept { IsLog self.old }
        requires log { log < (state_in self.old).council.logs }
        requires value { IfSome value IsValue }
        requires room { HasRoomForReport self.old }
        ensures counted { CountsReport self.old self.new log value signature }
        ensures kept { IsLog self.new }
    {
        let epoch = self.epoch();
        self.put_report(epoch, log, value, signature);
    }

    /// `EpochLog::status_seen`.
    pub(crate) fn status_seen(
        &mut self,
        alloc: Global,
        log: u16,
        value: Option<Value>,
        signature: &[u8],
    ) -> Result<Closing, AllocError>
        requires kept { IsLog self.old }
        requires log { log < (state_in self.old).council.logs }
        ensures answer { IfOk result (λ closing.
            closing ≡ (after_status_seen (state_in self.old) log value
            (Some signature.now)).1) }
        ensures ok { OnOk result
            (parts_of self.new ≡ moved (parts_of self.old)
            (after_status_seen (state_in self.old) log value (Some signature.now)).0) }
        ensures err { OnErr result (parts_of self.new ≡ parts_of self.old) }
        ensures kept { IsLog self.new }
    {
        optional_value_told(&value);
        let signature = Items::from_vec(Vec::from_slice(alloc, signature)?);
        let plan = self.plan_with_status(alloc, log, &value)?;
        self.reserve(alloc, 1, 0)?;
        self.take_report(log, value, Some(signature));
        Ok(self.finish(alloc, plan))
    }
}
