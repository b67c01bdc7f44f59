//! Ballots of other logs, and of the log itself.
ghost use Rattle.std.specs.Prelude.{◌≡◌, ◌<◌, ℕ, List, Option, IfOk, OnOk, OnErr};
ghost use Rattle.epoch_log.specs.Calls.{after_ballot, log_with_ballot};
ghost use Rattle.epoch_log.specs.Log.{IsLog, moved, parts_of, state_in};
ghost use Rattle.epoch_log.specs.Plans.{IsPlanIn};
ghost use Rattle.epoch_log.specs.State.{epoch_of};
ghost use Rattle.epoch_log.specs.Taking.{CountsBallot, HasRoomForBallot};

use crate::Closing;
use crate::closing::Plan;
use crate::counting::{ballots_with, count_vote, reports};
use crate::deciding::vote_text;
use crate::parts::Parts;
use ar_base::Items;
use ar_council::see;
use std::alloc::{AllocError, Global};
use vote_quorum::Value;

impl Parts {
    /// How the epoch is to end where this ballot is counted too.
    fn plan_with_ballot(&self, alloc: Global, log: u16, value: &Value) -> Result<Plan, AllocError>
        requires { IsLog self.now }
        ensures { IfOk result (λ plan.
            (signature : Option (List ℕ))
            → IsPlanIn (log_with_ballot
            (state_in self.now) log value.now signature) plan) }
    {
        let ballots = ballots_with(alloc, &self.votes, log, value)?;
        let reports = reports(alloc, &self.statuses)?;
        self.plan(alloc, &ballots, reports)
    }

    /// Sees and counts a ballot. There is room for it.
    fn put_ballot(&mut self, epoch: u64, log: u16, value: Value, signature: Option<Items<u8>>)
        requires epoch { epoch ≡ epoch_of (state_in self.old) }
        requires room { HasRoomForBallot self.old }
        ensures { CountsBallot self.old self.new log value signature }
    {
        see(&mut self.past.seen, vote_text(log, epoch, &value));
        count_vote(&mut self.votes, (log, value, signature));
    }

    /// The same of a log of the council, which keeps what is kept.
    pub(crate) fn take_ballot(&mut self, log: u16, value: Value, signature: Option<Items<u8>>)
        requires kept { IsLog self.old }
        requires log { log < (state_in self.old).council.logs }
        requires room { HasRoomForBallot self.old }
        ensures counted { CountsBallot self.old self.new log value signature }
        ensures kept { IsLog self.new }
    {
        let epoch = self.epoch();
        self.put_ballot(epoch, log, value, signature);
    }

    /// `EpochLog::ballot`.
    pub(crate) fn ballot(
        &mut self,
        alloc: Global,
        log: u16,
        value: Value,
        signature: &[u8],
    ) -> Result<Closing, AllocError>
        requires kept { IsLog self.old }
        requires log { log < (state_in self.old).council.logs }
        ensures answer { IfOk result (λ closing.
            closing ≡ (after_ballot (state_in self.old) log value signature.now).1) }
        ensures ok { OnOk result
            (parts_of self.new ≡ moved (parts_of self.old)
            (after_ballot (state_in self.old) log value signature.now).0) }
        ensures err { OnErr result (parts_of self.new ≡ parts_of self.old) }
        ensures kept { IsLog self.new }
    {
        let signature = Items::from_vec(Vec::from_slice(alloc, signature)?);
        let plan = self.plan_with_ballot(alloc, log, &value)?;
        self.reserve(alloc, 1, 0)?;
        self.take_ballot(log, value, Some(signature));
        Ok(self.finish(alloc, plan))
    }
}
