//! The log's own status.
ghost use Rattle.std.specs.Prelude.{◌≡◌, ◌<◌, ◌+◌, ◌%◌, ◌&&◌, ◌==◌, [], ◌∷◌, None, Ok, Err, IfErr, IsOk, OnOk, OnErr};
ghost use Rattle.ar_base.specs.Gives.{GivesOrWants};
ghost use Rattle.ar_council.specs.Room.{HasRoom};
ghost use Rattle.key_roll.specs.Entry.{entered};
ghost use Rattle.ar_statement.specs.declared.fault.BookFault.TheVariants as book_fault;
ghost use Rattle.epoch_log.specs.Answers.{beside, stated};
ghost use Rattle.epoch_log.specs.Calls.{MayState, after_state, after_status_seen, is_turn, own_status_text, own_value, stating};
ghost use Rattle.epoch_log.specs.Log.{IsLog, moved, parts_of, state_in};
ghost use Rattle.epoch_log.specs.State.{epoch_of};
ghost use Rattle.epoch_log.specs.Taking.{CanSignStatus, SignsStatus};

use crate::finishing::own_value;
use crate::parts::Parts;
use crate::signing::{leaf_for, sign};
use crate::{Closing, Stated};
use ar_council::status_statement;
use ar_statement::optional_value_told;
use key_roll::{BookFault, RollDue};
use std::alloc::Global;
use vote_quorum::Value;

impl Parts {
    /// Whether it is this log's turn in an epoch.
    pub(crate) fn is_turn(&self, epoch: u64) -> bool
        ensures { result ≡ is_turn (state_in self.now).council (state_in self.now).me epoch }
    {
        let logs = self.directory.logs();
        (self.number as usize) < logs && epoch % logs as u64 == self.number as u64
    }

    /// What the log voted for in the current epoch, if it did.
    pub(crate) fn own_value(&self) -> Option<Value>
        requires { IsLog self.now }
        ensures { result ≡ own_value (state_in self.now) }
    {
        own_value(&self.past.voted, self.epoch())
    }

    /// That there is a leaf for the log's status, if it needs one; it is `Spent` exactly where there is none.
    fn status_leaf(&self) -> Result<(), BookFault>
        requires { IsLog self.now }
        ensures room { OnOk result
            (HasRoom (state_in self.now).past.signed (own_status_text (state_in self.now) ∷ [])) }
        ensures some { OnOk result
            (IsOk (entered (state_in self.now).past.signed (own_status_text (state_in self.now)))) }
        ensures none { IfErr result (λ fault.
            entered (state_in self.now).past.signed (own_status_text (state_in self.now))
            ≡ Err fault) }
    {
        let statement = status_statement(self.number, self.epoch(), &self.own_value());
        leaf_for(&self.past.signed, &statement)
    }

    /// Signs the log's status, and tells of it. There is room for it, and a leaf.
    fn put_status(&mut self, alloc: Global, epoch: u64, value: Option<Value>) -> RollDue
        requires epoch { epoch ≡ epoch_of (state_in self.old) }
        requires value { value ≡ own_value (state_in self.old) }
        requires can { CanSignStatus self.old }
        ensures { SignsStatus self.old self.new result }
    {
        let statement = status_statement(self.number, epoch, &value);
        let due = sign(alloc, &mut self.past.signed, &statement);
        self.past.stated.push_reserved(Stated { epoch, value });
        due
    }

    /// The same, which keeps what is kept.
    fn take_status(&mut self, alloc: Global) -> RollDue
        requires kept { IsLog self.old }
        requires open { MayState (state_in self.old) }
        requires can { CanSignStatus self.old }
        ensures signed { SignsStatus self.old self.new result }
        ensures kept { IsLog self.new }
    {
        let epoch = self.epoch();
        let value = self.own_value();
        self.put_status(alloc, epoch, value)
    }

    /// States what the log did in the epoch, where it does not count the statuses itself.
    fn state_only(&mut self, alloc: Global) -> Result<RollDue, BookFault>
        requires kept { IsLog self.old }
        requires open { MayState (state_in self.old) }
        ensures answer { GivesOrWants book_fault.Memory (λ due.
            due) result (entered (state_in self.old).past.signed
            (own_status_text (state_in self.old))) }
        ensures ok { OnOk result
            (parts_of self.new ≡ moved (parts_of self.old) (stating (state_in self.old))) }
        ensures err { OnErr result (parts_of self.new ≡ parts_of self.old) }
        ensures kept { IsLog self.new }
    {
        self.status_leaf()?;
        self.reserve(alloc, 0, 1)?;
        Ok(self.take_status(alloc))
    }

    /// States what the log did in the epoch, and counts it.
    fn state_counted(&mut self, alloc: Global) -> Result<(RollDue, Closing), BookFault>
        requires kept { IsLog self.old }
        requires open { MayState (state_in self.old) }
        requires log { (state_in self.old).me < (state_in self.old).council.logs }
        ensures answer { GivesOrWants book_fault.Memory (λ r. r) result
            (beside (after_status_seen (stating (state_in self.old)) (state_in self.old).me
            (own_value (state_in self.old)) None).1
            (entered (state_in self.old).past.signed (own_status_text (state_in self.old)))) }
        ensures ok { OnOk result (parts_of self.new ≡ moved (parts_of self.old)
            (after_status_seen (stating (state_in self.old)) (state_in self.old).me
            (own_value (state_in self.old)) None).0) }
        ensures err { OnErr result (parts_of self.new ≡ parts_of self.old) }
        ensures kept { IsLog self.new }
    {
        self.status_leaf()?;
        let number = self.number;
        let value = self.own_value();
        optional_value_told(&value);
        let plan = self.plan_with_status(alloc, number, &value)?;
        self.reserve(alloc, 1, 1)?;
        let due = self.take_status(alloc);
        self.take_report(number, value, None);
        Ok((due, self.finish(alloc, plan)))
    }

    /// `EpochLog::state`.
    pub(crate) fn state(&mut self, alloc: Global) -> Result<(RollDue, Closing), BookFault>
        requires kept { IsLog self.old }
        requires open { MayState (state_in self.old) }
        ensures answer { GivesOrWants book_fault.Memory (λ r. r) result
            (stated (state_in self.old)) }
        ensures ok { OnOk result
            (parts_of self.new ≡ moved (parts_of self.old) (after_state (state_in self.old)).0) }
        ensures err { OnErr result (parts_of self.new ≡ parts_of self.old) }
        ensures kept { IsLog self.new }
    {
        if self.is_turn(self.epoch() + 1) {
            return self.state_counted(alloc);
        }
        let due = self.state_only(alloc)?;
        Ok((due, Closing::Open))
    }
}
