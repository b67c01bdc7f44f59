ghost use Rattle.std.specs.Prelude.{◌≡◌, IfOk};
ghost use Rattle.epoch_log.specs.Honest.{IsOfHonestLog};
ghost use Rattle.epoch_log.specs.Log.{record_of};
ghost use Rattle.log_journal.specs.Steps.{new_standing};
ghost use Rattle.log_keeper.specs.Determined.{one_standing};
ghost use Rattle.log_keeper.specs.Keeping.{refuses, says, takes};

use crate::LogOrder;
use crate::asking::{ask, ask_to_roll};
use crate::recalling::{roll_again, take_again};
use ar_message::Sent;
use epoch_log::Record;
use kept_party::{Done, Keeper, ReplayFault};
use lms_tree::LmsKey;
use log_core::{Log, LogInput, LogRefusal, new_log};
use log_journal::{Said, read_text};
use party_keys::Directory;
use std::alloc::{AllocError, Global};
use std::marker::Model;

/// A log that a journal can keep.
#[derive(Drop)]
pub struct LogKeeper {
    number: u16,
    log: Log,
}

// Clauses see where it stands, and its keys.
impl Model for LogKeeper {
    ghost use Rattle.std.specs.Prelude.{◌≡◌};
    ghost use Rattle.log_journal.specs.Steps.{LogStanding, standing_of};

    ghost Value = { LogStanding };

    ghost view = { λ k. standing_of k.log };

    ghost invariant = { λ k. k.number ≡ k.log.core.log.me };
}

impl LogKeeper {
    /// The log with this number that has done nothing yet, with its key of generation 0. The only error is want of memory.
    pub fn new(
        alloc: Global,
        number: u16,
        directory: Directory,
        key: LmsKey,
    ) -> Result<LogKeeper, AllocError>
        ensures { IfOk result (λ made. made ≡ new_standing number directory key) }
    {
        let log = new_log(alloc, number, directory, key)?;
        Ok(LogKeeper { number, log })
    }

    /// The log's number.
    pub fn number(&self) -> u16
        ensures { result ≡ self.now.core.log.me }
    {
        self.number
    }

    /// What the log remembers, which is what an honest log does.
    pub fn record(&self) -> &Record
        ensures value { record_of result.now ≡ self.now.core.log.past }
        ensures honest { IsOfHonestLog self.now.core.log.council self.now.core.log.me
            self.now.core.log.past }
    {
        self.log.core.record()
    }
}

impl Keeper for LogKeeper {
    type Order = LogOrder;

    type Reply = Sent;

    type Refusal = LogRefusal;

    ghost takes = { takes };

    ghost tells = { λ party order reply. ⊥ };

    ghost refuses = { refuses };

    ghost says = { says };

    ghost determined = { one_standing };

    fn step(&mut self, alloc: Global, order: &LogOrder) -> Result<Done<Sent>, LogRefusal> {
        match order {
            LogOrder::Take(bytes) => {
                ask(alloc, &mut self.log, &LogInput::Take(bytes.as_slice()))
            }
            LogOrder::Propose => ask(alloc, &mut self.log, &LogInput::Propose),
            LogOrder::Pass => ask(alloc, &mut self.log, &LogInput::Pass),
            LogOrder::Roll => ask_to_roll(alloc, &mut self.log),
        }
    }

    fn recall(&mut self, alloc: Global, text: &[u8]) -> Result<Sent, ReplayFault> {
        match read_text(text) {
            Said::Plain(input) => take_again(alloc, &mut self.log, &input),
            Said::Roll(key) => roll_again(alloc, &mut self.log, &key),
            Said::Nothing => Err(ReplayFault::Stuck),
        }
    }
}
