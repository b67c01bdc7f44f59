ghost use Rattle.std.specs.Prelude.{◌≡◌, ◌<◌, ◌^◌, [], length, ⊤};
ghost use Rattle.ar_council.specs.Council.{council_of};
ghost use Rattle.epoch_log.specs.Calls.{fresh};
ghost use Rattle.epoch_log.specs.Honest.{IsOfHonestLog};
ghost use Rattle.epoch_log.specs.Log.{record_of};
ghost use Rattle.epoch_log.specs.State.{epoch_of};
ghost use Rattle.log_core.specs.Kept.{IsKeptCore};
ghost use Rattle.log_core.specs.Keyed.{SendsBy};
ghost use Rattle.log_core.specs.Learning.{roll_note_row};
ghost use Rattle.log_core.specs.Rolling.{rolling_row};
ghost use Rattle.log_core.specs.State.{most_sent};
ghost use Rattle.log_core.specs.Steps.{IsStep, ended_epoch, learn_refusal, noted};

use crate::LogRefusal;
use crate::rolling::next_told;
use ar_cert::Change;
use ar_message::Unsigned;
use ar_statement::Party;
use ar_statement::fields::LAST_EPOCH;
use epoch_log::{EpochLog, Record};
use keyed_core::Keyless;
use lms_tree::LmsPublic;
use party_keys::{Announced, Directory, LearnFault, Learned};
use std::alloc::Global;
use std::marker::Model;

/// A log without its keys: where it stands, and the changes that wait to be proposed.
///
/// A step enters the statements that the log signs, and leaves zero bytes in their places, so that no key is needed.
/// After an error the log is as it was.
#[derive(Drop)]
pub struct LogCore {
    pub(crate) log: EpochLog,
    // The oldest first.
    pub(crate) queue: Vec<Change>,
    // How many bytes each of its signatures has.
    pub(crate) signature_len: usize,
}

// Clauses see what the log is between two steps.
impl Model for LogCore {
    ghost use Rattle.log_core.specs.State.{CoreState};
    ghost use Rattle.log_core.specs.Kept.{IsKeptCore};

    ghost Value = { CoreState };

    ghost view = { λ c. record {
      log = c.log.state;
      keys = c.log.keys;
      queue = c.queue.items;
      signature_len = c.signature_len;
    } };

    ghost invariant = { λ c. IsKeptCore
        (record {
          log = c.log.state;
          keys = c.log.keys;
          queue = c.queue.items;
          signature_len = c.signature_len;
        }) };
}

/// The epoch that ends, with the root with which it is decided, if it is, unless it is the last.
pub(crate) fn ended_epoch(log: &EpochLog, root: Option<[u8; 32]>) -> Option<(u64, Option<[u8; 32]>)>
    ensures { result ≡ ended_epoch log.now.state root }
{
    let epoch = log.epoch();
    if epoch < LAST_EPOCH {
        Some((epoch, root))
    } else {
        None
    }
}

/// Why a key is not learnt, as a refusal.
fn learn_refusal(fault: LearnFault, party: Party, generation: u32) -> LogRefusal
    ensures { result ≡ learn_refusal fault party generation }
{
    match fault {
        LearnFault::Unknown => LogRefusal::Unknown(party),
        LearnFault::Bad(number) => LogRefusal::BadSignature(party, number),
        LearnFault::Other => LogRefusal::OtherRoll(party, generation),
        LearnFault::Memory => LogRefusal::Memory,
    }
}

/// What is answered to a RollNote, by what was learnt of it.
fn noted(
    alloc: Global,
    learned: Result<Learned, LearnFault>,
    party: Party,
    generation: u32,
) -> Result<Unsigned, LogRefusal>
    ensures { result ≡ noted learned party generation }
{
    match learned {
        Ok(_) => Ok(Unsigned::nothing(alloc)),
        Err(fault) => Err(learn_refusal(fault, party, generation)),
    }
}

impl LogCore {
    /// The log with this number that has done nothing yet, whose keys have so many leaves each and signatures of so many
    /// bytes. It takes no memory.
    pub fn new(
        alloc: Global,
        number: u16,
        directory: Directory,
        leaves: u32,
        signature_len: usize,
    ) -> LogCore
        requires leaves { 0 < leaves }
        requires len { signature_len < 2 ^ 16 }
        ensures { result ≡ record {
          log = fresh number (council_of directory) leaves;
          keys = directory;
          queue = [];
          signature_len = signature_len;
        } }
    {
        let _logs = directory.logs();
        LogCore {
            log: EpochLog::new(alloc, number, directory, leaves),
            queue: Vec::new(alloc),
            signature_len,
        }
    }

    /// Tells a proof what is kept of the log. It does nothing.
    pub fn told(&self)
        ensures { IsKeptCore self.now }
    {
        let _log = &self.log;
    }

    /// The current epoch: one more than how many ended.
    pub fn epoch(&self) -> u64
        ensures { result ≡ epoch_of self.now.log }
    {
        self.log.epoch()
    }

    /// How many changes wait to be proposed.
    pub fn queued(&self) -> usize
        ensures { result ≡ length self.now.queue }
    {
        self.queue.len()
    }

    /// The log without its queue: where it stands, with its table, and the keys that it knows.
    pub fn log(&self) -> &EpochLog
        ensures { result.now ≡ record { state = self.now.log; keys = self.now.keys } }
    {
        &self.log
    }

    /// What the log remembers, which is what an honest log does.
    pub fn record(&self) -> &Record
        ensures value { record_of result.now ≡ self.now.log.past }
        ensures honest { IsOfHonestLog self.now.log.council self.now.log.me self.now.log.past }
    {
        self.log.record()
    }

    /// Takes a RollNote: the party announces the key behind its key of this generation.
    pub(crate) fn roll_note(
        &mut self,
        alloc: Global,
        announced: &Announced,
    ) -> Result<Unsigned, LogRefusal>
        ensures { IsStep result self.old self.new (roll_note_row self.old announced.now) }
    {
        let learned = self.log.learn(alloc, announced);
        noted(alloc, learned, announced.party, announced.generation)
    }
}

impl Keyless for LogCore {
    type Refusal = LogRefusal;

    ghost book = { λ c. c.log.past.signed };

    ghost signature_len = { λ c. c.signature_len };

    ghost most_sent = { most_sent };

    ghost goes_on = { λ keys result old new key. SendsBy keys result old new
        (rolling_row old key) };

    ghost keeps = { λ _ _. ⊤ };

    fn no_memory(&self) -> LogRefusal {
        LogRefusal::Memory
    }

    fn enter_roll(&mut self, alloc: Global, next: &LmsPublic) -> Result<Unsigned, LogRefusal> {
        self.told();
        next_told(next);
        self.roll(alloc, next)
    }
}
