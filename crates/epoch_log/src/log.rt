ghost use Rattle.std.specs.Prelude.{◌≡◌, ◌≢◌, ◌<◌, All, IfOk, IfSome, Some, IsSome, OnOk, OnErr};
ghost use Rattle.std.specs.Option.{option_map};
ghost use Rattle.ar_base.specs.Gives.{GivesOrWants, GivesUnless};
ghost use Rattle.ar_council.specs.Council.{council_of};
ghost use Rattle.ar_statement.specs.Claims.{claim_of, log_party, text_of};
ghost use Rattle.key_roll.specs.Entry.{announced, due_of};
ghost use Rattle.ar_statement.specs.declared.fault.BookFault.TheVariants as book_fault;
ghost use Rattle.key_roll.specs.declared.fault.RollFault.TheVariants as roll_fault;
ghost use Rattle.party_keys.specs.Learning.{learned};
ghost use Rattle.party_keys.specs.declared.fault.LearnFault.TheVariants as learn_fault;
ghost use Rattle.domain_table.specs.Applying.{apply};
ghost use Rattle.domain_table.specs.Sound.{IsSound};
ghost use Rattle.epoch_log.specs.Answers.{confirmed, proposed, stated, voted};
ghost use Rattle.epoch_log.specs.Calls.{AreEndorsers, IsProposed, IsTurn, MayState, after_ballot, after_confirm, after_decide, after_endorsed, after_propose, after_skip, after_state, after_status_seen, after_vote, fresh, is_turn, learning, own_value, rolling, IsOpenTo, CanDecide, CanSkip};
ghost use Rattle.epoch_log.specs.Ending.{own_table};
ghost use Rattle.epoch_log.specs.Foreseeing.{IsForeseen};
ghost use Rattle.epoch_log.specs.Log.{moved, record_of};
ghost use Rattle.epoch_log.specs.Right.{SawEndorsements};
ghost use Rattle.epoch_log.specs.State.{IsKeptLog, epoch_of, table_of};
ghost use Rattle.epoch_log.specs.Telling.{statuses_in, to_root, votes_in};

use crate::parts::Parts;
use crate::{Closing, Foreseen, Newest, Record};
use ar_cert::Change;
use ar_names::Name;
use ar_statement::Statement;
use domain_table::Table;
use key_roll::{BookFault, RollDue, RollFault};
use lms_tree::LmsPublic;
use party_keys::{Announced, Directory, LearnFault, Learned};
use std::alloc::{AllocError, Global};
use std::marker::Model;
use vote_quorum::Value;

/// Where a log stands: its record, what it has counted in the current epoch, its newest decision, the table in which the
/// epoch begins, and the keys that it knows. It holds no key of its own.
///
/// Each call makes the whole change of its name, or none: all memory is taken before the first change, and after an error
/// the log is as it was. A call has the conditions of its `requires`, and does not test them.
#[derive(Drop)]
pub struct EpochLog {
    parts: Parts,
}

// Clauses see where the log stands, and the keys that it knows.
impl Model for EpochLog {
    ghost use Rattle.epoch_log.specs.Log.{IsLog, LogParts, parts_of};

    ghost Value = { LogParts };

    ghost view = { λ log. parts_of log.parts };

    ghost invariant = { λ log. IsLog log.parts };
}

impl EpochLog {
    /// The log with this number that has done nothing yet, whose keys have this many leaves each. It takes no memory.
    pub fn new(alloc: Global, number: u16, directory: Directory, leaves: u32) -> EpochLog
        requires { 0 < leaves }
        ensures { result ≡ record {
          state = fresh number (council_of directory) leaves;
          keys = directory;
        } }
    {
        EpochLog {
            parts: Parts::new(alloc, number, directory, leaves),
        }
    }

    /// Tells a proof what the log keeps. It does nothing.
    pub fn told(&self)
        ensures kept { IsKeptLog self.now.state }
        ensures council { self.now.state.council ≡ council_of self.now.keys }
        ensures sound { IsSound (table_of self.now.state) }
    {
        let _parts = &self.parts;
    }

    /// Whether it is the log's turn in an epoch.
    pub fn is_turn(&self, epoch: u64) -> bool
        ensures { result ≡ is_turn self.now.state.council self.now.state.me epoch }
    {
        self.parts.is_turn(epoch)
    }

    /// What the log voted for in the current epoch, if it did.
    pub fn own_value(&self) -> Option<Value>
        ensures { result ≡ own_value self.now.state }
    {
        self.parts.own_value()
    }

    /// The number of the log.
    pub fn number(&self) -> u16
        ensures { result ≡ self.now.state.me }
    {
        self.parts.number
    }

    /// The current epoch: one more than how many ended.
    pub fn epoch(&self) -> u64
        ensures { result ≡ epoch_of self.now.state }
    {
        self.parts.epoch()
    }

    /// The newest decision, where an epoch was decided.
    pub fn newest(&self) -> Option<&Newest>
        ensures { option_map (λ w. w.now) result ≡ self.now.state.newest }
    {
        self.parts.newest.as_ref()
    }

    /// What the log remembers.
    pub fn record(&self) -> &Record
        ensures { record_of result.now ≡ self.now.state.past }
    {
        &self.parts.past
    }

    /// The table in which the current epoch begins.
    pub fn table(&self) -> &Table
        ensures { result.now ≡ table_of self.now.state }
    {
        &self.parts.tables.base
    }

    /// The table to which the changes of the log's own vote of the current epoch lead, if it has voted.
    pub fn tried(&self) -> Option<&Table>
        ensures { option_map (λ t. t.now) result ≡ own_table self.now.state }
    {
        self.parts.tables.tried.as_ref()
    }

    /// The keys that the log knows, under which signatures are verified.
    pub fn directory(&self) -> &Directory
        ensures { result.now ≡ self.now.keys }
    {
        &self.parts.directory
    }

    /// The leaf of a statement that the log signed, for the place of its signature in a message. It is `None` exactly
    /// where the log has not signed the statement.
    pub fn due(&self, statement: &Statement) -> Option<RollDue>
        ensures { result ≡ due_of self.now.state.past.signed (text_of (claim_of statement.now)) }
    {
        self.parts.past.signed.held(statement)
    }

    /// Sees the endorsements of a change, which is queued elsewhere. The only error is want of memory.
    pub fn endorsed(&mut self, alloc: Global, change: &Change) -> Result<(), AllocError>
        requires { AreEndorsers self.old.state.council change.now }
        ensures ok { OnOk result
            (self.new ≡ moved self.old (after_endorsed self.old.state change.now)) }
        ensures err { OnErr result (self.new ≡ self.old) }
    {
        self.parts.endorsed(alloc, change)
    }

    /// Proposes, in the log's turn, to go by these changes from the table with the root `base` to the one with `root`, and
    /// votes for that; the own vote is seen and counted at once, and the epoch may end with it.
    ///
    /// The table to which the changes lead is handed in, and kept until the epoch ends.
    ///
    /// It gives the leaf of the proposal, and is `Spent` exactly where there are not leaves for the proposal and the vote.
    /// `foresee_propose` tells beforehand whether the epoch would end.
    pub fn propose(
        &mut self,
        alloc: Global,
        base: [u8; 32],
        changes: Vec<Change>,
        root: [u8; 32],
        tried: Table,
    ) -> Result<(RollDue, Closing), BookFault>
        requires turn { IsTurn self.old.state.council self.old.state.me (epoch_of self.old.state) }
        requires open { IsOpenTo self.old.state
            (record { base = base; root = root }) changes.items }
        requires tried { apply (table_of self.old.state)
            (epoch_of self.old.state) changes.items ≡ Some tried }
        requires endorsed { All (SawEndorsements self.old.state.past.seen) changes.items }
        ensures answer { GivesOrWants book_fault.Memory (λ r.
            r) result (proposed self.old.state
            (record { base = base; root = root }) changes.items) }
        ensures ok { OnOk result
            (self.new ≡ moved self.old
            (after_propose self.old.state
            (record { base = base; root = root }) changes.items).0) }
        ensures err { OnErr result (self.new ≡ self.old) }
    {
        self.parts
            .propose(alloc, Value { base, root }, changes, tried)
    }

    /// Votes for another log's proposal, which is seen with the endorsements of its changes. The table to which they lead is
    /// handed in, and kept until the epoch ends.
    ///
    /// It gives the leaf of the vote, and is `Spent` exactly where there is none.
    pub fn vote(
        &mut self,
        alloc: Global,
        proposer: u16,
        base: [u8; 32],
        changes: Vec<Change>,
        root: [u8; 32],
        tried: Table,
    ) -> Result<RollDue, BookFault>
        requires open { IsOpenTo self.old.state
            (record { base = base; root = root }) changes.items }
        requires tried { apply (table_of self.old.state)
            (epoch_of self.old.state) changes.items ≡ Some tried }
        requires proposal { IsProposed self.old.state proposer changes.items }
        ensures answer { GivesOrWants book_fault.Memory (λ due.
            due) result (voted self.old.state (record { base = base; root = root })) }
        ensures ok { OnOk result
            (self.new ≡ moved self.old
            (after_vote self.old.state proposer
            (record { base = base; root = root }) changes.items)) }
        ensures err { OnErr result (self.new ≡ self.old) }
    {
        self.parts
            .vote(alloc, proposer, Value { base, root }, changes, tried)
    }

    /// Sees a log's ballot of the current epoch, and counts it unless its ballot for this value is counted; the epoch may end
    /// with it, which `foresee_ballot` tells beforehand. The only error is want of memory.
    pub fn ballot(
        &mut self,
        alloc: Global,
        log: u16,
        value: Value,
        signature: &[u8],
    ) -> Result<Closing, AllocError>
        requires { log < self.old.state.council.logs }
        ensures answer { IfOk result (λ closing.
            closing ≡ (after_ballot self.old.state log value signature.now).1) }
        ensures ok { OnOk result
            (self.new ≡ moved self.old (after_ballot self.old.state log value signature.now).0) }
        ensures err { OnErr result (self.new ≡ self.old) }
    {
        self.parts.ballot(alloc, log, value, signature)
    }

    /// States what the log did in the epoch: the ballot that it cast, or that it cast none. Where the log counts the statuses
    /// itself, its own is seen and counted at once, and the epoch may end with it, which `foresee_state` tells beforehand.
    ///
    /// It gives the leaf of the status, and is `Spent` exactly where there is none.
    pub fn state(&mut self, alloc: Global) -> Result<(RollDue, Closing), BookFault>
        requires { MayState self.old.state }
        ensures answer { GivesOrWants book_fault.Memory (λ r. r) result (stated self.old.state) }
        ensures ok { OnOk result (self.new ≡ moved self.old (after_state self.old.state).0) }
        ensures err { OnErr result (self.new ≡ self.old) }
    {
        self.parts.state(alloc)
    }

    /// Sees a log's status of the current epoch, and counts it where it is the log's first; the epoch may end with it, which
    /// `foresee_status` tells beforehand. The only error is want of memory.
    pub fn status_seen(
        &mut self,
        alloc: Global,
        log: u16,
        value: Option<Value>,
        signature: &[u8],
    ) -> Result<Closing, AllocError>
        requires { log < self.old.state.council.logs }
        ensures answer { IfOk result (λ closing.
            closing ≡ (after_status_seen self.old.state log value (Some signature.now)).1) }
        ensures ok { OnOk result
            (self.new ≡ moved self.old
            (after_status_seen self.old.state log value (Some signature.now)).0) }
        ensures err { OnErr result (self.new ≡ self.old) }
    {
        self.parts.status_seen(alloc, log, value, signature)
    }

    /// Ends the epoch as decided, as another log tells with the votes of a quorum: the next begins in the table to which the
    /// changes lead, which is handed in. The last epoch that a statement can name does not end. The only error is want of
    /// memory.
    pub fn decide(
        &mut self,
        alloc: Global,
        changes: Vec<Change>,
        root: [u8; 32],
        table: Table,
        votes: Vec<(u16, Vec<u8>)>,
    ) -> Result<(), AllocError>
        requires can { CanDecide self.old.state changes.items root (votes_in votes.items) }
        requires table { apply (table_of self.old.state)
            (epoch_of self.old.state) changes.items ≡ Some table }
        ensures ok { OnOk result
            (self.new ≡ moved self.old
            (after_decide self.old.state (to_root self.old.state root) changes.items
            (votes_in votes.items))) }
        ensures err { OnErr result (self.new ≡ self.old) }
    {
        self.parts.decide(alloc, changes, root, table, votes)
    }

    /// Ends the epoch as skipped, as another log tells with statuses that exclude each root. The last epoch that a statement
    /// can name does not end. The only error is want of memory.
    pub fn skip(
        &mut self,
        alloc: Global,
        statuses: Vec<(u16, Option<Value>, Vec<u8>)>,
    ) -> Result<(), AllocError>
        requires { CanSkip self.old.state (statuses_in statuses.items) }
        ensures ok { OnOk result
            (self.new ≡ moved self.old (after_skip self.old.state (statuses_in statuses.items))) }
        ensures err { OnErr result (self.new ≡ self.old) }
    {
        self.parts.skip(alloc, statuses)
    }

    /// Confirms, by the newest decision, the newest certificate of a name, or that it has none.
    ///
    /// It gives the leaf of the confirmation, and is `Spent` exactly where there is none.
    pub fn confirm(&mut self, alloc: Global, name: &Name) -> Result<RollDue, BookFault>
        requires { IsSome self.old.state.newest }
        ensures answer { IfSome self.old.state.newest (λ w.
            GivesOrWants book_fault.Memory (λ due.
            due) result (confirmed self.old.state w name.now)) }
        ensures ok { OnOk result (IfSome self.old.state.newest (λ w.
            self.new ≡ moved self.old (after_confirm self.old.state w name.now))) }
        ensures err { OnErr result (self.new ≡ self.old) }
    {
        self.parts.confirm(alloc, name)
    }

    /// Takes the key that a party announces as the next behind its key of this generation, and sees the Roll that says so.
    /// The answer and the faults are those of `Directory::learn`, but that `Memory` may come in place of each.
    pub fn learn(&mut self, alloc: Global, announced: &Announced) -> Result<Learned, LearnFault>
        ensures answer { GivesUnless learn_fault.Memory (λ learned. learned) result
            (learned self.old.keys announced.now) }
        ensures ok { OnOk result (self.new ≡ learning self.old announced.now) }
        ensures err { OnErr result (self.new ≡ self.old) }
    {
        self.parts.learn(alloc, announced)
    }

    /// Announces the log's next key, which the log knows then. It gives the leaf of the Roll, and is `Last` exactly where
    /// the newest generation is 999, but that `Memory` may come in place of it.
    pub fn roll(&mut self, alloc: Global, next: &LmsPublic) -> Result<RollDue, RollFault>
        ensures answer { GivesUnless roll_fault.Memory (λ due.
            due) result (announced self.old.state.past.signed
            (log_party self.old.state.me) next.now) }
        ensures ok { OnOk result (self.new ≡ rolling self.old next.now) }
        ensures err { OnErr result (self.new ≡ self.old) }
    {
        self.parts.roll(alloc, next)
    }

    /// What `propose` would make of the epoch. The only error is want of memory.
    pub fn foresee_propose(
        &self,
        alloc: Global,
        value: &Value,
        changes: &[Change],
    ) -> Result<Foreseen, AllocError>
        requires { All (λ v. v.epoch ≢ epoch_of self.now.state) self.now.state.past.voted }
        ensures { IfOk result (IsForeseen (after_propose self.now.state value.now changes.now)) }
    {
        self.parts.foresee_propose(alloc, value, changes)
    }

    /// What `ballot` would make of the epoch. The only error is want of memory.
    pub fn foresee_ballot(
        &self,
        alloc: Global,
        log: u16,
        value: &Value,
        signature: &[u8],
    ) -> Result<Foreseen, AllocError>
        ensures { IfOk result
            (IsForeseen (after_ballot self.now.state log value.now signature.now)) }
    {
        self.parts.foresee_ballot(alloc, log, value, signature)
    }

    /// What `state` would make of the epoch. The only error is want of memory.
    pub fn foresee_state(&self, alloc: Global) -> Result<Foreseen, AllocError>
        ensures { IfOk result (IsForeseen (after_state self.now.state)) }
    {
        self.parts.foresee_state(alloc)
    }

    /// What `status_seen` would make of the epoch. The only error is want of memory.
    pub fn foresee_status(
        &self,
        alloc: Global,
        log: u16,
        value: &Option<Value>,
        signature: &[u8],
    ) -> Result<Foreseen, AllocError>
        requires { log < self.now.state.council.logs }
        ensures { IfOk result
            (IsForeseen (after_status_seen self.now.state log value.now (Some signature.now))) }
    {
        self.parts.foresee_status(alloc, log, value, signature)
    }
}
