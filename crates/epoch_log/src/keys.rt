//! What a log sees, and the keys that it learns.
ghost use Rattle.std.specs.Prelude.{◌≡◌, OnOk, OnErr};
ghost use Rattle.ar_base.specs.Gives.{GivesUnless};
ghost use Rattle.key_roll.specs.Entry.{announced};
ghost use Rattle.key_roll.specs.declared.fault.RollFault.TheVariants as roll_fault;
ghost use Rattle.party_keys.specs.Learning.{learned};
ghost use Rattle.ar_statement.specs.Claims.{log_party};
ghost use Rattle.party_keys.specs.declared.fault.LearnFault.TheVariants as learn_fault;
ghost use Rattle.epoch_log.specs.Calls.{AreEndorsers, after_endorsed, learning, rolling};
ghost use Rattle.epoch_log.specs.Log.{IsLog, moved, parts_of, state_in};

use crate::parts::Parts;
use crate::seeing::endorsements;
use ar_cert::Change;
use ar_council::{key_told, see, see_each, seen_text};
use ar_statement::Role;
use key_roll::{RollDue, RollFault};
use lms_tree::LmsPublic;
use party_keys::{Announced, LearnFault, Learned};
use std::alloc::{AllocError, Global};

impl Parts {
    /// Sees the endorsements of a change.
    fn see_endorsements(&mut self, alloc: Global, change: &Change) -> Result<(), AllocError>
        ensures ok { OnOk result
            (parts_of self.new ≡ moved (parts_of self.old)
            (after_endorsed (state_in self.old) change.now)) }
        ensures err { OnErr result (parts_of self.new ≡ parts_of self.old) }
        ensures tables { self.new.tables ≡ self.old.tables }
    {
        let seen = endorsements(alloc, change)?;
        self.reserve(alloc, seen.len(), 0)?;
        see_each(&mut self.past.seen, &seen);
        Ok(())
    }

    /// `EpochLog::endorsed`.
    pub(crate) fn endorsed(&mut self, alloc: Global, change: &Change) -> Result<(), AllocError>
        requires kept { IsLog self.old }
        requires endorsers { AreEndorsers (state_in self.old).council change.now }
        ensures ok { OnOk result
            (parts_of self.new ≡ moved (parts_of self.old)
            (after_endorsed (state_in self.old) change.now)) }
        ensures err { OnErr result (parts_of self.new ≡ parts_of self.old) }
        ensures kept { IsLog self.new }
    {
        match self.see_endorsements(alloc, change) {
            Ok(()) => Ok(()),
            Err(error) => Err(error),
        }
    }

    /// Takes an announced key, and sees the Roll that says so.
    fn take_key(&mut self, alloc: Global, announced: &Announced) -> Result<Learned, LearnFault>
        ensures answer { GivesUnless learn_fault.Memory (λ learned. learned) result
            (learned self.old.directory announced.now) }
        ensures ok { OnOk result (parts_of self.new ≡ learning (parts_of self.old) announced.now) }
        ensures err { OnErr result (parts_of self.new ≡ parts_of self.old) }
        ensures tables { self.new.tables ≡ self.old.tables }
    {
        self.reserve(alloc, 1, 0)?;
        let learned = self.directory.learn(alloc, announced)?;
        see(
            &mut self.past.seen,
            seen_text(announced.party, &announced.roll()),
        );
        Ok(learned)
    }

    /// `EpochLog::learn`.
    pub(crate) fn learn(
        &mut self,
        alloc: Global,
        announced: &Announced,
    ) -> Result<Learned, LearnFault>
        requires { IsLog self.old }
        ensures answer { GivesUnless learn_fault.Memory (λ learned. learned) result
            (learned self.old.directory announced.now) }
        ensures ok { OnOk result (parts_of self.new ≡ learning (parts_of self.old) announced.now) }
        ensures err { OnErr result (parts_of self.new ≡ parts_of self.old) }
        ensures kept { IsLog self.new }
    {
        match self.take_key(alloc, announced) {
            Ok(learned) => Ok(learned),
            Err(fault) => Err(fault),
        }
    }

    /// Announces the next key, and adopts it.
    fn announce(&mut self, alloc: Global, next: &LmsPublic) -> Result<RollDue, RollFault>
        ensures answer { GivesUnless roll_fault.Memory (λ due.
            due) result (announced (state_in self.old).past.signed
            (log_party (state_in self.old).me) next.now) }
        ensures ok { OnOk result (parts_of self.new ≡ rolling (parts_of self.old) next.now) }
        ensures err { OnErr result (parts_of self.new ≡ parts_of self.old) }
        ensures tables { self.new.tables ≡ self.old.tables }
    {
        let party = Role::LogServer.party(self.number);
        let mut directory = self.directory.copy(alloc)?;
        directory.adopt(alloc, party, self.past.signed.generation(), *next)?;
        let due = self.past.signed.roll(alloc, party, next)?;
        self.directory = directory;
        Ok(due)
    }

    /// `EpochLog::roll`.
    pub(crate) fn roll(&mut self, alloc: Global, next: &LmsPublic) -> Result<RollDue, RollFault>
        requires { IsLog self.old }
        ensures answer { GivesUnless roll_fault.Memory (λ due.
            due) result (announced (state_in self.old).past.signed
            (log_party (state_in self.old).me) next.now) }
        ensures ok { OnOk result (parts_of self.new ≡ rolling (parts_of self.old) next.now) }
        ensures err { OnErr result (parts_of self.new ≡ parts_of self.old) }
        ensures kept { IsLog self.new }
    {
        key_told(next);
        match self.announce(alloc, next) {
            Ok(due) => Ok(due),
            Err(fault) => Err(fault),
        }
    }
}
