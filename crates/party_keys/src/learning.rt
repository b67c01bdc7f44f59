ghost use Rattle.std.specs.Prelude.{◌≡◌, Ok, Err, OnOk, OnErr};
ghost use Rattle.ar_statement.specs.Claims.{claim_of};
ghost use Rattle.ar_base.specs.Gives.{GivesOrWants};
ghost use Rattle.party_keys.specs.Learning.{after_adopting, after_learning, is_key, learned, roll_claim, with_next};
ghost use Rattle.party_keys.specs.declared.fault.LearnFault.TheVariants.{Memory};
ghost use Rattle.party_keys.specs.declared.learning.Learned.TheVariants.{New};

use crate::Directory;
use crate::fault::LearnFault;
use ar_statement::{Party, Role, Statement, Text};
use lms_tree::LmsPublic;
use std::alloc::{AllocError, Global};
use std::marker::Model;

/// What a directory learnt of an announced key.
#[derive(Clone, Copy, Debug, PartialEq, Eq)]
pub enum Learned {
    /// The key is known from now on.
    New,
    /// The key was known already as the next of the announced generation.
    Again,
}

/// The key that a party announces as the next behind its key of a generation, with its signature of the Roll
/// that says so.
#[derive(Debug, Drop)]
pub struct Announced<'a> {
    /// The log or authority that signs.
    pub party: Party,
    /// The generation of the key that signs, from 0.
    pub generation: u32,
    /// The public key of the next generation.
    pub key: LmsPublic,
    /// The party's signature of the Roll.
    pub signature: &'a [u8],
}

// Clauses see the four fields.
impl<'a> Model for Announced<'a> {
    ghost use Rattle.party_keys.specs.Learning.{Announced};

    ghost Value = { Announced };

    ghost view = { λ a. record {
      party = a.party;
      generation = a.generation;
      key = a.key;
      signature = a.signature.now;
    } };
}

impl<'a> Announced<'a> {
    /// The Roll that the party signs.
    pub fn roll(&self) -> Statement<'static>
        ensures { claim_of result ≡ roll_claim self.now }
    {
        Statement::Roll {
            signer: self.party,
            generation: self.generation,
            key: self.key.bytes(),
        }
    }
}

/// Whether two keys are one.
fn is_key(one: &LmsPublic, other: &LmsPublic) -> bool
    ensures { result ≡ is_key one.now other.now }
{
    one.bytes() == other.bytes()
}

impl Directory {
    /// Takes the key that a party announces as the next behind its key of a generation.
    ///
    /// It is `New`, and then the key is known; or `Again` exactly where it was known already as the next.
    /// The faults come in this order: `Unknown` and `Bad(k)` as for `verify`; `Other` exactly where another
    /// key is known as the next. `Memory` comes only in place of `New`. After `Again` and after an error the
    /// directory is as it was.
    #[tactic(auto, unfolding(crate::specs::Learning::learned))]
    pub fn learn(&mut self, alloc: Global, announced: &Announced) -> Result<Learned, LearnFault>
        // What is learnt.
        ensures answer { GivesOrWants Memory (λ learned.
            learned) result (learned self.old announced.now) }
        // When memory may be wanting.
        ensures memory { result ≡ Err Memory → learned self.old announced.now ≡ Ok New }
        // What it leaves.
        ensures ok { OnOk result (self.new ≡ after_learning self.old announced.now) }
        ensures err { OnErr result (self.new ≡ self.old) }
    {
        let Announced {
            party,
            generation,
            key,
            signature,
        } = *announced;
        let text = Text::of(&announced.roll());
        self.verify(party, text.as_bytes(), signature)?;
        match self.key(party, generation as usize + 1) {
            Some(known) if is_key(known, &key) => Ok(Learned::Again),
            Some(_) => Err(LearnFault::Other),
            None => {
                self.put(alloc, party, generation, key)?;
                Ok(Learned::New)
            }
        }
    }

    /// Takes a party's own next key, without a signature. Where the party is in the directory and this
    /// generation is known of it, the key is known as the next then, and what was known in its place or
    /// behind that is dropped; else nothing changes. The only error is want of memory, and then the
    /// directory is as it was.
    pub fn adopt(
        &mut self,
        alloc: Global,
        party: Party,
        generation: u32,
        key: LmsPublic,
    ) -> Result<(), AllocError>
        ensures ok { OnOk result (self.new ≡ after_adopting self.old party generation key) }
        ensures err { OnErr result (self.new ≡ self.old) }
    {
        if self.key(party, generation as usize).is_none() {
            return Ok(());
        }
        self.put(alloc, party, generation, key)
    }

    /// Makes a key the next behind a generation of the party, and the newest.
    fn put(
        &mut self,
        alloc: Global,
        party: Party,
        generation: u32,
        key: LmsPublic,
    ) -> Result<(), AllocError>
        ensures ok { OnOk result (self.new ≡ with_next self.old party generation key) }
        ensures err { OnErr result (self.new ≡ self.old) }
    {
        let generation = generation as usize;
        match party.role {
            Role::LogServer => self.logs.put(alloc, party.number, generation, key),
            Role::Authority => self.authorities.put(alloc, party.number, generation, key),
            Role::Owner | Role::Client => Ok(()),
        }
    }
}
