ghost use Rattle.std.specs.Prelude.{◌≡◌, ◌<◌, false, Err, OnErr, OnOk};
ghost use Rattle.ar_base.specs.Gives.{GivesUnless, with_error};
ghost use Rattle.key_roll.specs.Entry.{after_entry, entered};
ghost use Rattle.key_roll.specs.Rolls.{is_roll};
ghost use Rattle.ar_base.specs.Faults.{HasRisen};
ghost use Rattle.ar_statement.specs.Claims.{authority_party, claim_of, endorse, text_of};
ghost use Rattle.authority_core.specs.Calls.{after_endorse, confirming, fresh_authority, kept_claim};
ghost use Rattle.authority_core.specs.EndorseRow.{SaysAsTold, answers_after, endorse_due, outcome_by};
ghost use Rattle.authority_core.specs.RollRows.{LearnsBy, RollsBy};
ghost use Rattle.authority_core.specs.State.{EntersBy, entering};
ghost use Rattle.authority_core.specs.Refusals.{of_book};
ghost use Rattle.authority_core.specs.declared.refusal.AuthorityRefusal.TheVariants as refusal;
ghost use Rattle.authority_core.specs.declared.refusal.AuthorityRefusal.TheVariants.{CheckFault};

use crate::entries::{Approved, Kept};
use crate::lists::{put_asked, put_kept};
use crate::refusal::{AuthorityRefusal, of_learning};
use crate::verifying::VerifyingDirectory;
use ar_council::{see, see_each, seen_text};
use ar_statement::{Party, Role, SeenText, Statement, confirmation_statement};
use key_roll::{LAST_GENERATION, RollBook, RollDue};
use lms_tree::LmsPublic;
use owner_check::OwnerCheck;
use party_keys::Announced;
use std::alloc::Global;
use std::marker::Model;

/// What an authority remembers.
#[derive(Debug, Drop)]
pub struct AuthorityRecord {
    pub(crate) seen: Vec<SeenText>,
    pub(crate) signed: RollBook,
    pub(crate) asked: Vec<Approved>,
    pub(crate) kept: Vec<Kept>,
}

// Clauses see the lists and the book.
impl Model for AuthorityRecord {
    ghost use Rattle.authority_core.specs.Record.{AuthorityRecord};

    ghost Value = { AuthorityRecord };

    ghost view = { λ r. record {
      seen = r.seen.items;
      signed = r.signed.book;
      asked = r.asked.items;
      kept = r.kept.items;
    } };
}

/// The statement by which a party confirms what is kept.
pub(crate) fn kept_statement(party: Party, kept: &Kept) -> Statement<'_>
    ensures { claim_of result ≡ kept_claim party kept.now }
{
    confirmation_statement(
        party,
        kept.epoch,
        kept.name.view(),
        kept.certificate,
        kept.root,
    )
}

// Enters a statement, which is no Roll, in an authority's book.
fn enter(
    signed: &mut RollBook,
    alloc: Global,
    statement: &Statement,
) -> Result<RollDue, AuthorityRefusal>
    requires { is_roll (text_of (claim_of statement.now)) ≡ false }
    ensures answer { GivesUnless refusal.Memory (λ due.
        due) result (with_error of_book
        (entered signed.old.book (text_of (claim_of statement.now)))) }
    ensures ok { OnOk result
        (signed.new.book ≡ after_entry signed.old.book (text_of (claim_of statement.now))) }
    ensures err { OnErr result (signed.new ≡ signed.old) }
{
    let due = signed.enter(alloc, statement)?;
    Ok(due)
}

// Enters in an authority's book that it confirms what is kept.
fn enter_kept(
    signed: &mut RollBook,
    alloc: Global,
    me: u16,
    kept: &Kept,
) -> Result<RollDue, AuthorityRefusal>
    ensures answer { GivesUnless refusal.Memory (λ due.
        due) result (with_error of_book
        (entered signed.old.book (text_of (kept_claim (authority_party me) kept.now)))) }
    ensures ok { OnOk result
        (signed.new.book ≡ after_entry signed.old.book
        (text_of (kept_claim (authority_party me) kept.now))) }
    ensures err { OnErr result (signed.new ≡ signed.old) }
{
    let statement = kept_statement(Role::Authority.party(me), kept);
    enter(signed, alloc, &statement)
}

impl AuthorityRecord {
    /// What an authority remembers that has done nothing yet, whose keys have this many leaves each. It takes no memory.
    pub(crate) fn new(alloc: Global, leaves: u32) -> AuthorityRecord
        requires { 0 < leaves }
        ensures { result ≡ fresh_authority leaves }
    {
        AuthorityRecord {
            seen: Vec::new(alloc),
            signed: RollBook::new(alloc, leaves),
            asked: Vec::new(alloc),
            kept: Vec::new(alloc),
        }
    }

    /// Whose statements were seen, in the order in which they were.
    pub fn seen(&self) -> &[SeenText]
        ensures { result.now ≡ self.now.seen }
    {
        &self.seen
    }

    /// What was signed, and with which keys.
    pub fn signed(&self) -> &RollBook
        ensures { result.now.book ≡ self.now.signed }
    {
        &self.signed
    }

    /// What the check said yes to, in order.
    pub fn asked(&self) -> &[Approved]
        ensures { result.now ≡ self.now.asked }
    {
        &self.asked
    }

    /// What is kept of logs' confirmations, in order.
    pub fn kept(&self) -> &[Kept]
        ensures { result.now ≡ self.now.kept }
    {
        &self.kept
    }

    // Asks the check, and enters the endorsement where it says yes. All memory is taken before the check is asked.
    pub(crate) fn endorse<C: OwnerCheck>(
        &mut self,
        alloc: Global,
        me: u16,
        asked: Approved,
        check: &mut C,
    ) -> Result<RollDue, AuthorityRefusal>
        ensures row { EntersBy result self.old self.new
            (endorse_due me self.old asked (outcome_by result)) (after_endorse me self.old asked) }
        ensures answers { C.answers check.new ≡ answers_after (C.answers check.old) asked result }
        ensures told { C.told check.new ≡ C.told check.old }
        ensures by { SaysAsTold (C.told check.old) (C.answers check.old) asked result }
        ensures fault { result ≡ Err CheckFault
            → HasRisen (C.faults check.old) (C.faults check.new) }
    {
        self.asked.reserve(1)?;
        self.signed.reserve(alloc, 1)?;
        if !check.ask(alloc, asked.name.text(), &asked.key)? {
            return Err(AuthorityRefusal::NotOwner);
        }
        let statement = Statement::Endorse {
            authority: me,
            certificate: asked.certificate,
        };
        let due = self.signed.enter(alloc, &statement)?;
        put_asked(&mut self.asked, asked);
        Ok(due)
    }

    // Takes the key that a party announces into the directory, and sees its Roll.
    pub(crate) fn learn(
        &mut self,
        alloc: Global,
        keys: &mut VerifyingDirectory,
        announced: &Announced,
    ) -> Result<(), AuthorityRefusal>
        ensures { LearnsBy result self.old self.new keys.old keys.new announced.now }
    {
        self.seen.reserve(1)?;
        match keys.learn(alloc, announced) {
            Ok(_) => {
                see(
                    &mut self.seen,
                    seen_text(announced.party, &announced.roll()),
                );
                Ok(())
            }
            Err(fault) => Err(of_learning(announced.party, announced.generation, fault)),
        }
    }

    // Enters the authority's own Roll, and takes its next key into the directory. All memory is taken before the first
    // change.
    pub(crate) fn roll(
        &mut self,
        alloc: Global,
        keys: &mut VerifyingDirectory,
        me: u16,
        next: &LmsPublic,
    ) -> Result<RollDue, AuthorityRefusal>
        ensures { RollsBy result self.old self.new keys.old keys.new me next.now }
    {
        let party = Role::Authority.party(me);
        let generation = self.signed.generation();
        if generation == LAST_GENERATION {
            return Err(AuthorityRefusal::LastGeneration);
        }
        self.signed.reserve(alloc, 1)?;
        keys.adopt(alloc, party, generation, *next)?;
        match self.signed.roll(alloc, party, next) {
            Ok(due) => Ok(due),
            Err(_) => unreachable!(),
        }
    }

    // Enters the authority's own confirmation, and keeps what it confirms and saw.
    pub(crate) fn confirm(
        &mut self,
        alloc: Global,
        me: u16,
        seen: &[SeenText],
        kept: Kept,
    ) -> Result<RollDue, AuthorityRefusal>
        ensures { EntersBy result self.old self.new
            (entering self.old (kept_claim (authority_party me) kept))
            (confirming me self.old seen.now kept) }
    {
        self.seen.reserve(seen.len())?;
        self.kept.reserve(1)?;
        self.signed.reserve(alloc, 1)?;
        match enter_kept(&mut self.signed, alloc, me, &kept) {
            Ok(due) => {
                see_each(&mut self.seen, seen);
                put_kept(&mut self.kept, kept);
                Ok(due)
            }
            Err(refusal) => Err(refusal),
        }
    }
}
