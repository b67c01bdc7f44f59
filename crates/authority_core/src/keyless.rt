ghost use Rattle.std.specs.Prelude.{◌≡◌, true, IfOk, IsOk, Err, None, Some, Ok, is_none, is_some, OnOk, OnErr};
ghost use Rattle.std.specs.Option.{option_map};
ghost use Rattle.ar_base.specs.Gives.{GivesOrWants, with_error};
ghost use Rattle.ar_message.specs.Messages.{IsMessage, message_in};
ghost use Rattle.authority_core.specs.Checked.{ChecksBy, FailsByFault, KeepsAnswers, TellsAsBefore, TellsBy};
ghost use Rattle.authority_core.specs.EndorseRow.{asked_of, endorse_row, outcome_by};
ghost use Rattle.authority_core.specs.Keyed.{SendsBy};
ghost use Rattle.authority_core.specs.RollRows.{roll_row};
ghost use Rattle.authority_core.specs.Row.{asked_in, message_row, row};
ghost use Rattle.authority_core.specs.State.{StepsBy, most_sent};
ghost use Rattle.owner_check.specs.Answers.{forgotten, learnt};
ghost use Rattle.authority_core.specs.declared.refusal.AuthorityRefusal.TheVariants as refusal;

use crate::refusal::AuthorityRefusal;
use crate::state::AuthorityState;
use ar_bytes::are_bytes;
use ar_cert::Cert;
use ar_message::laws::only_texts_are_read;
use ar_message::{Message, Unsigned};
use keyed_core::Keyless;
use lms_tree::LmsPublic;
use owner_check::OwnerCheck;
use std::alloc::{AllocError, Global};

/// An authority without its keys: what stands under a lock.
///
/// Where a signature of its own is due, what it sends has zero bytes; `ar_message::fill` writes the signature there.
#[derive(Drop)]
pub struct AuthorityCore<C: OwnerCheck> {
    /// Its number, the keys that it knows, and what it remembers.
    pub state: AuthorityState,
    /// The check that is asked before a certificate is endorsed; `None` once the authority has retired.
    pub check: Option<C>,
}

impl<C: OwnerCheck> AuthorityCore<C> {
    /// Whether the authority has retired: it endorses no more, and confirms and rolls as before.
    pub fn retired(&self) -> bool
        ensures { result ≡ is_none self.now.check }
    {
        self.check.is_none()
    }

    /// Drops the check. It takes no memory.
    pub fn retire(&mut self)
        ensures check { self.new.check ≡ None }
        ensures state { self.new.state ≡ self.old.state }
    {
        self.check = None;
    }

    // The row of a request to endorse. A retired authority endorses nothing.
    fn endorse(
        &mut self,
        alloc: Global,
        owner: u16,
        cert: Cert,
    ) -> Result<Unsigned, AuthorityRefusal>
        ensures row { StepsBy result self.old.state self.new.state
            (endorse_row self.old.state (is_none self.old.check) owner cert (outcome_by result)) }
        ensures checks { ChecksBy C.told C.answers self.old.check self.new.check
            (Some (asked_of cert)) result }
        ensures fault { FailsByFault C.faults self.old.check self.new.check result }
    {
        match &mut self.check {
            None => Err(AuthorityRefusal::NotForAuthority),
            Some(check) => self.state.endorse(alloc, owner, cert, check),
        }
    }

    // The row of a message.
    #[tactic(auto, unfolding(crate::specs::Row::message_row))]
    fn take(&mut self, alloc: Global, message: Message) -> Result<Unsigned, AuthorityRefusal>
        requires { IsMessage message }
        ensures row { StepsBy result self.old.state self.new.state
            (message_row self.old.state (is_none self.old.check) message (outcome_by result)) }
        ensures checks { ChecksBy C.told C.answers self.old.check self.new.check
            (asked_in (Ok message)) result }
        ensures fault { FailsByFault C.faults self.old.check self.new.check result }
    {
        match message {
            Message::EndorseAsk { owner, cert } => self.endorse(alloc, owner, cert),
            message => self.state.take(alloc, message),
        }
    }

    /// Takes a message: what the authority sends for it, with zero bytes where a signature of its own is due, or why it
    /// refuses.
    ///
    /// The answer is that of `specs/Row.antt`, by what the check answered; `Memory` may stand in its place, but not in
    /// that of `Form`. The check is asked at most once, after all memory was taken, and in no step but that of a request to
    /// endorse: its list then has one answer more. `CheckFault` comes only where the count of its faults rose, and
    /// `NotOwner` exactly where it answered no. After a refusal the authority stands as before, and so does the check after
    /// each but `CheckFault`, `NotOwner` and `Spent` of such a request.
    pub fn step(&mut self, alloc: Global, bytes: &[u8]) -> Result<Unsigned, AuthorityRefusal>
        // The answer, and where the authority stands then.
        ensures row { StepsBy result self.old.state self.new.state
            (row self.old.state (is_none self.old.check) (message_in bytes.now)
            (outcome_by result)) }
        // The check is there where it was, its list has this answer behind it where it was asked, what it tells stays, and the
        // answer is by what it tells.
        ensures checks { ChecksBy C.told C.answers self.old.check self.new.check
            (asked_in (message_in bytes.now)) result }
        // When it failed.
        ensures fault { FailsByFault C.faults self.old.check self.new.check result }
        // When memory may be wanting.
        ensures memory { result ≡ Err refusal.Memory → IsOk (message_in bytes.now) }
    {
        let message = read(alloc, bytes)?;
        self.take(alloc, message)
    }

    /// Enters the Roll of the next key, and takes the key into the authority's own directory, which is not seen as a
    /// party's Roll. What it sends goes to the logs.
    ///
    /// `next` is the key that the authority's ring makes as its next. It is `LastGeneration` exactly where the newest
    /// generation is 999, but that `Memory` may come in place of it. After a refusal the authority stands as before. All
    /// memory is taken before the first change.
    pub fn roll(&mut self, alloc: Global, next: &LmsPublic) -> Result<Unsigned, AuthorityRefusal>
        ensures row { StepsBy result self.old.state self.new.state
            (roll_row self.old.state next.now) }
        ensures check { self.new.check ≡ self.old.check }
    {
        self.state.roll(alloc, next)
    }

    /// The check learns that the name has the key. The only error is want of memory, and then it is as before.
    ///
    /// The authority has not retired.
    pub fn teach(&mut self, alloc: Global, name: &[u8], key: &[u8; 56]) -> Result<(), AllocError>
        requires { is_some self.old.check ≡ true }
        ensures state { self.new.state ≡ self.old.state }
        ensures retired { is_none self.new.check ≡ is_none self.old.check }
        ensures ok { OnOk result
            (TellsBy (option_map (learnt name.now key.now)) C.told self.old.check self.new.check) }
        ensures err { OnErr result (TellsAsBefore C.told self.old.check self.new.check) }
        ensures answers { KeepsAnswers C.answers self.old.check self.new.check }
    {
        match &mut self.check {
            Some(check) => check.learn(alloc, name, key),
            None => unreachable!(),
        }
    }

    /// The check forgets that the name has the key. It takes no memory.
    ///
    /// The authority has not retired.
    pub fn forget(&mut self, name: &[u8], key: &[u8; 56])
        requires { is_some self.old.check ≡ true }
        ensures state { self.new.state ≡ self.old.state }
        ensures retired { is_none self.new.check ≡ is_none self.old.check }
        ensures told { TellsBy (option_map
            (forgotten name.now key.now)) C.told self.old.check self.new.check }
        ensures answers { KeepsAnswers C.answers self.old.check self.new.check }
    {
        match &mut self.check {
            Some(check) => check.forget(name, key),
            None => unreachable!(),
        }
    }
}

impl<C: OwnerCheck> Keyless for AuthorityCore<C> {
    type Refusal = AuthorityRefusal;

    ghost book = { λ c. c.state.past.signed };

    ghost signature_len = { λ c. c.state.signature_len };

    ghost most_sent = { most_sent };

    ghost goes_on = { λ keys result old new key. SendsBy keys result old.state new.state
        (roll_row old.state key) };

    ghost keeps = { λ old new. new.check ≡ old.check };

    fn no_memory(&self) -> AuthorityRefusal {
        AuthorityRefusal::Memory
    }

    fn enter_roll(
        &mut self,
        alloc: Global,
        next: &LmsPublic,
    ) -> Result<Unsigned, AuthorityRefusal> {
        self.roll(alloc, next)
    }
}

// The message with this text, each of whose fields is in its range. It asks no check, so none fails.
#[tactic(auto, using(crate::proofs::Faults::read_no_fault))]
fn read(alloc: Global, bytes: &[u8]) -> Result<Message, AuthorityRefusal>
    ensures answer { GivesOrWants refusal.Memory (λ message.
        message) result (with_error refusal.Form (message_in bytes.now)) }
    ensures range { IfOk result IsMessage }
    ensures fault { result ≡ Err refusal.CheckFault → ⊥ }
{
    only_texts_are_read();
    are_bytes(bytes);
    match Message::read(alloc, bytes) {
        Ok(message) => Ok(message),
        Err(fault) => Err(AuthorityRefusal::from(fault)),
    }
}
