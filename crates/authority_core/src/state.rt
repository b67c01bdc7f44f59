//! Where an honest authority stands.

ghost use Rattle.std.specs.Prelude.{◌≡◌, ◌<◌, true};
ghost use Rattle.ar_council.specs.Council.{council_of};
ghost use Rattle.ar_message.specs.Messages.{IsMessage};
ghost use Rattle.authority_core.specs.Calls.{fresh_authority};
ghost use Rattle.authority_core.specs.Honest.{IsOfHonestAuthority};
ghost use Rattle.authority_core.specs.Row.{message_row};
ghost use Rattle.authority_core.specs.State.{IsAuthority, StepsBy};
ghost use Rattle.owner_check.specs.declared.answer.Outcome.TheVariants.{Yes};

use crate::record::AuthorityRecord;
use crate::refusal::AuthorityRefusal;
use crate::reply::drop_message;
use crate::verifying::VerifyingDirectory;
use ar_message::{Message, Unsigned};
use party_keys::{Announced, Directory};
use std::alloc::Global;
use std::marker::Model;

/// Where an authority stands: its number, the keys that it knows, how many bytes its signatures have, and what it
/// remembers. The record is an honest authority's.
#[derive(Debug, Drop)]
pub struct AuthorityState {
    pub(crate) me: u16,
    pub(crate) keys: VerifyingDirectory,
    pub(crate) signature_len: u16,
    pub(crate) past: AuthorityRecord,
}

// Clauses see all parts. The four clauses of an honest record are true of each.
impl Model for AuthorityState {
    ghost use Rattle.authority_core.specs.State.{AuthorityState, IsAuthority};

    ghost Value = { AuthorityState };

    ghost view = { λ s. record {
      me = s.me;
      keys = s.keys;
      signature_len = s.signature_len;
      past = s.past;
    } };

    ghost invariant = { λ s. IsAuthority
        (record { me = s.me; keys = s.keys; signature_len = s.signature_len; past = s.past }) };
}

impl AuthorityState {
    /// Where an authority stands that has done nothing yet. Its keys have this many leaves each, and its signatures this
    /// many bytes. It takes no memory.
    pub fn new(
        alloc: Global,
        me: u16,
        keys: Directory,
        leaves: u32,
        signature_len: u16,
    ) -> AuthorityState
        requires { 0 < leaves }
        ensures { result ≡ record {
          me = me;
          keys = keys;
          signature_len = signature_len;
          past = fresh_authority leaves;
        } }
    {
        let known = VerifyingDirectory::new(alloc, keys);
        let past = AuthorityRecord::new(alloc, leaves);
        AuthorityState {
            me,
            keys: known,
            signature_len,
            past,
        }
    }

    /// Tells a proof what is true of where the authority stands. It does nothing.
    pub fn told(&self)
        ensures { IsAuthority self.now }
    {
        let _me = self.me;
    }

    /// The number of the authority.
    pub fn number(&self) -> u16
        ensures { result ≡ self.now.me }
    {
        self.me
    }

    /// The keys that it knows.
    pub fn directory(&self) -> &Directory
        ensures { result.now ≡ self.now.keys }
    {
        self.keys.directory()
    }

    /// What it remembers, which is what an honest authority does.
    pub fn record(&self) -> &AuthorityRecord
        ensures value { result.now ≡ self.now.past }
        ensures honest { IsOfHonestAuthority (council_of self.now.keys) self.now.me self.now.past }
    {
        &self.past
    }

    /// The row of a message that is no request to endorse. To such a request it answers as an authority that has retired.
    #[tactic(auto, unfolding(crate::specs::Row::message_row))]
    pub(crate) fn take(
        &mut self,
        alloc: Global,
        message: Message,
    ) -> Result<Unsigned, AuthorityRefusal>
        requires { IsMessage message }
        ensures { StepsBy result self.old self.new (message_row self.old true message Yes) }
    {
        match message {
            Message::LogConfirmed { part } => self.log_confirmed(alloc, part),
            Message::HalfConfirmed {
                part,
                first_signature,
            } => self.half_confirmed(alloc, part, first_signature),
            Message::RollNote {
                party,
                generation,
                key,
                signature,
            } => {
                let signature = signature.as_slice();
                self.roll_note(
                    alloc,
                    &Announced {
                        party,
                        generation,
                        key,
                        signature,
                    },
                )
            }
            other => {
                drop_message(other);
                Err(AuthorityRefusal::NotForAuthority)
            }
        }
    }
}
