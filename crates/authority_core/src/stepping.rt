//! The rows of an authority, without its keys. Each keeps its record honest.

ghost use Rattle.std.specs.Prelude.{◌≡◌, ◌<◌, ◌≤◌, length, drop, IfOk, map, Err, Ok};
ghost use Rattle.std.specs.Result.{result_and};
ghost use Rattle.ar_base.specs.Faults.{HasRisen};
ghost use Rattle.ar_base.specs.Gives.{GivesUnless};
ghost use Rattle.ar_message.specs.Messages.{IsConfirming, message_text};
ghost use Rattle.ar_message.specs.declared.address.Address.TheVariants as address;
ghost use Rattle.ar_message.specs.declared.message.Message.TheVariants as message;
ghost use Rattle.ar_message.specs.Filling.{zeros};
ghost use Rattle.ar_statement.specs.Claims.{authority_party, client_party, owner_party, party};
ghost use Rattle.authority_core.specs.Confirming.{confirming_with, confirming_checks, kept_of, parties_of, votes_claimed};
ghost use Rattle.party_keys.specs.Signers.{seen_in};
ghost use Rattle.authority_core.specs.ConfirmRows.{confirmation_with, half_claims, half_confirmed_row, log_claims, log_confirmed_row};
ghost use Rattle.authority_core.specs.EndorseRow.{SaysAsTold, answers_after, asked_of, endorsed_message, endorsing, outcome_by};
ghost use Rattle.authority_core.specs.RollRows.{roll_message, roll_note_row, roll_row};
ghost use Rattle.authority_core.specs.State.{StepsBy, prepared};
ghost use Rattle.authority_core.specs.declared.refusal.AuthorityRefusal.TheVariants as refusal;

use crate::confirming::{check_content, half_claims, kept_of, log_claims, parties_of, seen_in};
use crate::entries::{Approved, Kept};
use crate::refusal::AuthorityRefusal;
use crate::reply::{Prepared, discard, prepare, send, send_entered};
use crate::state::AuthorityState;
use crate::verifying::VerifiedVotes;
use ar_cert::Cert;
use ar_council::key_told;
use ar_message::{Address, Confirming, Message, Signature, Unsigned};
use ar_statement::{Party, Role, SeenText};
use lms_tree::LmsPublic;
use owner_check::OwnerCheck;
use party_keys::{Announced, Claimed};
use std::alloc::{AllocError, Global};

/// What the check is asked of a certificate.
fn asked_of(cert: Cert) -> Approved
    ensures { result ≡ asked_of cert }
{
    Approved {
        key: cert.subject.bytes(),
        certificate: cert.digest(),
        name: cert.name,
    }
}

impl AuthorityState {
    // ---- an endorsement

    // The message to the owner who asked.
    fn prepare_endorsed(
        &self,
        alloc: Global,
        owner: u16,
        certificate: &[u8; 32],
    ) -> Result<Prepared, AllocError>
        ensures { IfOk result (λ p.
            p ≡ prepared self.now.signature_len (address.One (owner_party owner))
            (message_text (endorsed_message self.now owner certificate.now))) }
    {
        let message = Message::Endorsed {
            owner,
            authority: self.me,
            certificate: *certificate,
            signature: Signature::zeros(alloc, self.signature_len as usize)?,
        };
        let to = Address::One(Role::Owner.party(owner));
        prepare(alloc, to, message, self.signature_len)
    }

    /// The row of a request to endorse, where the authority has not retired. All memory is taken before the check is
    /// asked.
    #[tactic(auto, unfolding(crate::specs::EndorseRow::endorsing))]
    pub(crate) fn endorse<C: OwnerCheck>(
        &mut self,
        alloc: Global,
        owner: u16,
        cert: Cert,
        check: &mut C,
    ) -> Result<Unsigned, AuthorityRefusal>
        ensures row { StepsBy result self.old self.new
            (endorsing self.old owner (asked_of cert) (outcome_by result)) }
        ensures answers { C.answers check.new
            ≡ answers_after (C.answers check.old) (asked_of cert) result }
        ensures told { C.told check.new ≡ C.told check.old }
        ensures by { SaysAsTold (C.told check.old) (C.answers check.old) (asked_of cert) result }
        ensures fault { result ≡ Err refusal.CheckFault
            → HasRisen (C.faults check.old) (C.faults check.new) }
    {
        let asked = asked_of(cert);
        let ready = self.prepare_endorsed(alloc, owner, &asked.certificate)?;
        match self.past.endorse(alloc, self.me, asked, check) {
            Ok(due) => Ok(send(ready, due)),
            Err(refusal) => {
                discard(ready);
                Err(refusal)
            }
        }
    }

    // ---- confirmations

    // The checks of a confirmation that is for the authority `chosen`. Behind so many claims stand those of the votes.
    #[tactic(auto, unfolding(crate::specs::Confirming::confirming_checks))]
    fn check(
        &self,
        alloc: Global,
        chosen: u16,
        parties: &[Party],
        claims: &[Claimed],
        front: usize,
        part: &Confirming,
    ) -> Result<(), AuthorityRefusal>
        requires few { front ≤ length claims.now }
        requires votes { drop front claims.now ≡ votes_claimed part.now }
        ensures { GivesUnless refusal.Memory (λ u.
            u) result (confirming_checks self.now chosen parties.now claims.now part.now) }
    {
        if chosen != self.me {
            return Err(AuthorityRefusal::NotForAuthority);
        }
        self.keys.check_signers(parties, claims, front, part)?;
        check_content(alloc, self.keys.quorum(), part)
    }

    // The checks of a log's confirmation, and what is seen where it passes them.
    fn accept_log(
        &self,
        alloc: Global,
        part: &Confirming,
        kept: &Kept,
    ) -> Result<Vec<SeenText>, AuthorityRefusal>
        requires { kept.now ≡ kept_of part.now }
        ensures { GivesUnless refusal.Memory (λ seen. seen.items) result
            (result_and (confirming_checks self.now part.now.first
            (parties_of part.now part.now.second) (log_claims part.now) part.now)
            (Ok (map seen_in (log_claims part.now)))) }
    {
        let parties = parties_of(alloc, part, part.second)?;
        let claims = log_claims(alloc, part, kept)?;
        self.check(alloc, part.first, &parties, &claims, 1, part)?;
        let seen = seen_in(alloc, &claims)?;
        Ok(seen)
    }

    // The checks of a confirmation that a first authority confirmed, and what is seen where it passes them.
    fn accept_half(
        &self,
        alloc: Global,
        part: &Confirming,
        kept: &Kept,
        first_signature: &[u8],
    ) -> Result<Vec<SeenText>, AuthorityRefusal>
        requires { kept.now ≡ kept_of part.now }
        ensures { GivesUnless refusal.Memory (λ seen. seen.items) result
            (result_and (confirming_checks self.now part.now.second
            (parties_of part.now part.now.first)
            (half_claims part.now first_signature.now) part.now)
            (Ok (map seen_in (half_claims part.now first_signature.now)))) }
    {
        let parties = parties_of(alloc, part, part.first)?;
        let claims = half_claims(alloc, part, kept, first_signature)?;
        self.check(alloc, part.second, &parties, &claims, 2, part)?;
        let seen = seen_in(alloc, &claims)?;
        Ok(seen)
    }

    // The message to the second authority.
    fn prepare_half(&self, alloc: Global, part: Confirming) -> Result<Prepared, AllocError>
        ensures { IfOk result (λ p.
            p ≡ prepared self.now.signature_len (address.One (authority_party part.second))
            (message_text (message.HalfConfirmed part (zeros self.now.signature_len)))) }
    {
        let to = Address::One(Role::Authority.party(part.second));
        let message = Message::HalfConfirmed {
            part,
            first_signature: Signature::zeros(alloc, self.signature_len as usize)?,
        };
        prepare(alloc, to, message, self.signature_len)
    }

    // The message to the client.
    fn prepare_confirmation(
        &self,
        alloc: Global,
        part: Confirming,
        first_signature: Signature,
    ) -> Result<Prepared, AllocError>
        ensures { IfOk result (λ p.
            p ≡ prepared self.now.signature_len (address.One (client_party part.client))
            (message_text (confirmation_with part first_signature
            (zeros self.now.signature_len)))) }
    {
        let to = Address::One(Role::Client.party(part.client));
        let message = Message::Confirmation {
            client: part.client,
            epoch: part.epoch,
            name: part.name,
            root: part.root,
            body: part.body,
            log: part.log,
            log_signature: part.signature,
            first: part.first,
            first_signature,
            second: part.second,
            second_signature: Signature::zeros(alloc, self.signature_len as usize)?,
        };
        prepare(alloc, to, message, self.signature_len)
    }

    /// The row of a log's confirmation.
    #[tactic(auto, unfolding(crate::specs::ConfirmRows::log_confirmed_row, crate::specs::Confirming::confirming_with))]
    pub(crate) fn log_confirmed(
        &mut self,
        alloc: Global,
        part: Confirming,
    ) -> Result<Unsigned, AuthorityRefusal>
        requires { IsConfirming part }
        ensures { StepsBy result self.old self.new (log_confirmed_row self.old part) }
    {
        let kept = kept_of(alloc, &part)?;
        let seen = self.accept_log(alloc, &part, &kept)?;
        let verified = VerifiedVotes::of(alloc, &part)?;
        let ready = self.prepare_half(alloc, part)?;
        self.keys.keep(verified);
        let entered = self.past.confirm(alloc, self.me, &seen, kept);
        send_entered(ready, entered)
    }

    /// The row of a confirmation that a first authority confirmed.
    #[tactic(auto, unfolding(crate::specs::ConfirmRows::half_confirmed_row, crate::specs::Confirming::confirming_with))]
    pub(crate) fn half_confirmed(
        &mut self,
        alloc: Global,
        part: Confirming,
        first_signature: Signature,
    ) -> Result<Unsigned, AuthorityRefusal>
        requires { IsConfirming part }
        ensures { StepsBy result self.old self.new
            (half_confirmed_row self.old part first_signature) }
    {
        let kept = kept_of(alloc, &part)?;
        let seen = self.accept_half(alloc, &part, &kept, first_signature.as_slice())?;
        let verified = VerifiedVotes::of(alloc, &part)?;
        let ready = self.prepare_confirmation(alloc, part, first_signature)?;
        self.keys.keep(verified);
        let entered = self.past.confirm(alloc, self.me, &seen, kept);
        send_entered(ready, entered)
    }

    // ---- Rolls

    /// The row of another party's Roll.
    #[tactic(auto, unfolding(crate::specs::RollRows::roll_note_row))]
    pub(crate) fn roll_note(
        &mut self,
        alloc: Global,
        announced: &Announced,
    ) -> Result<Unsigned, AuthorityRefusal>
        ensures { StepsBy result self.old self.new (roll_note_row self.old announced.now) }
    {
        self.past.learn(alloc, &mut self.keys, announced)?;
        Ok(Unsigned::nothing(alloc))
    }

    // The message to the logs.
    fn prepare_roll(&self, alloc: Global, next: &LmsPublic) -> Result<Prepared, AllocError>
        ensures { IfOk result (λ p.
            p ≡ prepared self.now.signature_len address.Logs
            (message_text (roll_message self.now next.now))) }
    {
        let message = Message::RollNote {
            party: Role::Authority.party(self.me),
            generation: self.past.signed().generation(),
            key: *next,
            signature: Signature::zeros(alloc, self.signature_len as usize)?,
        };
        prepare(alloc, Address::Logs, message, self.signature_len)
    }

    /// The row of the order to roll.
    #[tactic(auto, unfolding(crate::specs::RollRows::roll_row))]
    pub(crate) fn roll(
        &mut self,
        alloc: Global,
        next: &LmsPublic,
    ) -> Result<Unsigned, AuthorityRefusal>
        ensures { StepsBy result self.old self.new (roll_row self.old next.now) }
    {
        key_told(next);
        let ready = self.prepare_roll(alloc, next)?;
        match self.past.roll(alloc, &mut self.keys, self.me, next) {
            Ok(due) => Ok(send(ready, due)),
            Err(refusal) => {
                discard(ready);
                Err(refusal)
            }
        }
    }
}
