ghost use Rattle.std.specs.Prelude.{◌≡◌, Err};
ghost use Rattle.ar_statement.specs.Claims.{authority_party, endorse, text_of};
ghost use Rattle.party_keys.specs.Signatures.{verified};
ghost use Rattle.owner_core.specs.Rows.{roll_refusal, verified_as};

use crate::drafts;
use crate::owner::Owner;
use crate::refusal::OwnerRefusal;
use ar_base::Items;
use ar_cert::Endorsement;
use ar_message::{Message, Sent, Signature};
use ar_statement::{Party, Role, Statement, Text};
use party_keys::{Announced, Directory, LearnFault, VerifyFault};
use std::alloc::Global;

/// Why a signature of this party is refused.
fn refusal_of(signer: Party, fault: VerifyFault) -> OwnerRefusal
    ensures { verified_as signer (Err fault) ≡ Err result }
{
    match fault {
        VerifyFault::Unknown(party) => OwnerRefusal::Unknown(party),
        VerifyFault::Bad(k) => OwnerRefusal::BadSignature(signer, k),
    }
}

/// Why the announcement of a key is refused.
fn roll_refusal(party: Party, generation: u32, fault: LearnFault) -> OwnerRefusal
    ensures { result ≡ roll_refusal party generation fault }
{
    match fault {
        LearnFault::Unknown => OwnerRefusal::Unknown(party),
        LearnFault::Bad(k) => OwnerRefusal::BadSignature(party, k),
        LearnFault::Other => OwnerRefusal::OtherRoll(party, generation),
        LearnFault::Memory => OwnerRefusal::Memory,
    }
}

/// Tests that the authority has signed its endorsement of the certificate with this digest.
fn verify(
    directory: &Directory,
    authority: u16,
    certificate: [u8; 32],
    signature: &[u8],
) -> Result<(), OwnerRefusal>
    ensures { result ≡ verified_as (authority_party authority)
        (verified directory.now (authority_party authority)
        (text_of (endorse authority certificate)) signature.now) }
{
    let signer = Role::Authority.party(authority);
    let text = Text::of(&Statement::Endorse {
        authority,
        certificate,
    });
    match directory.verify(signer, text.as_bytes(), signature) {
        Ok(()) => Ok(()),
        Err(fault) => Err(refusal_of(signer, fault)),
    }
}

/// The endorsement of an authority by this signature.
fn endorsement(authority: u16, signature: Signature) -> Endorsement
    ensures { result ≡ record { authority = authority; signature = signature } }
{
    Endorsement {
        authority,
        signature: Items::from_vec(signature.bytes),
    }
}

impl Owner {
    ghost use Rattle.std.specs.Prelude.{◌≡◌, Ok, Err, IsOk};
    ghost use Rattle.ar_message.specs.Messages.{message_in};
    ghost use Rattle.party_keys.specs.Learning.{Announced};
    ghost use Rattle.owner_core.specs.declared.refusal.OwnerRefusal.TheVariants.{Memory};
    ghost use Rattle.owner_core.specs.Rows.{Answers, endorsed_row, message_row, roll_row, step_row};

    /// Takes an endorsement for the owner with this number.
    fn take_endorsed(
        &mut self,
        alloc: Global,
        owner: u16,
        authority: u16,
        certificate: [u8; 32],
        signature: Signature,
    ) -> Result<Sent, OwnerRefusal>
        ensures { Answers (λ s.
            s) self.old self.new result
            (endorsed_row self.old owner authority certificate signature) }
    {
        if owner != self.number {
            return Err(OwnerRefusal::NotForOwner);
        }
        verify(
            &self.directory,
            authority,
            certificate,
            signature.as_slice(),
        )?;
        let endorsement = endorsement(authority, signature);
        drafts::endorse(&mut self.drafts, &certificate, endorsement)?;
        Ok(Sent::nothing(alloc))
    }

    /// Learns the next key of a party.
    fn take_roll(&mut self, alloc: Global, announced: &Announced) -> Result<Sent, OwnerRefusal>
        ensures { Answers (λ s. s) self.old self.new result (roll_row self.old announced.now) }
    {
        match self.directory.learn(alloc, announced) {
            Ok(_) => Ok(Sent::nothing(alloc)),
            Err(fault) => Err(roll_refusal(announced.party, announced.generation, fault)),
        }
    }

    /// Takes a message.
    fn take(&mut self, alloc: Global, message: Message) -> Result<Sent, OwnerRefusal>
        ensures { Answers (λ s. s) self.old self.new result (message_row self.old message) }
    {
        match message {
            Message::Endorsed {
                owner,
                authority,
                certificate,
                signature,
            } => self.take_endorsed(alloc, owner, authority, certificate, signature),
            Message::RollNote {
                party,
                generation,
                key,
                signature,
            } => {
                let signature = signature.as_slice();
                self.take_roll(
                    alloc,
                    &Announced {
                        party,
                        generation,
                        key,
                        signature,
                    },
                )
            }
            _ => Err(OwnerRefusal::NotForOwner),
        }
    }

    /// Takes a message that came. An owner takes endorsements and announcements of keys, and
    /// answers nothing.
    ///
    /// The first refusal of these is the answer: `Form` (O1) where the bytes are no message;
    /// `NotForOwner` (O2) where it is neither an Endorsed for this owner nor a RollNote; `Unknown`
    /// (O3) where the directory has no such signer; `BadSignature` (O4) where the signer has not
    /// signed it, for an Endorsed the authority's endorsement of the digest; then for an Endorsed
    /// `NoDraft` (O5) where no draft has the digest, and `Full` (O6) where the draft has 8
    /// endorsements of others; for a RollNote `OtherRoll` (O8) where another key is known as the
    /// next.
    ///
    /// An endorsement that is verified, of an authority that the draft has already, changes
    /// nothing; a key that is known already as the next neither. So a message that comes twice does
    /// no harm; one that was lost has changed nothing, and `begin` asks for an endorsement again.
    /// Want of memory may stand in the place of each refusal but O1.
    pub fn step(&mut self, alloc: Global, bytes: &[u8]) -> Result<Sent, OwnerRefusal>
        ensures answer { Answers (λ s. s) self.old self.new result (step_row self.old bytes.now) }
        ensures memory { result ≡ Err Memory → IsOk (message_in bytes.now) }
    {
        let message = Message::read(alloc, bytes)?;
        self.take(alloc, message)
    }
}
