//! Whose signatures stand in a message, in the order in which they are verified.

ghost use Rattle.std.specs.Prelude.{◌≡◌, ◌++◌, ◌∷◌, [], Err, map, flat_map, OnOk};
ghost use Rattle.ar_statement.specs.Claims.{authority_party, claim_of, endorse, signer_of};
ghost use Rattle.ar_claims.specs.Lists.{endorsements_in, claimed_statuses, claimed_votes};
ghost use Rattle.log_sending.specs.Signers.{known, of_signers, signers};
ghost use Rattle.party_keys.specs.Signers.{signed_by};
ghost use Rattle.log_sending.specs.Queued.{unqueued};

use crate::LogRefusal;
use crate::queued::is_queued;
use ar_cert::{Change, Endorsement};
use ar_council::{status_statement, vote_statement};
use ar_message::{LogStatus, Vote};
use ar_statement::{Party, Statement, Text};
use party_keys::{Claimed, Directory, SignerFault};
use std::alloc::{AllocError, Global};
use std::marker::Model;
use vote_quorum::Value;

/// The signed statements of a message. It borrows their signatures.
#[derive(Drop)]
pub struct Signers<'a> {
    claims: Vec<Claimed<'a>>,
    // Who made each of them.
    parties: Vec<Party>,
}

// Clauses see the statements, each with its party and signature.
impl<'a> Model for Signers<'a> {
    ghost use Rattle.std.specs.Prelude.{◌≡◌, List, map};
    ghost use Rattle.party_keys.specs.Signers.{Claimed};

    ghost Value = { List Claimed };

    ghost view = { λ s. s.claims.items };

    ghost invariant = { λ s. s.parties.items ≡ map (λ c. c.party) s.claims.items };
}

/// The refusal of a signer that is not accepted.
fn refusal(fault: SignerFault) -> LogRefusal
    ensures { result ≡ of_signers fault }
{
    match fault {
        SignerFault::Unknown(party) => LogRefusal::Unknown(party),
        SignerFault::Bad(party, number) => LogRefusal::BadSignature(party, number),
    }
}

/// Whether each of these parties is known; else the first that is not.
pub fn known(directory: &Directory, parties: &[Party]) -> Result<(), LogRefusal>
    ensures { result ≡ known directory.now parties.now }
{
    match directory.all_known(parties) {
        Ok(()) => Ok(()),
        Err(fault) => Err(refusal(fault)),
    }
}

impl<'a> Signers<'a> {
    /// None.
    pub fn new(alloc: Global) -> Signers<'a>
        ensures { result ≡ [] }
    {
        Signers {
            claims: Vec::new(alloc),
            parties: Vec::new(alloc),
        }
    }

    /// One more behind the others.
    pub fn add(&mut self, statement: &Statement, signature: &'a [u8]) -> Result<(), AllocError>
        ensures { OnOk result
            (self.new ≡ self.old
            ++ signed_by (signer_of (claim_of statement.now))
            (claim_of statement.now) signature.now ∷ []) }
    {
        let party = statement.signer();
        self.parties.reserve(1)?;
        self.claims
            .push(Claimed::new(party, Text::of(statement), signature))?;
        self.parties.push_reserved(party);
        Ok(())
    }

    /// Whether each signer is known, and then each signature is valid; else the first refusal of these.
    pub fn check(&self, directory: &Directory) -> Result<(), LogRefusal>
        ensures { result ≡ signers directory.now self.now }
    {
        match directory.check_signers(&self.parties, &self.claims) {
            Ok(()) => Ok(()),
            Err(fault) => Err(refusal(fault)),
        }
    }

    /// The endorsements of a change, in their order.
    pub fn add_endorsements(&mut self, change: &'a Change) -> Result<(), AllocError>
        ensures { OnOk result (self.new ≡ self.old ++ endorsements_in change.now) }
    {
        let certificate = change.cert.digest();
        self.add_each(certificate, change.endorsements.as_slice())
    }

    // The endorsements of the certificate with this digest.
    fn add_each(
        &mut self,
        certificate: [u8; 32],
        endorsements: &'a [Endorsement],
    ) -> Result<(), AllocError>
        ensures { OnOk result (self.new ≡ self.old ++ map (λ e.
            signed_by (authority_party e.authority)
            (endorse e.authority certificate) e.signature) endorsements.now) }
    {
        if let [endorsement, rest @ ..] = endorsements {
            let authority = endorsement.authority;
            let statement = Statement::Endorse {
                authority,
                certificate,
            };
            self.add(&statement, endorsement.signature.as_slice())?;
            self.add_each(certificate, rest)?;
        }
        Ok(())
    }

    /// The votes of logs for a value in an epoch, in their order.
    pub fn add_votes(
        &mut self,
        epoch: u64,
        value: &Value,
        votes: &'a [Vote],
    ) -> Result<(), AllocError>
        ensures { OnOk result (self.new ≡ self.old ++ claimed_votes epoch value.now votes.now) }
    {
        if let [vote, rest @ ..] = votes {
            let statement = vote_statement(vote.log, epoch, value);
            self.add(&statement, vote.signature.as_slice())?;
            self.add_votes(epoch, value, rest)?;
        }
        Ok(())
    }

    // The endorsements of a change, unless an equal one is queued.
    fn add_unqueued(&mut self, queue: &[Change], change: &'a Change) -> Result<(), AllocError>
        ensures { OnOk result
            (self.new ≡ self.old
            ++ flat_map endorsements_in (unqueued queue.now (change.now ∷ []))) }
    {
        if is_queued(queue, change) {
            return Ok(());
        }
        self.add_endorsements(change)
    }

    /// The endorsements of each change of which no equal one is queued, change by change.
    pub fn add_changes(&mut self, queue: &[Change], changes: &'a [Change]) -> Result<(), AllocError>
        ensures { OnOk result
            (self.new ≡ self.old ++ flat_map endorsements_in (unqueued queue.now changes.now)) }
    {
        if let [change, rest @ ..] = changes {
            self.add_unqueued(queue, change)?;
            self.add_changes(queue, rest)?;
        }
        Ok(())
    }

    /// The statuses of an epoch, in their order.
    pub fn add_statuses(&mut self, epoch: u64, statuses: &'a [LogStatus]) -> Result<(), AllocError>
        ensures { OnOk result (self.new ≡ self.old ++ claimed_statuses epoch statuses.now) }
    {
        if let [status, rest @ ..] = statuses {
            let statement = status_statement(status.log, epoch, &status.value);
            self.add(&statement, status.signature.as_slice())?;
            self.add_statuses(epoch, rest)?;
        }
        Ok(())
    }
}
