ghost use Rattle.std.specs.Prelude.{◌≡◌};
ghost use Rattle.party_keys.specs.Signers.{all_known, all_signed, is_known, seen_in, signed_as, signer_fault, signers_answer};

use crate::Directory;
use crate::fault::{SignerFault, VerifyFault};
use ar_statement::{Party, SeenText, Text};
use std::marker::Model;

/// A text that a party is said to have signed, and the signature.
#[derive(Debug, Drop)]
pub struct Claimed<'a> {
    party: Party,
    text: Text,
    signature: &'a [u8],
}

// Clauses see the party, the text and the signature.
impl<'a> Model for Claimed<'a> {
    ghost use Rattle.party_keys.specs.Signers.{Claimed};

    ghost Value = { Claimed };

    ghost view = { λ c. record { party = c.party; text = c.text; signature = c.signature.now } };
}

impl<'a> Claimed<'a> {
    /// That the party signed this text, as the signature is to show.
    pub fn new(party: Party, text: Text, signature: &'a [u8]) -> Claimed<'a>
        ensures { result ≡ record { party = party; text = text; signature = signature.now } }
    {
        Claimed {
            party,
            text,
            signature,
        }
    }

    /// The text with its party, as it is seen once the signature was accepted.
    pub fn seen(&self) -> SeenText
        ensures { result ≡ seen_in self.now }
    {
        SeenText {
            party: self.party,
            text: self.text,
        }
    }
}

/// Why the signature of a party was not accepted.
fn signer_fault(party: Party, fault: VerifyFault) -> SignerFault
    ensures { result ≡ signer_fault party fault }
{
    match fault {
        VerifyFault::Unknown(_) => SignerFault::Unknown(party),
        VerifyFault::Bad(k) => SignerFault::Bad(party, k),
    }
}

impl Directory {
    // Whether the party is in the directory.
    fn is_known(&self, party: Party) -> bool
        ensures { result ≡ is_known self.now party }
    {
        self.key(party, 0).is_some()
    }

    // Whether a claim's signature is accepted.
    fn signed_as(&self, claim: &Claimed) -> Result<(), SignerFault>
        ensures { result ≡ signed_as self.now claim.now }
    {
        match self.verify(claim.party, claim.text.as_bytes(), claim.signature) {
            Ok(()) => Ok(()),
            Err(fault) => Err(signer_fault(claim.party, fault)),
        }
    }

    /// Whether each of the parties is in the directory; else it is `Unknown` with the first that is not.
    pub fn all_known(&self, parties: &[Party]) -> Result<(), SignerFault>
        ensures { result ≡ all_known self.now parties.now }
    {
        for party in parties {
            if !self.is_known(*party) {
                return Err(SignerFault::Unknown(*party));
            }
        }
        Ok(())
    }

    /// Whether `verify` accepts each of the claims; else the first that it does not, with its number.
    pub fn all_signed(&self, claims: &[Claimed]) -> Result<(), SignerFault>
        ensures { result ≡ all_signed self.now claims.now }
    {
        for claim in claims {
            self.signed_as(claim)?;
        }
        Ok(())
    }

    /// Whether each of the parties is in the directory, and then whether `verify` accepts each of the claims.
    /// Both lists are looked at in order, and the first that fails is the answer.
    pub fn check_signers(&self, parties: &[Party], claims: &[Claimed]) -> Result<(), SignerFault>
        ensures { result ≡ signers_answer self.now parties.now claims.now }
    {
        self.all_known(parties)?;
        self.all_signed(claims)
    }
}
