use crate::endorsing::{has_endorsed, insert, place_of};
use crate::refusal::OwnerRefusal;
use ar_base::Items;
use ar_cert::{Cert, ChangeParts, Endorsement, MOST_ENDORSEMENTS};
use std::alloc::Global;
use std::marker::Model;

/// A certificate on its way to the logs, with what vouches for it so far.
#[derive(Debug, Drop)]
pub(crate) struct Draft {
    digest: [u8; 32],
    cert: Cert,
    endorsements: Vec<Endorsement>,
    handover: Option<Items<u8>>,
}

// Clauses see the change that the draft is. The digest is that of its certificate.
impl Model for Draft {
    ghost use Rattle.std.specs.Prelude.{◌≡◌, None, IfSome};
    ghost use Rattle.ar_cert.specs.Certificate.{digest_of};
    ghost use Rattle.ar_cert.specs.Changes.{AreEndorsements, Change, IsSignature};

    ghost Value = { Change };

    ghost view = { λ d. record {
      cert = d.cert;
      endorsements = d.endorsements.items;
      handover = d.handover;
      objection = None;
    } };

    ghost invariant = { λ d. (d.digest ≡ digest_of d.cert) × AreEndorsements d.endorsements.items
        × IfSome d.handover IsSignature };
}

impl Draft {
    ghost use Rattle.std.specs.Prelude.{◌≡◌, ◌<◌, ◌^◌, Ok, length};
    ghost use Rattle.ar_base.specs.Gives.{StepsUnless};
    ghost use Rattle.ar_cert.specs.Certificate.{digest_of};
    ghost use Rattle.owner_core.specs.Drafts.{endorsed, first_draft, handed_over};
    ghost use Rattle.owner_core.specs.declared.refusal.OwnerRefusal.TheVariants.{Memory};

    /// The draft that a certificate begins as.
    pub(crate) fn new(alloc: Global, cert: Cert) -> Draft
        ensures { result ≡ first_draft cert }
    {
        Draft {
            digest: cert.digest(),
            cert,
            endorsements: Vec::new(alloc),
            handover: None,
        }
    }

    /// The digest of the certificate.
    pub(crate) fn digest(&self) -> &[u8]
        ensures { result.now ≡ digest_of self.now.cert }
    {
        &self.digest
    }

    /// Takes an endorsement, unless its authority has endorsed the draft.
    pub(crate) fn endorse(&mut self, endorsement: Endorsement) -> Result<(), OwnerRefusal>
        ensures { StepsUnless Memory (λ draft _.
            draft) result self.old self.new (endorsed endorsement self.old) }
    {
        if has_endorsed(endorsement.authority, &self.endorsements) {
            return Ok(());
        }
        if self.endorsements.len() >= MOST_ENDORSEMENTS {
            return Err(OwnerRefusal::Full);
        }
        let place = place_of(endorsement.authority, &self.endorsements);
        insert(&mut self.endorsements, place, endorsement)
    }

    /// Takes a handover in place of the one that it has.
    pub(crate) fn attach(&mut self, handover: Vec<u8>)
        requires { length handover.items < 2 ^ 16 }
        ensures { handed_over handover.items self.old ≡ Ok self.new }
    {
        self.handover = Some(Items::from_vec(handover));
    }

    /// The parts of the change that the draft is now.
    pub(crate) fn parts(&self) -> ChangeParts<'_>
        ensures { result ≡ self.now }
    {
        ChangeParts {
            cert: &self.cert,
            endorsements: &self.endorsements,
            handover: self.handover.as_ref(),
            objection: None,
        }
    }
}
