ghost use Rattle.std.specs.Prelude.{◌≡◌, ◌++◌, OnOk, OnErr, IfOk};

use crate::Cert;
use ar_base::Items;
use lms_tree::LmsPublic;
use std::alloc::Global;
use std::marker::Model;

/// The most endorsements of a change.
pub const MOST_ENDORSEMENTS: usize = 8;

/// The signature by which an authority vouches for a certificate.
#[derive(Debug, Drop)]
pub struct Endorsement {
    /// The number of the authority.
    pub authority: u16,
    /// Its signature of the statement that endorses the certificate's digest, at most 65,535 bytes.
    pub signature: Items<u8>,
}

// Clauses see the two fields.
impl Model for Endorsement {
    ghost use Rattle.ar_cert.specs.Changes.{Endorsement, IsSignature};

    ghost Value = { Endorsement };

    ghost view = { λ e. record { authority = e.authority; signature = e.signature } };

    ghost invariant = { λ e. IsSignature e.signature };
}

/// What was found of a handover: whether it is valid under this key.
#[derive(Clone, Copy, Debug)]
pub(crate) struct HandedOver {
    pub(crate) key: LmsPublic,
    pub(crate) valid: bool,
}

/// A certificate with what vouches for it.
#[derive(Debug, Drop)]
pub struct Change {
    /// The certificate that is to follow the name's newest one, or to be its first; of an objection the pending one.
    pub cert: Cert,
    /// At most 8 endorsements, by authorities whose numbers ascend strictly.
    pub endorsements: Items<Endorsement>,
    /// The signature by which the key of the certificate before agrees, at most 65,535 bytes.
    pub handover: Option<Items<u8>>,
    /// The signature by which the key of the certificate before objects to this one, at most 65,535
    /// bytes. With it there are no endorsements and no handover.
    pub objection: Option<Items<u8>>,
    // What was found when the handover was verified last. No clause sees it.
    pub(crate) handed: Option<HandedOver>,
}

// Clauses see the first four fields. What was found of the handover is what is true of it.
impl Model for Change {
    ghost use Rattle.std.specs.Prelude.{◌≡◌, ◌≤◌, length, IfSome};
    ghost use Rattle.ar_bytes.specs.Ascending.{Ascend};
    ghost use Rattle.ar_cert.specs.Certificate.{digest_of};
    ghost use Rattle.ar_cert.specs.Changes.{Change, IsSignature, IsEndorsement, StandsAlone};
    ghost use Rattle.ar_cert.specs.Judging.{is_signed};
    ghost use Rattle.ar_statement.specs.Claims.{text_of};
    ghost use Rattle.ar_statement.specs.Claims as claims;

    ghost Value = { Change };

    ghost view = { λ c. record {
      cert = c.cert;
      endorsements = c.endorsements;
      handover = c.handover;
      objection = c.objection;
    } };

    ghost invariant = { λ c. (length c.endorsements ≤ 8)
        × Ascend (λ v. v.authority) IsEndorsement 0 c.endorsements
        × IfSome c.handover IsSignature × IfSome c.objection IsSignature
        × IfSome c.objection (λ _. StandsAlone c.endorsements c.handover)
        × IfSome c.handed (λ h.
        is_signed h.key (text_of (claims.handover (digest_of c.cert))) c.handover ≡ h.valid) };
}

impl Change {
    ghost use Rattle.std.specs.Prelude.{◌≡◌, [], None};
    ghost use Rattle.ar_cert.specs.Changes.{IsChange};

    /// A certificate for which nothing vouches. It takes no memory.
    pub fn bare(alloc: Global, cert: Cert) -> Change
        ensures { result
            ≡ record { cert = cert; endorsements = []; handover = None; objection = None } }
    {
        Change {
            cert,
            endorsements: Items::new(alloc),
            handover: None,
            objection: None,
            handed: None,
        }
    }

    /// That each field is in its range, and that an objection stands alone.
    pub fn told(&self)
        ensures { IsChange self.now }
    {
        self.cert.told();
    }
}
