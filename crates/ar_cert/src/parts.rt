//! The parts of a change, where they stand.

use crate::cert::Cert;
use crate::change::{Change, Endorsement};
use ar_base::Items;
use std::marker::Model;

/// What a change is made of, where it stands: a change is written by it that is no value of its own.
#[derive(Drop)]
pub struct ChangeParts<'a> {
    /// The certificate.
    pub cert: &'a Cert,
    /// At most 8 endorsements.
    pub endorsements: &'a [Endorsement],
    /// The handover, at most 65,535 bytes.
    pub handover: Option<&'a Items<u8>>,
    /// The objection, at most 65,535 bytes.
    pub objection: Option<&'a Items<u8>>,
}

// Clauses see the change that they make.
impl<'a> Model for ChangeParts<'a> {
    ghost use Rattle.std.specs.Prelude.{◌≤◌, length, IfSome};
    ghost use Rattle.std.specs.Option.{option_map};
    ghost use Rattle.ar_cert.specs.Changes.{Change, IsSignature};

    ghost Value = { Change };

    ghost view = { λ p. record {
      cert = p.cert.now;
      endorsements = p.endorsements.now;
      handover = option_map (λ s. s.now) p.handover;
      objection = option_map (λ s. s.now) p.objection;
    } };

    ghost invariant = { λ p. (length p.endorsements.now ≤ 8)
        × IfSome (option_map (λ s. s.now) p.handover) IsSignature
        × IfSome (option_map (λ s. s.now) p.objection) IsSignature };
}

impl Change {
    ghost use Rattle.std.specs.Prelude.{◌≡◌};

    /// The parts of the change.
    pub fn parts(&self) -> ChangeParts<'_>
        ensures { result ≡ self.now }
    {
        ChangeParts {
            cert: &self.cert,
            endorsements: self.endorsements.as_slice(),
            handover: self.handover.as_ref(),
            objection: self.objection.as_ref(),
        }
    }
}
