use crate::Permit;
use std::marker::Model;

/// A staple as a journal has it: what an owner signed once, where all that a staple needs held.
///
/// Only the text of a journal makes one, and the owner that signs it.
#[derive(Debug, Drop)]
pub struct KeptStaple {
    pub(crate) draft: u64,
    pub(crate) epoch: u64,
    pub(crate) channel: [u8; 32],
}

// Clauses see the three parts.
impl Model for KeptStaple {
    ghost use Rattle.owner_keeper.specs.Stapling.{StapleParts};

    ghost Value = { StapleParts };

    ghost view = { λ s. record { draft = s.draft; epoch = s.epoch; channel = s.channel } };
}

impl KeptStaple {
    ghost use Rattle.std.specs.Prelude.{◌≡◌};
    ghost use Rattle.owner_keeper.specs.Stapling.{permit_of, staple_at};

    /// The staple of an epoch for what is allowed.
    pub(crate) fn new(permit: &Permit, epoch: u64) -> KeptStaple
        ensures { result ≡ staple_at permit.now epoch }
    {
        KeptStaple {
            draft: permit.draft,
            epoch,
            channel: permit.channel,
        }
    }

    /// The number of the draft.
    pub fn draft(&self) -> u64
        ensures { result ≡ self.now.draft }
    {
        self.draft
    }

    /// What has to be allowed for it.
    pub(crate) fn permit(&self) -> Permit
        ensures { result ≡ permit_of self.now }
    {
        Permit {
            draft: self.draft,
            channel: self.channel,
        }
    }

    /// The same once more.
    pub(crate) fn copy(&self) -> KeptStaple
        ensures { result ≡ self.now }
    {
        KeptStaple {
            draft: self.draft,
            epoch: self.epoch,
            channel: self.channel,
        }
    }
}
