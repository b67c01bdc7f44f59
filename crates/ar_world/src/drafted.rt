//! Drafts of a script.

use ar_cert::Cert;
use std::marker::Model;

/// A draft: the number of its owner, and the certificate.
#[derive(Drop)]
pub(crate) struct Drafted {
    pub(crate) owner: u16,
    pub(crate) cert: Cert,
}

// Clauses see both.
impl Model for Drafted {
    ghost use Rattle.ar_world.specs.State.{Drafted as Parts};

    ghost Value = { Parts };

    ghost view = { λ d. record { owner = d.owner; cert = d.cert } };
}
