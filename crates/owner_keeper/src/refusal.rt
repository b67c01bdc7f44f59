ghost use Rattle.std.specs.Prelude.{◌≡◌};
ghost use Rattle.owner_core.specs.declared.refusal.OwnerRefusal.TheVariants as owner;
ghost use Rattle.owner_keeper.specs.declared.refusal.OwnerOrderRefusal.TheVariants as refusals;

use owner_core::OwnerRefusal;
use std::alloc::{AllocError, AllocFailed};
use thiserror::Error;

/// Why an owner does not do what it is asked. After each of these it is as before.
#[derive(Clone, Copy, Debug, PartialEq, Eq, Error)]
pub enum OwnerOrderRefusal {
    /// Its row refuses, or memory is wanting.
    #[error("{0}")]
    Owner(OwnerRefusal),
    /// It knows no certificate with this number.
    #[error("there is no such draft")]
    NoCertificate,
    /// A handover that is to be attached has more than 65,535 bytes, or more than 255 authorities are asked at once.
    #[error("the handover or the list of authorities is too long")]
    Long,
    /// The subject key of the draft to staple is not the owner's.
    #[error("the certificate has another key")]
    Foreign,
    /// A client with the owner's directory refuses the confirmation, by this check of its rule.
    #[error("the confirmation is refused by check {0}")]
    Unconfirmed(u8),
    /// By the confirmation its name has another certificate, or none.
    #[error("the name has another certificate, or none")]
    Superseded,
    /// No order allowed staples for the TLS key.
    #[error("the TLS key is not allowed")]
    NotAllowed,
    /// A staple of a later epoch was signed for the certificate, and this one was not.
    #[error("a staple of a later epoch was signed")]
    Older,
    /// No more leaves are left than staples leave to handovers and objections.
    #[error("the leaves that are left are kept for handovers and objections")]
    KeptBack,
}

impl From<OwnerRefusal> for OwnerOrderRefusal {
    ghost from_gives = { λ refusal e. e ≡ refusals.Owner refusal };

    fn from(refusal: OwnerRefusal) -> OwnerOrderRefusal {
        OwnerOrderRefusal::Owner(refusal)
    }
}

impl From<AllocError> for OwnerOrderRefusal {
    ghost from_gives = { λ _ e. e ≡ refusals.Owner owner.Memory };

    fn from(_error: AllocError) -> OwnerOrderRefusal {
        OwnerOrderRefusal::Owner(OwnerRefusal::Memory)
    }
}

impl<T: Drop> From<AllocFailed<T>> for OwnerOrderRefusal {
    ghost from_gives = { λ _ e. e ≡ refusals.Owner owner.Memory };

    fn from(_error: AllocFailed<T>) -> OwnerOrderRefusal {
        OwnerOrderRefusal::Owner(OwnerRefusal::Memory)
    }
}
