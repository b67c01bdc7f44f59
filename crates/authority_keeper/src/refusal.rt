ghost use Rattle.std.specs.Prelude.{◌≡◌};
ghost use Rattle.authority_core.specs.declared.refusal.AuthorityRefusal.TheVariants as authority;
ghost use Rattle.authority_keeper.specs.declared.refusal.AuthorityOrderRefusal.TheVariants as refusals;

use authority_core::AuthorityRefusal;
use std::alloc::AllocError;
use thiserror::Error;

/// Why an authority does not do what it is asked. After each of these it stands as before.
#[derive(Clone, Copy, Debug, PartialEq, Eq, Error)]
pub enum AuthorityOrderRefusal {
    /// Its row refuses, or memory is wanting.
    #[error("{0}")]
    Authority(AuthorityRefusal),
    /// It has retired, and has no check.
    #[error("the authority has retired")]
    Retired,
}

impl From<AuthorityRefusal> for AuthorityOrderRefusal {
    ghost from_gives = { λ refusal e. e ≡ refusals.Authority refusal };

    fn from(refusal: AuthorityRefusal) -> AuthorityOrderRefusal {
        AuthorityOrderRefusal::Authority(refusal)
    }
}

impl From<AllocError> for AuthorityOrderRefusal {
    ghost from_gives = { λ _ e. e ≡ refusals.Authority authority.Memory };

    fn from(_error: AllocError) -> AuthorityOrderRefusal {
        AuthorityOrderRefusal::Authority(AuthorityRefusal::Memory)
    }
}
