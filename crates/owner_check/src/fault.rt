ghost use Rattle.std.specs.Prelude.{◌≡◌};
ghost use Rattle.owner_check.specs.declared.fault.AskFault.TheVariants.{Memory};

use std::alloc::AllocError;
use thiserror::Error;

/// Why an owner check said neither yes nor no.
#[derive(Clone, Copy, Debug, PartialEq, Eq, Error)]
pub enum AskFault {
    /// The check failed. The count of its faults rose in that call.
    #[error("the owner check failed")]
    Failed,
    /// There was no memory to keep the answer.
    #[error("memory ran out")]
    Memory,
}

impl From<AllocError> for AskFault {
    ghost from_gives = { λ _ e. e ≡ Memory };

    fn from(_error: AllocError) -> AskFault {
        AskFault::Memory
    }
}
