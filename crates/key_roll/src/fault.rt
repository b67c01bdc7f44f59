ghost use Rattle.std.specs.Prelude.{◌≡◌};
ghost use Rattle.key_roll.specs.declared.fault.RollFault.TheVariants.{Memory};

use std::alloc::AllocError;
use thiserror::Error;

/// Why a book did not roll.
#[derive(Clone, Copy, Debug, Error, PartialEq, Eq)]
pub enum RollFault {
    /// The newest generation is the last, 999.
    #[error("the last generation has no next")]
    Last,
    /// Memory ran out.
    #[error("memory ran out")]
    Memory,
}

impl From<AllocError> for RollFault {
    ghost from_gives = { λ _ e. e ≡ Memory };

    fn from(_error: AllocError) -> RollFault {
        RollFault::Memory
    }
}
