ghost use Rattle.std.specs.Prelude.{◌≡◌};
ghost use Rattle.ar_seats.specs.declared.split_fault.SplitFault.TheVariants.{Memory};

use std::alloc::AllocError;
use thiserror::Error;

/// Why a seat was not split.
#[derive(Clone, Copy, Debug, PartialEq, Eq, Error)]
pub enum SplitFault {
    /// The seat's share is 1.
    #[error("the share is too small to be split")]
    Narrow,
    /// Memory ran out.
    #[error("memory ran out")]
    Memory,
}

impl From<AllocError> for SplitFault {
    ghost from_gives = { λ _ e. e ≡ Memory };

    fn from(_error: AllocError) -> SplitFault {
        SplitFault::Memory
    }
}
