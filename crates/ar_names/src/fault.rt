ghost use Rattle.std.specs.Prelude.{◌≡◌};
ghost use Rattle.ar_names.specs.declared.fault.NameFault.TheVariants.{Memory};

use std::alloc::AllocError;
use thiserror::Error;

/// Why a text was not read as a name.
#[derive(Clone, Copy, Debug, PartialEq, Eq, Error)]
pub enum NameFault {
    /// The text is no name; its first fault is at this place.
    #[error("no name, at place {0}")]
    Refused(usize),
    /// Memory ran out.
    #[error("memory ran out")]
    Memory,
}

impl From<AllocError> for NameFault {
    ghost from_gives = { λ _ e. e ≡ Memory };

    fn from(_e: AllocError) -> NameFault {
        NameFault::Memory
    }
}
