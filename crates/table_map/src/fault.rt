ghost use Rattle.std.specs.Prelude.{◌≡◌};
ghost use Rattle.table_map.specs.declared.fault.ShownFault.TheVariants.{Memory};

use std::alloc::{AllocError, AllocFailed};
use thiserror::Error;

/// Why bytes show no directory.
#[derive(Clone, Copy, Debug, PartialEq, Eq, Error)]
pub enum ShownFault {
    /// They are cut short, a key's text is that of none, or there is no directory with these numbers.
    #[error("no directory is shown")]
    NoDirectory,
    /// Memory ran out.
    #[error("memory ran out")]
    Memory,
}

impl From<AllocError> for ShownFault {
    ghost from_gives = { λ _ e. e ≡ Memory };

    fn from(_error: AllocError) -> ShownFault {
        ShownFault::Memory
    }
}

impl<T: Drop> From<AllocFailed<T>> for ShownFault {
    ghost from_gives = { λ _ e. e ≡ Memory };

    fn from(_error: AllocFailed<T>) -> ShownFault {
        ShownFault::Memory
    }
}
