ghost use Rattle.std.specs.Prelude.{◌≡◌};
ghost use Rattle.ar_io.specs.declared.faults.ReadFault.TheVariants.{Fault, Memory};

use std::alloc::AllocError;
use thiserror::Error;

/// A read or a write failed. The count of faults of its source or sink rose in that call.
#[derive(Clone, Copy, Debug, PartialEq, Eq, Error)]
#[error("a read or a write failed")]
pub struct Failed;

/// Why `read_all` gave no bytes.
#[derive(Clone, Copy, Debug, PartialEq, Eq, Error)]
pub enum ReadFault {
    /// A read failed.
    #[error("a read failed")]
    Fault,
    /// The source had more bytes than the limit.
    #[error("there are more bytes than the limit")]
    Long,
    /// There was no memory for the bytes.
    #[error("memory ran out")]
    Memory,
}

impl From<Failed> for ReadFault {
    ghost from_gives = { λ _ e. e ≡ Fault };

    fn from(_failed: Failed) -> ReadFault {
        ReadFault::Fault
    }
}

impl From<AllocError> for ReadFault {
    ghost from_gives = { λ _ e. e ≡ Memory };

    fn from(_error: AllocError) -> ReadFault {
        ReadFault::Memory
    }
}
