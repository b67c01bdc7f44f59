ghost use Rattle.std.specs.Prelude.{◌≡◌};
ghost use Rattle.ar_cert.specs.declared.fault.CertFault.TheVariants.{Memory};

use std::alloc::{AllocError, AllocFailed};
use thiserror::Error;

/// Why bytes were not read as a certificate or a change.
#[derive(Clone, Copy, Debug, PartialEq, Eq, Error)]
pub enum CertFault {
    /// The bytes are no such text. The first field that fails begins at this place, which is its
    /// offset in the whole input; of bytes left over it is the first of them.
    #[error("the field at byte {0} is of no such text")]
    Form(usize),
    /// Memory ran out.
    #[error("memory ran out")]
    Memory,
}

impl From<AllocError> for CertFault {
    ghost from_gives = { λ _ e. e ≡ Memory };

    fn from(_e: AllocError) -> CertFault {
        CertFault::Memory
    }
}

impl<T: Drop> From<AllocFailed<T>> for CertFault {
    ghost from_gives = { λ _ e. e ≡ Memory };

    fn from(_e: AllocFailed<T>) -> CertFault {
        CertFault::Memory
    }
}
