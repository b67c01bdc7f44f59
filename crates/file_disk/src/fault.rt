ghost use Rattle.std.specs.Prelude.{◌≡◌};
ghost use Rattle.file_disk.specs.declared.fault.FileFault.TheVariants as file_fault;

use std::alloc::AllocError;
use std::io;
use thiserror::Error;

/// Why a file cannot be opened.
#[derive(Clone, Copy, Debug, Error)]
pub enum FileFault {
    /// There is no memory for it.
    #[error("out of memory")]
    Memory,
    /// Another process has it open as a `FileDisk`, or this one.
    #[error("the file is in use")]
    Busy,
    /// What stands at its name is no regular file.
    #[error("no regular file")]
    NoFile,
    /// A call of the system failed.
    #[error("{0}")]
    System(io::Error),
}

impl From<AllocError> for FileFault {
    ghost from_gives = { λ _ e. e ≡ file_fault.Memory };

    fn from(_: AllocError) -> FileFault {
        FileFault::Memory
    }
}

impl From<io::Error> for FileFault {
    ghost from_gives = { λ error e. e ≡ file_fault.System error };

    fn from(error: io::Error) -> FileFault {
        FileFault::System(error)
    }
}
