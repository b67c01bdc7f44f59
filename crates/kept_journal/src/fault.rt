ghost use Rattle.std.specs.Prelude.{◌≡◌};
ghost use Rattle.kept_journal.specs.declared.fault.OpenFault.TheVariants as faults;
ghost use Rattle.kept_journal.specs.declared.fault.ReplayFault.TheVariants as replay;

use ar_io::Failed;
use std::alloc::AllocError;
use thiserror::Error;

/// Why a file was not opened as a journal.
#[derive(Clone, Copy, Debug, PartialEq, Eq, Error)]
pub enum OpenFault {
    /// A call of the disk failed.
    #[error("the disk failed")]
    DiskFault,
    /// A file of more than 9 bytes does not begin with the journal's mark.
    #[error("the file is no journal of this kind")]
    NotJournal,
    /// The gate at this byte is open, and behind it is no whole record, or one that the party does not take there.
    #[error("the record at byte {0} is broken, or is not taken")]
    BadRecord(u64),
    /// Memory was wanting.
    #[error("memory is wanting")]
    Memory,
}

impl From<AllocError> for OpenFault {
    ghost from_gives = { λ _ e. e ≡ faults.Memory };

    fn from(_: AllocError) -> Self {
        OpenFault::Memory
    }
}

impl From<Failed> for OpenFault {
    ghost from_gives = { λ _ e. e ≡ faults.DiskFault };

    fn from(_: Failed) -> Self {
        OpenFault::DiskFault
    }
}

/// Why a party did not take a text again.
#[derive(Clone, Copy, Debug, PartialEq, Eq, Error)]
pub enum ReplayFault {
    /// It cannot have taken this text.
    #[error("the text is not taken")]
    Stuck,
    /// Memory was wanting.
    #[error("memory is wanting")]
    Memory,
}

impl From<AllocError> for ReplayFault {
    ghost from_gives = { λ _ e. e ≡ replay.Memory };

    fn from(_: AllocError) -> Self {
        ReplayFault::Memory
    }
}
