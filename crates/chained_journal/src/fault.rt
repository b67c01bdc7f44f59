ghost use Rattle.std.specs.Prelude.{◌≡◌};
ghost use Rattle.chained_journal.specs.declared.fault.BeginFault.TheVariants as begins;
ghost use Rattle.chained_journal.specs.declared.fault.OpenFault.TheVariants as opens;

use kept_disk::Failed;
use std::alloc::AllocError;
use thiserror::Error;

/// Why a file was not opened as a journal.
#[derive(Clone, Copy, Debug, PartialEq, Eq, Error)]
pub enum OpenFault {
    /// A call of the disk failed.
    #[error("the disk failed")]
    DiskFault,
    /// Nothing was begun: there are at most 48 bytes, and each is 0.
    #[error("no journal was begun here")]
    NotBegun,
    /// The file does not begin with the mark.
    #[error("the file is no journal of this kind")]
    NotJournal,
    /// The file begins with the mark, and not with the header: it is another's.
    #[error("the journal is another's")]
    NotOwn,
    /// The gate at this byte is open, and behind it is no whole record whose chain is right; or at 0, there is a piece of a header.
    #[error("the journal is damaged at byte {0}")]
    Damaged(u64),
    /// The gate at this byte is neither open nor shut.
    #[error("the gate at byte {0} was written in part")]
    Unsure(u64),
    /// The party does not take the text behind the gate at this byte.
    #[error("the text of the record at byte {0} is not taken")]
    NotTaken(u64),
    /// The journal has not the texts that were witnessed, so many.
    #[error("the journal has not the {0} texts that were witnessed")]
    Older(u64),
    /// Memory was wanting.
    #[error("memory is wanting")]
    Memory,
}

impl From<AllocError> for OpenFault {
    ghost from_gives = { λ _ e. e ≡ opens.Memory };

    fn from(_: AllocError) -> Self {
        OpenFault::Memory
    }
}

impl From<Failed> for OpenFault {
    ghost from_gives = { λ _ e. e ≡ opens.DiskFault };

    fn from(_: Failed) -> Self {
        OpenFault::DiskFault
    }
}

/// Why no journal was begun in a file.
#[derive(Clone, Copy, Debug, PartialEq, Eq, Error)]
pub enum BeginFault {
    /// A call of the disk failed.
    #[error("the disk failed")]
    DiskFault,
    /// Something stands there: more than 48 bytes, or one that is not 0.
    #[error("something stands in the file already")]
    Begun,
}

impl From<Failed> for BeginFault {
    ghost from_gives = { λ _ e. e ≡ begins.DiskFault };

    fn from(_: Failed) -> Self {
        BeginFault::DiskFault
    }
}
