ghost use Rattle.std.specs.Prelude.{◌≡◌};
ghost use Rattle.log_journal.specs.declared.refusal.KeptRefusal.TheVariants as refusals;

use log_core::LogRefusal;
use std::alloc::AllocError;
use thiserror::Error;

/// Why a kept log did not answer.
#[derive(Clone, Copy, Debug, PartialEq, Eq, Error)]
pub enum KeptRefusal {
    /// The log refuses the input. The log and the disk are as they were.
    #[error("the log refuses: {0}")]
    Log(LogRefusal),
    /// A call of the disk failed. The log took the input, and its file has the inputs from before it, or this one too; each
    /// later call is `Reopen`.
    #[error("the disk failed")]
    DiskFault,
    /// A call of the disk failed before: the file is to be opened anew.
    #[error("the log is to be opened again")]
    Reopen,
    /// Memory was wanting. The log and the disk are as they were.
    #[error("memory is wanting")]
    Memory,
}

impl From<AllocError> for KeptRefusal {
    ghost from_gives = { λ _ e. e ≡ refusals.Memory };

    fn from(_: AllocError) -> Self {
        KeptRefusal::Memory
    }
}
