ghost use Rattle.std.specs.Prelude.{◌≡◌};
ghost use Rattle.desk_run.specs.declared.stop.Stop.TheVariants as stops;

use ar_io::Failed;
use std::alloc::AllocError;
use thiserror::Error;

/// Why a party does not go on before its lines end.
#[derive(Clone, Copy, Debug, PartialEq, Eq, Error)]
pub enum Stop {
    /// A call of the disk failed. The line that was read last has no answer: its text may stand in the journal.
    #[error("the disk failed")]
    Disk,
    /// A read of the source failed.
    #[error("a read failed")]
    Source,
    /// A write to the sink failed. What the last line asked stands in the journal.
    #[error("a write failed")]
    Sink,
    /// No newline came in 2^64 - 1 pieces, or 2^64 - 2 lines came.
    #[error("more came than can be counted")]
    Count,
    /// Memory ran out.
    #[error("memory ran out")]
    Memory,
}

impl From<AllocError> for Stop {
    ghost from_gives = { λ _ e. e ≡ stops.Memory };

    fn from(_error: AllocError) -> Stop {
        Stop::Memory
    }
}

/// That a read failed.
pub(crate) fn source_failed(_failed: Failed) -> Stop
    ensures { result ≡ stops.Source }
{
    Stop::Source
}

/// That a write failed.
pub(crate) fn sink_failed(_failed: Failed) -> Stop
    ensures { result ≡ stops.Sink }
{
    Stop::Sink
}
