ghost use Rattle.std.specs.Prelude.{◌≡◌, ◌≤◌};
ghost use Rattle.ar_run.specs.Runs.{fault_status};
ghost use Rattle.ar_run.specs.declared.fault.Fault.TheVariants.{Source, Sink, Memory};

use std::alloc::AllocError;
use thiserror::Error;

/// Why a run gives no answer, or not the whole of it.
#[derive(Clone, Copy, Debug, PartialEq, Eq, Error)]
pub enum Fault {
    /// A read of the source failed.
    #[error("a read failed")]
    Source,
    /// A write to the sink failed.
    #[error("a write failed")]
    Sink,
    /// Memory ran out.
    #[error("memory ran out")]
    Memory,
}

impl Fault {
    /// The status of the run.
    pub fn status(&self) -> u8
        ensures status { result ≡ fault_status self.now }
        ensures bounds { (4 ≤ result) × (result ≤ 6) }
        ensures source { result ≡ 4 → self.now ≡ Source }
        ensures sink { result ≡ 5 → self.now ≡ Sink }
        ensures memory { result ≡ 6 → self.now ≡ Memory }
    {
        match self {
            Fault::Source => 4,
            Fault::Sink => 5,
            Fault::Memory => 6,
        }
    }
}

impl From<AllocError> for Fault {
    ghost from_gives = { λ _ fault. fault ≡ Memory };

    fn from(_error: AllocError) -> Fault {
        Fault::Memory
    }
}
