ghost use Rattle.std.specs.Prelude.{◌≡◌};
ghost use Rattle.ar_nodes.specs.declared.fault.WorldFault.TheVariants.{Memory};

use std::alloc::AllocError;
use thiserror::Error;

/// Why a world does not take a line of a script. It is then as it was.
#[derive(Clone, Copy, Debug, PartialEq, Eq, Error)]
pub enum WorldFault {
    /// The line may not come now: one of the setup behind a later one, one of another kind before the setup, or one of a
    /// burst.
    #[error("the line may not come now")]
    Order,
    /// A word names no party, message or draft of the kind that it should; the number of the first such word, where the
    /// word that says what the line is has the number 0.
    #[error("word {0} names nothing that is there")]
    Absent(usize),
    /// There is no room for what the line would make.
    #[error("there is no room for more")]
    Limit,
    /// Memory ran out.
    #[error("memory ran out")]
    Memory,
}

impl From<AllocError> for WorldFault {
    ghost from_gives = { λ _ e. e ≡ Memory };

    fn from(_error: AllocError) -> WorldFault {
        WorldFault::Memory
    }
}
