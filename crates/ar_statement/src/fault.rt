ghost use Rattle.std.specs.Prelude.{◌≡◌};
ghost use Rattle.ar_statement.specs.declared.fault.BookFault.TheVariants.{Memory};

use std::alloc::AllocError;
use thiserror::Error;

/// Why a statement got no leaf, of the book of a key or of keys that roll.
#[derive(Clone, Copy, Debug, Error, PartialEq, Eq)]
pub enum BookFault {
    /// No leaf is left for it: each serves another statement, or is kept for the Roll of its key.
    #[error("no leaf is left")]
    Spent,
    /// Memory ran out.
    #[error("memory ran out")]
    Memory,
}

impl From<AllocError> for BookFault {
    ghost from_gives = { λ _ e. e ≡ Memory };

    fn from(_error: AllocError) -> BookFault {
        BookFault::Memory
    }
}
