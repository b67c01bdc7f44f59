ghost use Rattle.std.specs.Prelude.{◌≡◌};
ghost use Rattle.ar_message.specs.declared.fault.MessageFault.TheVariants.{Form, Memory};

use std::alloc::{AllocError, AllocFailed};
use thiserror::Error;

/// Why bytes were not read as a message.
#[derive(Clone, Copy, Debug, PartialEq, Eq, Error)]
pub enum MessageFault {
    /// The bytes are no message. The first field that fails begins at this place, which is its offset in
    /// the whole input; of bytes left over it is the first of them.
    #[error("the field at byte {0} is of no such text")]
    Form(usize),
    /// Memory ran out.
    #[error("memory ran out")]
    Memory,
}

impl From<usize> for MessageFault {
    ghost from_gives = { λ place e. e ≡ Form place };

    /// A fault of form at this place.
    fn from(place: usize) -> MessageFault {
        MessageFault::Form(place)
    }
}

impl From<AllocError> for MessageFault {
    ghost from_gives = { λ _ e. e ≡ Memory };

    fn from(_e: AllocError) -> MessageFault {
        MessageFault::Memory
    }
}

impl<T: Drop> From<AllocFailed<T>> for MessageFault {
    ghost from_gives = { λ _ e. e ≡ Memory };

    fn from(_e: AllocFailed<T>) -> MessageFault {
        MessageFault::Memory
    }
}
