ghost use Rattle.std.specs.Prelude.{◌≡◌};
ghost use Rattle.owner_core.specs.declared.refusal.OwnerRefusal.TheVariants.{Form, Memory, Spent};
ghost use Rattle.owner_core.specs.Causes.{of_book, of_message};

use ar_message::MessageFault;
use ar_statement::Party;
use sign_book::BookFault;
use std::alloc::{AllocError, AllocFailed};
use thiserror::Error;

/// Why an owner did not do what a message or an order says. Behind each stands its code in printed
/// lines.
#[derive(Clone, Copy, Debug, Error, PartialEq, Eq)]
pub enum OwnerRefusal {
    /// O1: the bytes are no message. The first field that fails begins at this place.
    #[error("the field at byte {0} is of no such text")]
    Form(usize),
    /// O2: the message is of a kind that owners do not take, or for another owner.
    #[error("the message is not for this owner")]
    NotForOwner,
    /// O3: the party is no authority of the directory, or, in an announcement of a key, no log
    /// either.
    #[error("the signer is not in the directory")]
    Unknown(Party),
    /// O4: the party's signature is not valid, by this test of `Directory::verify`.
    #[error("the signature is bad, by check {1}")]
    BadSignature(Party, u8),
    /// O5: no draft has this digest.
    #[error("no draft has this digest")]
    NoDraft,
    /// O6: the draft has 8 endorsements, and none by this authority.
    #[error("the draft has 8 endorsements")]
    Full,
    /// O7: each leaf of the key serves another statement.
    #[error("no leaf is left")]
    Spent,
    /// O8: of the party another key is known as the next behind this generation.
    #[error("another key is known behind generation {1}")]
    OtherRoll(Party, u32),
    /// Memory ran out.
    #[error("memory ran out")]
    Memory,
}

impl From<AllocError> for OwnerRefusal {
    ghost from_gives = { λ _ e. e ≡ Memory };

    fn from(_error: AllocError) -> OwnerRefusal {
        OwnerRefusal::Memory
    }
}

impl<T: Drop> From<AllocFailed<T>> for OwnerRefusal {
    ghost from_gives = { λ _ e. e ≡ Memory };

    fn from(_error: AllocFailed<T>) -> OwnerRefusal {
        OwnerRefusal::Memory
    }
}

impl From<MessageFault> for OwnerRefusal {
    ghost from_gives = { λ fault e. e ≡ of_message fault };

    fn from(fault: MessageFault) -> OwnerRefusal {
        match fault {
            MessageFault::Form(place) => OwnerRefusal::Form(place),
            MessageFault::Memory => OwnerRefusal::Memory,
        }
    }
}

impl From<BookFault> for OwnerRefusal {
    ghost from_gives = { λ fault e. e ≡ of_book fault };

    fn from(fault: BookFault) -> OwnerRefusal {
        match fault {
            BookFault::Spent => OwnerRefusal::Spent,
            BookFault::Memory => OwnerRefusal::Memory,
        }
    }
}
