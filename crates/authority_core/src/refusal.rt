ghost use Rattle.std.specs.Prelude.{◌≡◌};
ghost use Rattle.authority_core.specs.Refusals.{of_ask, of_book, of_learning, of_message, of_roll, of_signers};
ghost use Rattle.authority_core.specs.declared.refusal.AuthorityRefusal.TheVariants as refusal;

use ar_message::MessageFault;
use ar_statement::Party;
use key_roll::{BookFault, RollFault};
use owner_check::AskFault;
use party_keys::{LearnFault, SignerFault};
use std::alloc::{AllocError, AllocFailed};
use thiserror::Error;

/// Why an authority refused a step. After each of these it stands as before; after `CheckFault`, `NotOwner` and
/// `Spent` its check has kept an answer. Behind each stands its code in printed lines.
#[derive(Clone, Copy, Debug, Error, PartialEq, Eq)]
pub enum AuthorityRefusal {
    /// A1: the bytes are no message. The first field that fails begins at this place.
    #[error("the field at byte {0} is of no such text")]
    Form(usize),
    /// A2: the message is for another, or the authority has retired and endorses no more.
    #[error("the message is not for this authority")]
    NotForAuthority,
    /// A3: the party is not in the directory; the first such in the listed order.
    #[error("a signer is not in the directory")]
    Unknown(Party),
    /// A4: the party's signature is not valid, by the number of `VerifyFault::Bad`; the first such in the listed order.
    #[error("a signature is bad, by check {1}")]
    BadSignature(Party, u8),
    /// A5: so many logs voted for the base and the root, which are no quorum.
    #[error("{0} logs are no quorum")]
    FewVotes(usize),
    /// A6: the path does not lead to the root, or the certificate is of another name.
    #[error("the path does not lead to the root")]
    BadPath,
    /// A7: the client chose one authority twice.
    #[error("the two authorities are one")]
    SameAuthority,
    /// A8: the check failed. The count of its faults rose in this step.
    #[error("the owner check failed")]
    CheckFault,
    /// A9: the check answered no.
    #[error("the key is not the owner's")]
    NotOwner,
    /// A10: each leaf of the newest generation but the last serves another statement, and the statement is new.
    #[error("no leaf is left")]
    Spent,
    /// A11: another key is known as the next of the party behind this generation.
    #[error("another key is known behind generation {1}")]
    OtherRoll(Party, u32),
    /// A12: the newest generation is the last, 999.
    #[error("the last generation has no next")]
    LastGeneration,
    /// Memory ran out.
    #[error("memory ran out")]
    Memory,
}

impl From<AllocError> for AuthorityRefusal {
    ghost from_gives = { λ _ e. e ≡ refusal.Memory };

    fn from(_error: AllocError) -> AuthorityRefusal {
        AuthorityRefusal::Memory
    }
}

impl<T: Drop> From<AllocFailed<T>> for AuthorityRefusal {
    ghost from_gives = { λ _ e. e ≡ refusal.Memory };

    fn from(_error: AllocFailed<T>) -> AuthorityRefusal {
        AuthorityRefusal::Memory
    }
}

impl From<MessageFault> for AuthorityRefusal {
    ghost from_gives = { λ fault e. e ≡ of_message fault };

    fn from(fault: MessageFault) -> AuthorityRefusal {
        match fault {
            MessageFault::Form(place) => AuthorityRefusal::Form(place),
            MessageFault::Memory => AuthorityRefusal::Memory,
        }
    }
}

impl From<SignerFault> for AuthorityRefusal {
    ghost from_gives = { λ fault e. e ≡ of_signers fault };

    fn from(fault: SignerFault) -> AuthorityRefusal {
        match fault {
            SignerFault::Unknown(party) => AuthorityRefusal::Unknown(party),
            SignerFault::Bad(party, k) => AuthorityRefusal::BadSignature(party, k),
        }
    }
}

impl From<BookFault> for AuthorityRefusal {
    ghost from_gives = { λ fault e. e ≡ of_book fault };

    fn from(fault: BookFault) -> AuthorityRefusal {
        match fault {
            BookFault::Spent => AuthorityRefusal::Spent,
            BookFault::Memory => AuthorityRefusal::Memory,
        }
    }
}

impl From<RollFault> for AuthorityRefusal {
    ghost from_gives = { λ fault e. e ≡ of_roll fault };

    fn from(fault: RollFault) -> AuthorityRefusal {
        match fault {
            RollFault::Last => AuthorityRefusal::LastGeneration,
            RollFault::Memory => AuthorityRefusal::Memory,
        }
    }
}

impl From<AskFault> for AuthorityRefusal {
    ghost from_gives = { λ fault e. e ≡ of_ask fault };

    fn from(fault: AskFault) -> AuthorityRefusal {
        match fault {
            AskFault::Failed => AuthorityRefusal::CheckFault,
            AskFault::Memory => AuthorityRefusal::Memory,
        }
    }
}

/// Why a party's Roll that names this generation was not learnt.
pub(crate) fn of_learning(party: Party, generation: u32, fault: LearnFault) -> AuthorityRefusal
    ensures { result ≡ of_learning party generation fault }
{
    match fault {
        LearnFault::Unknown => AuthorityRefusal::Unknown(party),
        LearnFault::Bad(k) => AuthorityRefusal::BadSignature(party, k),
        LearnFault::Other => AuthorityRefusal::OtherRoll(party, generation),
        LearnFault::Memory => AuthorityRefusal::Memory,
    }
}
