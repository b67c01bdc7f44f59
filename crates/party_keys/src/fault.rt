ghost use Rattle.std.specs.Prelude.{◌≡◌};
ghost use Rattle.party_keys.specs.Learning.{fault_of};
ghost use Rattle.party_keys.specs.declared.fault.LearnFault.TheVariants as learn_fault;

use ar_statement::Party;
use std::alloc::AllocError;
use thiserror::Error;

/// Which bound of a directory is not kept; the first where there are several.
#[derive(Clone, Copy, Debug, Error, PartialEq, Eq)]
pub enum DirectoryFault {
    /// There are not 3 to 16 logs.
    #[error("a directory has 3 to 16 logs")]
    Logs,
    /// There are not 3 to 16 authorities.
    #[error("a directory has 3 to 16 authorities")]
    Authorities,
    /// The quorum is more than all logs, or twice the quorum is not more than the logs and two.
    #[error("two quorums share three logs, and a quorum is at most all logs")]
    Quorum,
}

/// Why a signature was not accepted.
#[derive(Clone, Copy, Debug, Error, PartialEq, Eq)]
pub enum VerifyFault {
    /// The party is no log and no authority of the directory.
    #[error("the signer is not in the directory")]
    Unknown(Party),
    /// The signature is not valid: 1 it has fewer than four bytes; 6 its generation is not known of the
    /// party; 1 to 5 the condition of `lms_tree::valid` that fails first under the key of its generation; 7
    /// the text is not one for its leaf.
    #[error("the signature is bad, by check {0}")]
    Bad(u8),
}

/// Why a list of signers was not accepted.
#[derive(Clone, Copy, Debug, Error, PartialEq, Eq)]
pub enum SignerFault {
    /// The party is no log and no authority of the directory; it is the first such.
    #[error("a signer is not in the directory")]
    Unknown(Party),
    /// The signature of the party is not valid, by the number of `VerifyFault::Bad`; it is the first such.
    #[error("a signature is bad, by check {1}")]
    Bad(Party, u8),
}

/// Why an announced key was not learnt.
#[derive(Clone, Copy, Debug, Error, PartialEq, Eq)]
pub enum LearnFault {
    /// The party is no log and no authority of the directory.
    #[error("the signer is not in the directory")]
    Unknown,
    /// The signature of the Roll is not valid, by the number of `VerifyFault::Bad`.
    #[error("the signature is bad, by check {0}")]
    Bad(u8),
    /// Another key is known as the next of the announced generation.
    #[error("another key is known as the next")]
    Other,
    /// Memory ran out.
    #[error("memory ran out")]
    Memory,
}

impl From<VerifyFault> for LearnFault {
    ghost from_gives = { λ fault e. e ≡ fault_of fault };

    fn from(fault: VerifyFault) -> LearnFault {
        match fault {
            VerifyFault::Unknown(_) => LearnFault::Unknown,
            VerifyFault::Bad(k) => LearnFault::Bad(k),
        }
    }
}

impl From<AllocError> for LearnFault {
    ghost from_gives = { λ _ e. e ≡ learn_fault.Memory };

    fn from(_error: AllocError) -> LearnFault {
        LearnFault::Memory
    }
}
