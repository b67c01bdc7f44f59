//! Why a party is not opened.

ghost use Rattle.std.specs.Prelude.{◌≡◌};
ghost use Rattle.arpki_party.specs.Refused.{refusal_of};
ghost use Rattle.arpki_party.specs.declared.not_opened.NotOpened.TheVariants as why;

use ar_lines::Refusal;
use file_disk::FileFault;
use kept_party::OpenFault;
use std::alloc::AllocError;
use std::io;
use thiserror::Error;

/// Why a party is not opened.
#[derive(Debug, Drop, Error)]
pub(crate) enum NotOpened {
    #[error("memory is wanting")]
    Memory,
    #[error("the file {0} cannot be read: {1}")]
    Unread(&'static str, io::Error),
    #[error("the directory: {0}")]
    Line(Refusal),
    #[error("the directory has lines 'roll', whose keys a party learns from messages")]
    Rolled,
    #[error("the secret is the lines 'secret <64 hex>' and, if need be, 'keys <lms> <ots>'")]
    NoSecret,
    #[error("the directory has another key of this party")]
    OtherKey,
    #[error("{0}")]
    Journal(FileFault),
    #[error("the journal is another party's, or of another directory")]
    Others,
    #[error("{0}")]
    Text(OpenFault),
}

impl From<AllocError> for NotOpened {
    ghost from_gives = { λ _ e. e ≡ why.Memory };

    fn from(_error: AllocError) -> NotOpened {
        NotOpened::Memory
    }
}

impl From<OpenFault> for NotOpened {
    ghost from_gives = { λ fault e. e ≡ refusal_of fault };

    fn from(fault: OpenFault) -> NotOpened {
        match fault {
            OpenFault::Memory => NotOpened::Memory,
            OpenFault::NotJournal => NotOpened::Others,
            fault => NotOpened::Text(fault),
        }
    }
}
