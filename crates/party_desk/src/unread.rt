ghost use Rattle.std.specs.Prelude.{◌≡◌};
ghost use Rattle.party_desk.specs.declared.unread.Cause.TheVariants as causes;
ghost use Rattle.party_desk.specs.declared.unread.Unread.TheVariants as faults;

use ar_lines::Reason;
use std::alloc::AllocError;
use thiserror::Error;

/// Why a party does not take a line. The party is as it was.
#[derive(Clone, Copy, Debug, PartialEq, Eq)]
pub enum Cause {
    /// It is not of its form.
    Form(Reason),
    /// It is a line of a script that is not for a party of this role.
    Order,
    /// The word of this number, from 0, names nothing here: another party, a draft or an authority that there is not, or the check
    /// of an authority that has retired.
    Absent(usize),
    /// The owner knows as many certificates as it can, or the certificate that it goes on from has the greatest serial.
    Limit,
}

/// Why a line was not read.
#[derive(Clone, Copy, Debug, Error)]
pub enum Unread {
    /// It is refused.
    #[error("the line is refused")]
    Refused(Cause),
    /// Memory ran out.
    #[error("memory ran out")]
    Memory,
}

impl From<AllocError> for Unread {
    ghost from_gives = { λ _ e. e ≡ faults.Memory };

    fn from(_error: AllocError) -> Unread {
        Unread::Memory
    }
}

impl From<Reason> for Unread {
    ghost from_gives = { λ reason e. e ≡ faults.Refused (causes.Form reason) };

    fn from(reason: Reason) -> Unread {
        Unread::Refused(Cause::Form(reason))
    }
}

impl From<Cause> for Unread {
    ghost from_gives = { λ cause e. e ≡ faults.Refused cause };

    fn from(cause: Cause) -> Unread {
        Unread::Refused(cause)
    }
}
