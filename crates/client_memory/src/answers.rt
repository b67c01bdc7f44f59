ghost use Rattle.std.specs.Prelude.{◌≡◌};
ghost use Rattle.client_memory.specs.declared.answers.AddFault.TheVariants as add_fault;

use cert_policy::PolicyRefusal;
use std::alloc::{AllocError, AllocFailed};
use thiserror::Error;

/// Why a change is no link behind another.
#[derive(Clone, Copy, Debug, PartialEq, Eq)]
pub enum LinkFault {
    /// The first endorsement whose authority the directory does not know, or whose signature is not valid: the number
    /// of that authority.
    Endorsement(u16),
    /// The first clause of the policy rule that fails. An objection counts as its fourth clause; a recovery fails by
    /// the sixth or the seventh, since a client cannot see the wait.
    Policy(PolicyRefusal),
}

/// What a client answers to a confirmation, with what it pinned of the name: the first of these that fits.
///
/// Only `First` and `Moved` change what is kept.
#[derive(Clone, Copy, Debug, PartialEq, Eq)]
pub enum Pinned {
    /// The client's rule refuses the confirmation, by this check, as in `client_rule::judge`.
    Refused(u8),
    /// The confirmation is accepted and says that the name has no certificate, and the name is pinned.
    Gone,
    /// The confirmation is accepted and says that the name has no certificate.
    Absent,
    /// The certificate that is accepted is the newest one that is pinned.
    Same,
    /// The name is pinned, and there are more than 64 links.
    Long,
    /// With the links, or with one change where the name is not pinned, more than 4,096 changes would be kept of all
    /// names.
    Full,
    /// The name is not pinned: its certificate is now, with nothing that vouched for it.
    First,
    /// Another certificate is pinned, and there is no link.
    NoLinks,
    /// The link at this place, from 0, is the first that is not linked: link 0 behind the newest certificate that is
    /// pinned, and each other behind the one before it.
    Link(usize, LinkFault),
    /// The last link is of another certificate than that of the confirmation.
    WrongEnd,
    /// So many links are now pinned behind the others.
    Moved(usize),
}

/// Why a name that was stored is not pinned again; the first that fits.
#[derive(Clone, Copy, Debug, PartialEq, Eq, Error)]
pub enum AddFault {
    /// The name is pinned.
    #[error("the name is pinned")]
    Pinned,
    /// With its changes more than 4,096 would be kept of all names.
    #[error("too many changes would be kept")]
    Full,
    /// There is no change.
    #[error("there is no change")]
    Empty,
    /// The change behind the one at this place, from 0, is the first that does not follow it, by this clause.
    #[error("a change does not follow the one before it: {1}")]
    Link(usize, PolicyRefusal),
    /// Memory ran out.
    #[error("memory ran out")]
    Memory,
}

impl From<AllocError> for AddFault {
    ghost from_gives = { λ _ e. e ≡ add_fault.Memory };

    fn from(_error: AllocError) -> AddFault {
        AddFault::Memory
    }
}

impl<T: Drop> From<AllocFailed<T>> for AddFault {
    ghost from_gives = { λ _ e. e ≡ add_fault.Memory };

    fn from(_error: AllocFailed<T>) -> AddFault {
        AddFault::Memory
    }
}
