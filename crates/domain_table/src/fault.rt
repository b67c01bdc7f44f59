use crate::refusal::ChangeRefusal;
use thiserror::Error;

/// Why a change is not applied.
#[derive(Clone, Copy, Debug, PartialEq, Eq, Error)]
pub enum ApplyFault {
    /// The table refuses the change.
    #[error("{0}")]
    Change(ChangeRefusal),
    /// Memory is wanting.
    #[error("memory ran out")]
    Memory,
}
