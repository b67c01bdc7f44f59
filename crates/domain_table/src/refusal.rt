use cert_policy::PolicyRefusal;
use thiserror::Error;

/// Why a table refuses a change.
#[derive(Clone, Copy, Debug, PartialEq, Eq, Error)]
pub enum ChangeRefusal {
    /// The clause of the policy rule that fails, or why an objection is refused.
    #[error("{0}")]
    Policy(PolicyRefusal),
    /// The policy rule takes it, it is no objection, and the table has 4,096 certificates and waiting
    /// changes.
    #[error("the table is full")]
    Full,
}
