use ar_statement::Party;

/// To whom a message goes.
#[derive(Clone, Copy, Debug, PartialEq, Eq)]
pub enum Address {
    /// To every log.
    Logs,
    /// To one party.
    One(Party),
}
