/// How an update is taken.
#[derive(Clone, Copy, Debug, PartialEq, Eq)]
pub enum Manner {
    /// It meets every clause and follows at once.
    Full,
    /// It fails what the domain's own policy asks for, and follows after that policy's wait.
    Recovery,
    /// It is an objection, by which the old key ends a pending recovery.
    Objected,
}
