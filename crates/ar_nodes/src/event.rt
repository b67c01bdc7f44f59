/// What an honest log did in a step that it did not refuse.
#[derive(Clone, Copy, Debug, PartialEq, Eq)]
pub enum LogEvent {
    /// It took the message with this number.
    Take(u64),
    /// It proposed.
    Propose,
    /// It passed over its epoch.
    Pass,
    /// It went on to its next key.
    Roll,
}
