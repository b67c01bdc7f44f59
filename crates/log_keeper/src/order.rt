use ar_base::Items;

/// What a log is asked.
#[derive(Debug, Drop)]
pub enum LogOrder {
    /// To take a message: its bytes.
    Take(Items<u8>),
    /// To propose.
    Propose,
    /// To state what it did in the epoch.
    Pass,
    /// To go on to its next key.
    Roll,
}
