/// What became of a ballot.
#[derive(Clone, Copy, Debug, PartialEq, Eq)]
pub enum Added {
    /// It was not there, and is counted now.
    New,
    /// The log's ballot for this value was there already, and nothing changed.
    Again,
}
