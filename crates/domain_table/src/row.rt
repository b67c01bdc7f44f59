use ar_cert::Change;

/// A change that waits.
#[derive(Debug, Drop)]
pub(crate) struct Waiting {
    pub(crate) change: Change,
    /// The epoch since which it does.
    pub(crate) since: u64,
}

/// What a name has in the integrity tree.
#[derive(Clone, Copy, Debug)]
pub(crate) struct Marks {
    /// The key of the name.
    pub(crate) key: [u8; 32],
    /// The value of its newest certificate.
    pub(crate) value: [u8; 32],
    /// The key of what waits for the name.
    pub(crate) pending_key: [u8; 32],
    /// The value of what waits, if something does.
    pub(crate) pending_value: Option<[u8; 32]>,
}

/// What a table has of a name.
#[derive(Debug, Drop)]
pub(crate) struct Row {
    /// The changes of the name, the oldest first: there is one at least.
    pub(crate) chain: Vec<Change>,
    /// The change that waits for the name.
    pub(crate) waiting: Option<Waiting>,
    pub(crate) marks: Marks,
}

/// A name, and what it has in the integrity tree.
#[derive(Debug, Drop)]
pub(crate) struct Listed {
    pub(crate) name: Vec<u8>,
    pub(crate) marks: Marks,
}
