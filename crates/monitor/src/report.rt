use ar_base::Items;
use ar_statement::Party;

/// Why an item is no evidence.
#[derive(Clone, Copy, Debug, PartialEq, Eq)]
pub enum Ignored {
    /// Its text is no statement.
    Form,
    /// The party that signs such a statement is no log and no authority of the directory.
    Unknown,
    /// The signature is not the party's, by the number of `party_keys::VerifyFault::Bad`.
    Bad(u8),
}

/// Two statements of a party that contradict each other.
#[derive(Clone, Copy, Debug, PartialEq, Eq)]
pub struct Conflict {
    /// A log or an authority.
    pub party: Party,
    /// The line of the earlier statement.
    pub first: u32,
    /// The line of the later one.
    pub second: u32,
    /// The least rule that fits them, from 1 to 6: 1 votes of one epoch; 2 a vote, and a status of its epoch with another value
    /// or none; 3 statuses of one epoch; 4 a log's confirmations for one epoch, with different roots or of one name; 5 Rolls
    /// of one generation; 6 one leaf of one generation.
    pub rule: u8,
}

/// What an audit finds.
#[derive(Debug, Drop)]
pub struct Report {
    /// The line of each item that is no evidence, and why, in the order of the items.
    pub ignored: Items<(u32, Ignored)>,
    /// One pair for each party that contradicts itself, logs ascending and then authorities ascending: the pair with the least
    /// second line, and of those the one with the least first line.
    pub conflicts: Items<Conflict>,
    /// How many items are evidence.
    pub valid: u32,
}
