ghost use Rattle.std.specs.Prelude.{◌≡◌};
ghost use Rattle.epoch_log.specs.State.{newest_value};
ghost use Rattle.epoch_log.specs.Told.{value_of};

use ar_base::Items;
use ar_cert::Change;
use ar_names::Name;
use vote_quorum::Value;

/// A vote that a log cast in an epoch: by these changes the table with the root `base` becomes the one with
/// the root `root`.
#[derive(Debug, Drop)]
pub struct Voted {
    /// The epoch of the vote, from 1; the log has one vote in it at most.
    pub epoch: u64,
    /// The root of the table in which the epoch begins, before anything ripens in it.
    pub base: [u8; 32],
    /// Applied in this order to the table that is ripe in the epoch.
    pub changes: Items<Change>,
    /// The root of the table that they lead to.
    pub root: [u8; 32],
}

impl Voted {
    /// What the vote is for.
    pub fn value(&self) -> Value
        ensures { result ≡ value_of self.now }
    {
        Value {
            base: self.base,
            root: self.root,
        }
    }
}

/// What a log stated of an epoch: the ballot that it had cast, or that it had cast none.
#[derive(Clone, Copy, Debug)]
pub struct Stated {
    /// The epoch that it speaks of, from 1; the log states one thing of it at most.
    pub epoch: u64,
    /// What the ballot was for; `None` where there was none, and the log casts none in the epoch any more.
    pub value: Option<Value>,
}

/// How an epoch ended.
#[derive(Debug, Drop)]
pub enum How {
    /// A quorum voted for the table after these changes, which has this root.
    Decided {
        /// Applied in this order to the table that was ripe in the epoch.
        changes: Items<Change>,
        root: [u8; 32],
    },
    /// What these logs stated showed that no root can have a quorum.
    Skipped {
        /// The number of each log, with what it had voted for; `None` where it had voted for nothing.
        statuses: Items<(u16, Option<Value>)>,
    },
}

/// An epoch that ended.
#[derive(Debug, Drop)]
pub struct Ended {
    /// Its number, from 1. A log has an entry for each epoch before the current one.
    pub epoch: u64,
    /// A decision applies its changes to the table; a skip leaves it, also what waits in it.
    pub how: How,
}

/// What a log confirmed: at the end of the epoch the table had this root, and under the name the certificate
/// with this digest, or none.
#[derive(Debug, Drop)]
pub struct Confirmed {
    /// An epoch that was decided, from 1.
    pub epoch: u64,
    /// The name that the client asked for.
    pub name: Name,
    /// The digest of the name's newest certificate; `None` where the table has none.
    pub certificate: Option<[u8; 32]>,
    /// The root of the table at the end of the epoch.
    pub root: [u8; 32],
}

/// The newest decision that a log knows: the epoch, its base and root, and the votes for it.
#[derive(Debug, Drop)]
pub struct Newest {
    /// The last epoch that was decided, from 1; those behind it were skipped.
    pub epoch: u64,
    /// The root of the table in which it began, before anything ripened in it.
    pub base: [u8; 32],
    /// The root of the table with which it ended.
    pub root: [u8; 32],
    /// The logs that voted for it, each with its signature; `None` stands for the log's own vote, which was counted
    /// without one.
    pub votes: Items<(u16, Option<Items<u8>>)>,
}

impl Newest {
    /// What was decided.
    pub fn value(&self) -> Value
        ensures { result ≡ newest_value self.now }
    {
        Value {
            base: self.base,
            root: self.root,
        }
    }
}

/// Whether an epoch ended.
#[derive(Debug, Drop)]
pub enum Closing {
    /// It goes on.
    Open,
    /// It ended as decided.
    Decided,
    /// It ended as skipped, by what these logs stated, each with its signature; `None` stands for the log's own
    /// status, which was counted without one.
    Skipped(Items<(u16, Option<Value>, Option<Items<u8>>)>),
}
