use crate::Signature;
use ar_cert::Change;
use std::marker::Model;
use vote_quorum::Value;

/// A log's vote, as it stands in a list of votes.
#[derive(Debug, Drop)]
pub struct Vote {
    /// The number of the log.
    pub log: u16,
    /// Its signature of the statement of its vote.
    pub signature: Signature,
}

/// What a log states of an epoch, as it stands in a list of statuses.
#[derive(Debug, Drop)]
pub struct LogStatus {
    /// The number of the log.
    pub log: u16,
    /// The base and the root that it voted for, or that it voted for nothing and will not.
    pub value: Option<Value>,
    /// Its signature of the statement of its status.
    pub signature: Signature,
}

/// At most 16 votes, of logs whose numbers ascend strictly.
#[derive(Debug, Drop)]
pub struct Votes {
    /// In a message its length stands in front of it, u8; no log has two votes in it.
    pub list: Vec<Vote>,
}

// Clauses see the list.
impl Model for Votes {
    ghost use Rattle.std.specs.Prelude.{List};
    ghost use Rattle.ar_message.specs.declared.lists.Vote.{Vote};
    ghost use Rattle.ar_message.specs.Lists.{AreVotes};

    ghost Value = { List Vote };

    ghost view = { λ v. v.list.items };

    ghost invariant = { λ v. AreVotes v.list.items };
}

/// At most 16 statuses, of logs whose numbers ascend strictly.
#[derive(Debug, Drop)]
pub struct Statuses {
    /// In a message its length stands in front of it, u8; no log has two statuses in it.
    pub list: Vec<LogStatus>,
}

// Clauses see the list.
impl Model for Statuses {
    ghost use Rattle.std.specs.Prelude.{List};
    ghost use Rattle.ar_message.specs.declared.lists.LogStatus.{LogStatus};
    ghost use Rattle.ar_message.specs.Lists.{AreLogStatuses};

    ghost Value = { List LogStatus };

    ghost view = { λ v. v.list.items };

    ghost invariant = { λ v. AreLogStatuses v.list.items };
}

/// At most 64 changes, in the order in which they are applied.
#[derive(Debug, Drop)]
pub struct Changes {
    /// In a message its length stands in front of it, u8; each change is judged behind the ones before it.
    pub list: Vec<Change>,
}

// Clauses see the list.
impl Model for Changes {
    ghost use Rattle.std.specs.Prelude.{List};
    ghost use Rattle.ar_cert.specs.Changes.{Change};
    ghost use Rattle.ar_message.specs.Lists.{AreChanges};

    ghost Value = { List Change };

    ghost view = { λ v. v.list.items };

    ghost invariant = { λ v. AreChanges v.list.items };
}
