use crate::numbers::NumberList;
use crate::pieces::Pieces;
use ar_names::NameView;
use ar_statement::Party;

/// The words of a policy.
#[derive(Debug, Drop)]
pub struct PolicyWords {
    /// How many of the trusted authorities have to endorse a change.
    pub threshold: u8,
    /// Whether a change needs the signature of the key that it replaces.
    pub keyed: bool,
    /// How old a confirmation may be, in epochs.
    pub max_age: u32,
    /// The last epoch in which a certificate is taken.
    pub until: u64,
    /// The authorities that the domain trusts.
    pub trusted: NumberList,
    /// For how many epochs a recovery waits, where there may be one.
    pub wait: Option<u16>,
}

/// A line of the setup. It leads to a phase of its own, and comes before all lines of other kinds.
#[derive(Debug, Drop)]
pub enum SetupLine {
    /// The secret of which all keys are made.
    Secret {
        secret: [u8; 32],
    },
    /// The numbers of the types of the keys of logs and authorities, of LMS and of LM-OTS.
    Keys {
        /// 5, 6 or 7.
        lms: u32,
        /// 3 or 4 behind 5 and 6, and 3 behind 7.
        ots: u32,
    },
    /// There are n logs, and q of them are a quorum.
    Logs {
        /// From 3 to 16.
        n: u16,
        /// With 2q > n + 2, and at most n.
        q: u16,
    },
    /// There are m authorities.
    Authorities {
        /// From 3 to 16.
        m: u16,
    },
    /// The log or authority is dishonest from here on.
    Dishonest {
        party: Party,
    },
}

/// A line of what happens between the parties, once they are there. Numbers of parties are below 65536, but for those of
/// authorities that a certificate is sent to; drafts and messages count from 1. That there is what a number names is not said
/// here.
#[derive(Debug, Drop)]
pub enum EventLine<'a> {
    /// A new owner, whose number is below 512.
    Owner {
        owner: u16,
    },
    /// The check of an authority learns that a name is the owner's.
    Teach {
        authority: u16,
        name: NameView<'a>,
        owner: u16,
    },
    /// The check of an authority forgets that a name is the owner's.
    Forget {
        authority: u16,
        name: NameView<'a>,
        owner: u16,
    },
    /// An authority drops its check.
    Retire {
        authority: u16,
    },
    /// An owner drafts the first certificate of a name.
    Register {
        owner: u16,
        name: NameView<'a>,
        policy: PolicyWords,
        /// The authorities that are asked to endorse it: 1 to 8, ascending.
        asks: NumberList,
    },
    /// An owner drafts the certificate behind a draft.
    Update {
        owner: u16,
        /// The draft that it follows.
        draft: u64,
        policy: PolicyWords,
        /// The authorities that are asked to endorse it: 1 to 8, ascending.
        asks: NumberList,
    },
    /// An owner drafts the certificate behind a draft by which its name is revoked.
    Revoke {
        owner: u16,
        /// The draft that it follows.
        draft: u64,
        /// The authorities that are asked to endorse it: 1 to 8, ascending.
        asks: NumberList,
    },
    /// An owner hands its name over to a draft.
    Handover {
        owner: u16,
        draft: u64,
    },
    /// An owner objects to a draft.
    Object {
        owner: u16,
        draft: u64,
    },
    /// A draft is submitted.
    Submit {
        draft: u64,
    },
    /// A log is to propose.
    Propose {
        log: u16,
    },
    /// A log is to pass over the epoch.
    Pass {
        log: u16,
    },
    /// A log or authority is to go on to its next key.
    Roll {
        party: Party,
    },
    /// The directory of the clients takes a message.
    Learn {
        message: u64,
    },
    /// A client asks a log and two authorities for a name.
    Ask {
        log: u16,
        name: NameView<'a>,
        /// The authority that confirms behind the log.
        first: u16,
        /// The authority that confirms last; it may be the first.
        second: u16,
        client: u16,
    },
    /// A message goes to a party.
    Deliver {
        message: u64,
        party: Party,
    },
    /// All messages go to whom they are addressed to.
    Flush,
    /// A client judges a message, and the newest that goes to a client for `None`. `now` is at least 1.
    Judge {
        message: Option<u64>,
        name: NameView<'a>,
        /// The epoch that it is for the client.
        now: u64,
        /// How many epochs old what it accepts may be.
        age: u64,
    },
    /// A dishonest party signs bytes that are composed.
    Sign {
        party: Party,
        pieces: Pieces<'a>,
    },
    /// Bytes that are composed become a message, to all logs for `None`.
    Inject {
        to: Option<Party>,
        pieces: Pieces<'a>,
    },
}

/// A line of a script.
#[derive(Debug, Drop)]
pub enum Line<'a> {
    /// Says which parties there are.
    Setup(SetupLine),
    /// Has them do something.
    Event(EventLine<'a>),
    /// Deliveries that many threads make begin.
    Burst,
    /// They end.
    End,
}
