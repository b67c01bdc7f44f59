use ar_base::Items;
use ar_names::Name;
use ar_statement::{Party, Role};

/// A value that stands behind the number of a refusal.
#[derive(Clone, Copy, Debug, PartialEq, Eq)]
pub enum CodeValue {
    /// A place, an epoch, a count, a log, or the number of a condition or clause.
    Number(u64),
    /// A party.
    Party(Party),
    /// A digest.
    Digest([u8; 32]),
    /// In place of a number: a list is full.
    Full,
    /// In place of a digest: there is no root.
    NoRoot,
}

/// The values that belong to a refusal.
#[derive(Clone, Copy, Debug, PartialEq, Eq)]
pub enum Values {
    /// None.
    Nothing,
    /// This one.
    One(CodeValue),
    /// These two.
    Two(CodeValue, CodeValue),
}

/// Why a step is refused: whose rule it is, the number of the refusal, and the values that belong to it.
#[derive(Clone, Copy, Debug, PartialEq, Eq)]
pub struct Code {
    /// Its letter is `L`, `A`, `O` or `C`.
    pub role: Role,
    /// It stands behind the letter, as 10 in `L10`.
    pub number: u8,
    /// What is printed behind it, each behind a space.
    pub values: Values,
}

/// The kind of a message of the pool.
#[derive(Clone, Copy, Debug, PartialEq, Eq)]
pub enum Kind {
    /// Bytes that a script composed.
    Raw,
    /// An owner asks an authority to endorse a certificate.
    EndorseAsk,
    /// An authority endorses a certificate.
    Endorsed,
    /// An owner hands a change to the logs.
    Submit,
    /// A log proposes changes.
    Propose,
    /// A log votes for a base and a root.
    Ballot,
    /// A log states what it did in an epoch.
    StatusNote,
    /// An epoch is decided, by the votes in it.
    Decision,
    /// An epoch is skipped, by the statuses in it.
    SkipNote,
    /// A client asks for a confirmation.
    ConfirmAsk,
    /// A log confirms, for the first authority.
    LogConfirmed,
    /// A log and the first authority confirm, for the second.
    HalfConfirmed,
    /// A log and two authorities confirm, for the client.
    Confirmation,
    /// A log or an authority announces its next key.
    RollNote,
}

/// What a party does in a step.
#[derive(Clone, Copy, Debug, PartialEq, Eq)]
pub enum What {
    /// It takes the message with this number.
    Take(u64),
    /// It proposes.
    Propose,
    /// It passes over the epoch.
    Pass,
    /// It goes on to its next key.
    Roll,
    /// It submits the draft with this number.
    Submit(u64),
    /// It hands that draft over.
    Handover(u64),
    /// It objects to that draft.
    Object(u64),
}

/// Why a directory does not learn a message.
#[derive(Clone, Copy, Debug, PartialEq, Eq)]
pub enum Unlearnt {
    /// It is no note of a key that rolled.
    Form,
    /// The party is not known.
    Unknown,
    /// The signature is not valid; the number of the condition.
    Bad(u8),
    /// The directory has another key of that generation.
    Other,
}

/// To whom a message goes.
#[derive(Clone, Copy, Debug, PartialEq, Eq)]
pub enum Target {
    /// To nobody.
    Nobody,
    /// To all logs.
    Logs,
    /// To this party.
    One(Party),
}

/// What a client says of a confirmation.
#[derive(Debug, Drop)]
pub enum Said {
    /// The name has this certificate.
    Accepted {
        name: Name,
        /// How many certificates the name had before it.
        serial: u64,
        /// The epoch at whose end it has it.
        epoch: u64,
        /// The root of the table at the end of the epoch.
        root: [u8; 32],
        /// Its digest.
        certificate: [u8; 32],
    },
    /// The name has none.
    Absent {
        name: Name,
        /// The epoch at whose end it has none.
        epoch: u64,
        /// The root of the table at the end of the epoch.
        root: [u8; 32],
    },
    /// The check with this number fails.
    Refused(u8),
}

/// What happens in a world, as far as a line is printed of it.
#[derive(Debug, Drop)]
pub enum Happening {
    /// A key is made; the digest of its text.
    Made {
        party: Party,
        digest: [u8; 32],
    },
    /// The party is dishonest from here on.
    Dishonest {
        party: Party,
    },
    /// The check of an authority learnt a name.
    Taught {
        authority: u16,
    },
    /// The check of an authority forgot a name.
    Forgot {
        authority: u16,
    },
    /// An authority dropped its check.
    Retired {
        authority: u16,
    },
    /// A draft is made; the digest of its certificate.
    Draft {
        draft: u64,
        digest: [u8; 32],
    },
    /// A party makes a step; `None` where it succeeds.
    Step {
        party: Party,
        what: What,
        refused: Option<Code>,
    },
    /// An epoch ends at a log, with this root, or with `None` as skipped.
    Ended {
        log: u16,
        epoch: u64,
        root: Option<[u8; 32]>,
    },
    /// The directory of the clients takes a message; `None` where it learns it.
    Learnt {
        message: u64,
        refused: Option<Unlearnt>,
    },
    /// A message enters the pool.
    Entered {
        /// Its number in the pool, from 1.
        message: u64,
        kind: Kind,
        /// Who sent it; `None` where a script injected it.
        from: Option<Party>,
        to: Target,
        /// In bytes.
        length: u64,
        /// The SHA-256 of its bytes.
        digest: [u8; 32],
    },
    /// A dishonest party has no leaf left.
    SignRefused {
        party: Party,
    },
    /// A client judges a message.
    Judged {
        message: u64,
        said: Said,
    },
    /// At the end of a burst: the deliveries of the burst that a party took, by their numbers in it from 0,
    /// in the order in which it took them.
    Order {
        party: Party,
        taken: Items<u64>,
    },
}
