use crate::{Changes, PathSteps, Signature, Statuses, Votes};
use ar_cert::{Cert, Change};
use ar_names::Name;
use ar_statement::Party;
use lms_tree::LmsPublic;
use tree_proof::Bottom;
use vote_quorum::Value;

/// What the table has for a name, with the path that shows it.
#[derive(Debug, Drop)]
pub enum Body {
    /// This certificate. The message is of form 1.
    Present { cert: Cert, path: PathSteps },
    /// None: this stands at the foot of the name's path. The message is of form 2.
    Absent { bottom: Bottom, path: PathSteps },
}

/// A confirmation on its way to the client: what a log confirmed, and the votes that it rests on.
#[derive(Debug, Drop)]
pub struct Confirming {
    /// The client that asked.
    pub client: u16,
    /// The epoch at whose end it holds.
    pub epoch: u64,
    /// The name that the client asked for.
    pub name: Name,
    /// The root of the table at the end of the epoch.
    pub root: [u8; 32],
    /// The root of the table before the epoch.
    pub base: [u8; 32],
    /// What the table at the end of the epoch has for the name, with the path to its root.
    pub body: Body,
    /// The votes by which the epoch was decided.
    pub votes: Votes,
    /// The log that confirms, and its signature.
    pub log: u16,
    /// That log's signature of its own Confirm, or of its ConfirmAbsent where the name has no certificate.
    pub signature: Signature,
    /// The two authorities that the client chose.
    pub first: u16,
    /// The one that confirms last, and sends the confirmation to the client.
    pub second: u16,
}

/// A message from one party to others.
///
/// Epochs in a message are from 1 to 2^63, digests have 32 bytes, and numbers of parties count from 0.
#[derive(Debug, Drop)]
pub enum Message {
    /// An owner asks an authority to endorse a certificate.
    EndorseAsk {
        /// Whom the answer goes to.
        owner: u16,
        /// In the text behind its length, u16.
        cert: Cert,
    },
    /// An authority has endorsed the certificate with this digest.
    Endorsed {
        /// Whom it goes to: the owner that asked.
        owner: u16,
        authority: u16,
        /// The digest, `H(0x10 || certificate)`.
        certificate: [u8; 32],
        /// The authority's, of the statement Endorse.
        signature: Signature,
    },
    /// An owner hands a change to a log.
    Submit {
        change: Change,
    },
    /// The log proposes to go in the epoch from a base to a root, by these changes.
    Propose {
        /// The proposer, to which the ballots go.
        log: u16,
        epoch: u64,
        /// The root of the table in which the epoch begins, before anything ripens in it.
        base: [u8; 32],
        /// The root of the table that is ripe in the epoch, with the changes applied.
        root: [u8; 32],
        changes: Changes,
        /// The log's, of the statement Propose.
        signature: Signature,
    },
    /// The log votes for a base and a root.
    Ballot {
        log: u16,
        epoch: u64,
        base: [u8; 32],
        root: [u8; 32],
        /// The log's, of the statement Vote.
        signature: Signature,
    },
    /// The log states what it voted for in the epoch, or that it voted for nothing and will not.
    StatusNote {
        log: u16,
        epoch: u64,
        /// The base and the root that it voted for; `None` where it voted for nothing.
        value: Option<Value>,
        /// The log's, of the statement Status.
        signature: Signature,
    },
    /// The epoch is decided, by these votes.
    Decision {
        epoch: u64,
        /// The root of the table in which the epoch began, before anything ripened in it.
        base: [u8; 32],
        /// The root of the table with the changes applied, which the votes are for.
        root: [u8; 32],
        changes: Changes,
        /// Each with its log's signature of the statement Vote.
        votes: Votes,
    },
    /// The epoch is skipped, by these statuses.
    SkipNote {
        epoch: u64,
        /// Each with its log's signature of the statement Status.
        statuses: Statuses,
    },
    /// A client asks a log for a confirmation, which two authorities are to confirm too.
    ConfirmAsk {
        client: u16,
        name: Name,
        /// The authority that confirms behind the log.
        first: u16,
        /// The authority that confirms behind the first.
        second: u16,
    },
    /// A log has confirmed.
    LogConfirmed {
        part: Confirming,
    },
    /// A log and the first authority have confirmed.
    HalfConfirmed {
        part: Confirming,
        /// The first authority's, of its own Confirm or ConfirmAbsent.
        first_signature: Signature,
    },
    /// A log and two authorities have confirmed. Clients read it in place, as a `ConfView`.
    Confirmation {
        client: u16,
        /// The epoch at whose end it holds.
        epoch: u64,
        name: Name,
        /// The root of the table at the end of the epoch.
        root: [u8; 32],
        body: Body,
        log: u16,
        /// The log's, of its own Confirm, or of its ConfirmAbsent where the name has no certificate.
        log_signature: Signature,
        first: u16,
        /// The first authority's, of its own.
        first_signature: Signature,
        second: u16,
        /// The second authority's, of its own.
        second_signature: Signature,
    },
    /// A log or an authority goes on to the key of the generation behind this one.
    RollNote {
        party: Party,
        /// The generation of the key that signs, from 0.
        generation: u32,
        /// The key of the next generation.
        key: LmsPublic,
        /// The party's, of the statement Roll, by the last leaf of the key of this generation.
        signature: Signature,
    },
}
