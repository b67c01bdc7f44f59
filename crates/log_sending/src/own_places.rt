//! Lists with a signature of the log's own among others: as they are sent, with zero bytes in its place, and where it is
//! due. Each signature is the end of its entry, and the list is the end of its message, or stands in front of a part that
//! is not counted here.

ghost use Rattle.std.specs.Prelude.{◌≡◌, ◌+◌, ◌≤◌, ◌<◌, ◌^◌, ◌++◌, is_none, length, unwrap_or, flat_map, IfOk, OnOk};
ghost use Rattle.std.specs.List.{AllByRecursion};
ghost use Rattle.ar_bytes.specs.Joined.{optional_text};
ghost use Rattle.ar_cert.specs.Changes.{IsSignature};
ghost use Rattle.ar_council.specs.Values.{status_claim, vote_claim};
ghost use Rattle.ar_message.specs.Lists.{AreLogStatuses, AreVotes, IsStatus, IsVote, status_text, vote_text};
ghost use Rattle.ar_message.specs.Filling.{zeros};
ghost use Rattle.ar_statement.specs.Claims.{claim_of, value_text, text_of};
ghost use Rattle.log_sending.specs.Sending.{if_own, own_places, own_statuses, own_votes, place_for, sent_status, sent_statuses, sent_vote, sent_votes};

use crate::sending::OwnPlace;
use ar_base::Items;
use ar_council::{status_statement, vote_statement};
use ar_message::{LogStatus, Signature, Statuses, Vote, Votes};
use ar_statement::{Statement, value_told};
use std::alloc::{AllocError, Global};
use vote_quorum::Value;

/// A vote that is kept: the log, and its signature; none for the log's own.
pub type KeptVote = (u16, Option<Items<u8>>);

/// A status that was counted: the log, the ballot that it reports, if any, and its signature; none for the log's own.
pub(crate) type CountedStatus = (u16, Option<Value>, Option<Items<u8>>);

// ---- signatures

/// A signature as it is sent.
fn sent_signature(
    alloc: Global,
    len: usize,
    signature: &Option<Items<u8>>,
) -> Result<Signature, AllocError>
    requires { IsSignature (unwrap_or signature.now (zeros len)) }
    ensures { IfOk result (λ sent. sent ≡ unwrap_or signature.now (zeros len)) }
{
    match signature {
        Some(bytes) => Ok(Signature {
            bytes: Vec::from_slice(alloc, bytes.as_slice())?,
        }),
        None => Signature::zeros(alloc, len),
    }
}

/// How many bytes it has there.
fn sent_len(len: usize, signature: &Option<Items<u8>>) -> usize
    ensures { result ≡ length (unwrap_or signature.now (zeros len)) }
{
    match signature {
        Some(bytes) => bytes.len(),
        None => len,
    }
}

/// Whether the log's own signature is due in its place.
fn is_own(signature: &Option<Items<u8>>) -> bool
    ensures { result ≡ is_none signature.now }
{
    match signature {
        Some(_) => false,
        None => true,
    }
}

/// Adds the place of a signature that is the log's own.
fn add_own(
    own: &mut Vec<OwnPlace<'static>>,
    is_own: bool,
    at: usize,
    statement: Statement<'static>,
) -> Result<(), AllocError>
    ensures { OnOk result
        (own.new.items ≡ own.old.items
        ++ if_own is_own (place_for at (text_of (claim_of statement.entry)))) }
{
    if is_own {
        own.push(OwnPlace { at, statement })?;
    }
    Ok(())
}

// ---- votes

/// Adds votes as they are sent.
fn add_votes(
    alloc: Global,
    len: usize,
    votes: &[KeptVote],
    sent: &mut Vec<Vote>,
) -> Result<(), AllocError>
    requires { AllByRecursion IsVote (sent_votes len votes.now) }
    ensures { OnOk result (sent.new.items ≡ sent.old.items ++ sent_votes len votes.now) }
{
    if let [vote, rest @ ..] = votes {
        let signature = sent_signature(alloc, len, &vote.1)?;
        sent.push(Vote {
            log: vote.0,
            signature,
        })?;
        add_votes(alloc, len, rest, sent)?;
    }
    Ok(())
}

/// Votes as they are sent, with zero bytes for the log's own signature.
pub fn sent_votes(alloc: Global, len: usize, votes: &[KeptVote]) -> Result<Votes, AllocError>
    requires { AreVotes (sent_votes len votes.now) }
    ensures { IfOk result (λ sent. sent ≡ sent_votes len votes.now) }
{
    let mut list = Vec::new(alloc);
    add_votes(alloc, len, votes, &mut list)?;
    Ok(Votes { list })
}

/// How many bytes a vote has in a message.
#[tactic(auto, using(crate::proofs::OwnPlaces::vote_len))]
fn vote_len(len: usize, vote: &KeptVote) -> usize
    requires { length (vote_text (sent_vote len vote.now)) < 2 ^ 64 }
    ensures { result ≡ length (vote_text (sent_vote len vote.now)) }
{
    4 + sent_len(len, &vote.1)
}

/// How many bytes votes have in a message.
fn votes_len(len: usize, votes: &[KeptVote]) -> usize
    requires { length (flat_map vote_text (sent_votes len votes.now)) < 2 ^ 64 }
    ensures { result ≡ length (flat_map vote_text (sent_votes len votes.now)) }
{
    match votes {
        [] => 0,
        [vote, rest @ ..] => vote_len(len, vote) + votes_len(len, rest),
    }
}

/// Adds the places of the votes that are the log's own, in a list whose first entry begins at this place.
fn add_own_votes(
    own: &mut Vec<OwnPlace<'static>>,
    len: usize,
    log: u16,
    epoch: u64,
    value: &Value,
    at: usize,
    votes: &[KeptVote],
) -> Result<(), AllocError>
    requires { at + length (flat_map vote_text (sent_votes len votes.now)) < 2 ^ 64 }
    ensures { OnOk result (own.new.items ≡ own.old.items
        ++ own_places (λ v. is_none v.1) (λ v.
        length (vote_text (sent_vote len v))) len
        (text_of (vote_claim log epoch value.now)) at votes.now) }
{
    if let [vote, rest @ ..] = votes {
        let end = at + vote_len(len, vote);
        let statement = vote_statement(log, epoch, value);
        add_own(own, is_own(&vote.1), end.saturating_sub(len), statement)?;
        add_own_votes(own, len, log, epoch, value, end, rest)?;
    }
    Ok(())
}

/// The places of the votes that are the log's own, in votes in front of this place of a message.
pub fn own_votes(
    alloc: Global,
    len: usize,
    log: u16,
    epoch: u64,
    value: &Value,
    end: usize,
    votes: &[KeptVote],
) -> Result<Vec<OwnPlace<'static>>, AllocError>
    requires { length (flat_map vote_text (sent_votes len votes.now)) ≤ end }
    ensures { IfOk result (λ own.
        own.items ≡ own_votes len (text_of (vote_claim log epoch value.now)) end votes.now) }
{
    let mut own: Vec<OwnPlace<'static>> = Vec::new(alloc);
    let start = end - votes_len(len, votes);
    add_own_votes(&mut own, len, log, epoch, value, start, votes)?;
    Ok(own)
}

// ---- statuses

/// Adds statuses as they are sent.
fn add_statuses(
    alloc: Global,
    len: usize,
    statuses: &[CountedStatus],
    sent: &mut Vec<LogStatus>,
) -> Result<(), AllocError>
    requires { AllByRecursion IsStatus (sent_statuses len statuses.now) }
    ensures { OnOk result (sent.new.items ≡ sent.old.items ++ sent_statuses len statuses.now) }
{
    if let [status, rest @ ..] = statuses {
        let signature = sent_signature(alloc, len, &status.2)?;
        sent.push(LogStatus {
            log: status.0,
            value: status.1,
            signature,
        })?;
        add_statuses(alloc, len, rest, sent)?;
    }
    Ok(())
}

/// Statuses as they are sent, with zero bytes for the log's own signature.
pub(crate) fn sent_statuses(
    alloc: Global,
    len: usize,
    statuses: &[CountedStatus],
) -> Result<Statuses, AllocError>
    requires { AreLogStatuses (sent_statuses len statuses.now) }
    ensures { IfOk result (λ sent. sent ≡ sent_statuses len statuses.now) }
{
    let mut list = Vec::new(alloc);
    add_statuses(alloc, len, statuses, &mut list)?;
    Ok(Statuses { list })
}

/// How many bytes the ballot of a status has in a message: a flag, and for a ballot its base and root.
fn ballot_len(value: &Option<Value>) -> usize
    ensures { result ≡ length (optional_text value_text value.now) }
{
    match value {
        Some(value) => {
            value_told(value);
            1 + value.base.len() + value.root.len()
        }
        None => 1,
    }
}

/// How many bytes a status has in a message.
#[tactic(auto, using(crate::proofs::OwnPlaces::status_len))]
fn status_len(len: usize, status: &CountedStatus) -> usize
    requires { length (status_text (sent_status len status.now)) < 2 ^ 64 }
    ensures { result ≡ length (status_text (sent_status len status.now)) }
{
    4 + ballot_len(&status.1) + sent_len(len, &status.2)
}

/// How many bytes statuses have in a message.
fn statuses_len(len: usize, statuses: &[CountedStatus]) -> usize
    requires { length (flat_map status_text (sent_statuses len statuses.now)) < 2 ^ 64 }
    ensures { result ≡ length (flat_map status_text (sent_statuses len statuses.now)) }
{
    match statuses {
        [] => 0,
        [status, rest @ ..] => status_len(len, status) + statuses_len(len, rest),
    }
}

/// Adds the places of the statuses that are the log's own, in a list whose first entry begins at this place.
fn add_own_statuses(
    own: &mut Vec<OwnPlace<'static>>,
    len: usize,
    log: u16,
    epoch: u64,
    value: &Option<Value>,
    at: usize,
    statuses: &[CountedStatus],
) -> Result<(), AllocError>
    requires { at + length (flat_map status_text (sent_statuses len statuses.now)) < 2 ^ 64 }
    ensures { OnOk result (own.new.items ≡ own.old.items
        ++ own_places (λ s. is_none s.2) (λ s.
        length (status_text (sent_status len s))) len
        (text_of (status_claim log epoch value.now)) at statuses.now) }
{
    if let [status, rest @ ..] = statuses {
        let end = at + status_len(len, status);
        let statement = status_statement(log, epoch, value);
        add_own(own, is_own(&status.2), end.saturating_sub(len), statement)?;
        add_own_statuses(own, len, log, epoch, value, end, rest)?;
    }
    Ok(())
}

/// The places of the statuses that are the log's own, in statuses in front of this place of a message.
pub(crate) fn own_statuses(
    alloc: Global,
    len: usize,
    log: u16,
    epoch: u64,
    value: &Option<Value>,
    end: usize,
    statuses: &[CountedStatus],
) -> Result<Vec<OwnPlace<'static>>, AllocError>
    requires { length (flat_map status_text (sent_statuses len statuses.now)) ≤ end }
    ensures { IfOk result (λ own.
        own.items ≡ own_statuses len
        (text_of (status_claim log epoch value.now)) end statuses.now) }
{
    let mut own: Vec<OwnPlace<'static>> = Vec::new(alloc);
    let start = end - statuses_len(len, statuses);
    add_own_statuses(&mut own, len, log, epoch, value, start, statuses)?;
    Ok(own)
}
