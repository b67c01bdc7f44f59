//! Whether a run meets the premises on parties and on forgeries.

ghost use Rattle.std.specs.Prelude.{◌≡◌, ◌↔◌, IsTrue, IfOk, is_ok, slice_get};
ghost use Rattle.std.specs.Option.{option_map};
ghost use Rattle.epoch_log.specs.Log.{record_of};
ghost use Rattle.std.specs.List.{list_all};
ghost use Rattle.ar_claims.specs.Claimed.{claimed_in};
ghost use Rattle.ar_safety.specs.Held.{honest_below, records_of};
ghost use Rattle.ar_safety.specs.Theorem.{Few};
ghost use Rattle.ar_statement.specs.Claims.{party};
ghost use Rattle.party_keys.specs.Signatures.{verified};
ghost use Rattle.run_premises.specs.Books.{are_fair, holds, holds_of, is_fair};

use crate::claiming::claims_in;
use ar_message::{Message, MessageFault};
use ar_records::Records;
use ar_statement::{Party, Role, has_party};
use authority_core::AuthorityRecord;
use epoch_log::Record;
use key_roll::RollBook;
use party_keys::{Claimed, Directory};
use std::alloc::{AllocError, Global};
use std::slice;

/// Whether at most two logs and authorities are dishonest.
pub fn few(records: &Records) -> bool
    ensures { IsTrue result ↔ Few (records_of records.now) }
{
    records.dishonest.len() <= 2
}

// ---- books

/// Whether a text stands in a book.
fn holds(book: &RollBook, text: &[u8]) -> bool
    ensures { result ≡ holds book.now.book text.now }
{
    book.list()
        .iter()
        .any(|signed| text == signed.text.as_bytes())
}

/// How many parties of a role that have a number below this one are honest.
#[tactic(auto, using(crate::proofs::Counting::counting_laws))]
pub(crate) fn honest_below(dishonest: &[Party], role: Role, number: u16) -> usize
    ensures { result ≡ honest_below (party role) dishonest.now number }
{
    let mut count = 0;
    for other in 0..number {
        if !has_party(dishonest, role.party(other)) {
            count += 1;
        }
    }
    count
}

/// The record at a place among those of the honest logs.
pub(crate) fn log_at<'a>(records: &'a Records, place: usize) -> Option<&'a Record>
    ensures { option_map (λ kept. record_of kept.now) result ≡ slice_get records.now.logs place }
{
    records.logs.get(place).copied()
}

/// The record at a place among those of the honest authorities.
fn authority_at<'a>(records: &'a Records, place: usize) -> Option<&'a AuthorityRecord>
    ensures { option_map (λ kept. kept.now) result ≡ slice_get records.now.authorities place }
{
    records.authorities.get(place).copied()
}

/// Whether the book of the log with this number has the text.
#[tactic(auto, using(crate::proofs::Counting::place_laws))]
fn log_holds(records: &Records, number: u16, text: &[u8]) -> bool
    ensures { result ≡ holds_of (records_of records.now) Role.LogServer number text.now }
{
    let place = honest_below(&records.dishonest, Role::LogServer, number);
    match log_at(records, place) {
        Some(record) => holds(&record.signed, text),
        None => false,
    }
}

/// Whether the book of the authority with this number has the text.
#[tactic(auto, using(crate::proofs::Counting::place_laws))]
fn authority_holds(records: &Records, number: u16, text: &[u8]) -> bool
    ensures { result ≡ holds_of (records_of records.now) Role.Authority number text.now }
{
    let place = honest_below(&records.dishonest, Role::Authority, number);
    match authority_at(records, place) {
        Some(record) => holds(record.signed(), text),
        None => false,
    }
}

/// Whether the book of the party has the text.
fn is_held(records: &Records, party: Party, text: &[u8]) -> bool
    ensures { result ≡ holds_of (records_of records.now) party.role party.number text.now }
{
    match party.role {
        Role::LogServer => log_holds(records, party.number, text),
        Role::Authority => authority_holds(records, party.number, text),
        Role::Owner | Role::Client => false,
    }
}

// ---- forgeries

/// Whether the signature of a claim is valid under the keys.
fn is_valid(directory: &Directory, claim: &Claimed) -> bool
    ensures { result ≡ is_ok
        (verified directory.now claim.now.party claim.now.text claim.now.signature) }
{
    directory.all_signed(slice::from_ref(claim)).is_ok()
}

/// Whether a claim is fair.
#[tactic(auto, unfolding(crate::specs::Books::is_fair))]
fn is_fair(records: &Records, claim: &Claimed) -> bool
    ensures { result ≡ is_fair records.now claim.now }
{
    let seen = claim.seen();
    has_party(&records.dishonest, seen.party)
        || !is_valid(records.directory, claim)
        || is_held(records, seen.party, seen.text.as_bytes())
}

/// Whether each of these claims is fair.
fn all_fair(records: &Records, claims: &[Claimed]) -> bool
    ensures { result ≡ list_all (is_fair records.now) claims.now }
{
    claims.iter().all(|claim| is_fair(records, claim))
}

/// Whether each claim of a message is fair.
fn is_fair_message(alloc: Global, records: &Records, message: &Message) -> Result<bool, AllocError>
    ensures { IfOk result (λ fair. fair ≡ list_all (is_fair records.now) (claimed_in message.now)) }
{
    let claims = claims_in(alloc, message)?;
    Ok(all_fair(records, &claims))
}

/// Whether each signature in these bytes that is valid under a key which clients know of an honest party is on what that party
/// signed. Bytes that are no message have none. The only error is want of memory.
#[tactic(auto, unfolding(ar_claims::specs::Claimed::claimed_in_bytes))]
pub fn is_unforged(alloc: Global, records: &Records, bytes: &[u8]) -> Result<bool, AllocError>
    ensures { IfOk result (λ unforged. unforged ≡ are_fair records.now bytes.now) }
{
    match Message::read(alloc, bytes) {
        Ok(message) => is_fair_message(alloc, records, &message),
        Err(MessageFault::Form(_)) => Ok(true),
        Err(MessageFault::Memory) => Err(AllocError),
    }
}
