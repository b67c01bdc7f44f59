//! The records of a file.

ghost use Rattle.std.specs.Prelude.{◌≡◌, ◌⊎◌, ◌↔◌, ◌≤◌, ◌+◌, ◌<◌, ◌^◌, ◌++◌, false, length, take, drop, IfOk, IfSome, IfErr, IsNone, IsTrue, OnOk};
ghost use Rattle.std.specs.Int.{w32, from_be_bytes};
ghost use Rattle.ar_bytes.specs.RoundTrip.{number_text};
ghost use Rattle.chained_journal.specs.Journal.{HasNoRecord, complement, filling, link, record_len, record_text, wanting};
ghost use Rattle.chained_journal.specs.Loaded.{IsLoaded, IsOfRecords};
ghost use Rattle.chained_journal.specs.Parts.{ArePartsOf, AreSpelled};
ghost use Rattle.chained_journal.specs.Refusals.{Refusal};

use crate::chain::{link, start};
use crate::gate::{GATE_LEN, SHUT, behind_open, is_open};
use crate::record::{record_len, wanting};
use crate::standing::Standing;
use crate::{OpenFault, Replay, ReplayFault, Title, Witness};
use ar_bytes::{are_bytes, u32_of};
use std::alloc::Global;

/// How many bytes a header has.
pub(crate) const HEADER_LEN: usize = 40;

/// How many bytes the length of a text and its complement have.
const HEAD_LEN: usize = 8;

/// What stands where a record may stand.
#[derive(Clone, Copy, Debug)]
struct Parts<'a> {
    len: &'a [u8],
    complement: &'a [u8],
    text: &'a [u8],
    filling: &'a [u8],
    chain: &'a [u8],
    behind: &'a [u8],
}

/// The parts of these bytes, where there are enough for a record of the length that stands first, and a gate.
fn parts_of<'a>(bytes: &'a [u8]) -> Option<Parts<'a>>
    ensures parts { IfSome result (λ p. ArePartsOf bytes.now p.len.now p.complement.now p.text.now
        p.filling.now p.chain.now p.behind.now) }
    ensures none { IsNone result → (length bytes.now < 8)
        ⊎ (length bytes.now < record_len (from_be_bytes w32 (take 4 bytes.now)) + 8) }
{
    if bytes.len() < HEAD_LEN {
        return None;
    }
    let (len, rest) = bytes.split_at(4);
    let n = u32_of(len) as usize;
    if bytes.len() < record_len(n) + GATE_LEN {
        return None;
    }
    let (complement, rest) = rest.split_at(4);
    let (text, rest) = rest.split_at(n);
    let (filling, rest) = rest.split_at(wanting(n));
    let (chain, behind) = rest.split_at(32);
    Some(Parts {
        len,
        complement,
        text,
        filling,
        chain,
        behind,
    })
}

/// Are these bytes the same?
fn are_same(one: &[u8], other: &[u8]) -> bool
    ensures { IsTrue result ↔ (one.now ≡ other.now) }
{
    one == other
}

/// Are these the complement of the text's length, zeros, and this chain?
#[tactic(auto, unfolding(ar_bytes::specs::RoundTrip::number_text))]
fn is_spelled(complement: &[u8], text: &[u8], filling: &[u8], chain: &[u8], next: &[u8; 32]) -> bool
    requires short { length text.now < 2 ^ 32 }
    ensures yes { IsTrue result
        → AreSpelled complement.now text.now filling.now chain.now next.now }
    ensures no { result ≡ false
        → ¬ AreSpelled complement.now text.now filling.now chain.now next.now }
{
    let wanted = (u32::MAX - text.len() as u32).to_be_bytes();
    if !are_same(complement, &wanted) {
        return false;
    }
    if !are_same(filling, &SHUT[..wanting(text.len())]) {
        return false;
    }
    are_same(chain, next)
}

/// The record that stands at the front of these bytes, behind texts with this chain, where it is whole and its chain is right: its
/// text, what stands behind it, and the chain with it.
pub(crate) fn record_in<'a>(
    chain: &[u8; 32],
    bytes: &'a [u8],
) -> Option<(&'a [u8], &'a [u8], [u8; 32])>
    ensures whole { IfSome result (λ r.
        (bytes.now ≡ record_text chain.now r.0.now ++ r.1.now) × (8 ≤ length r.1.now)
        × (length r.0.now < 2 ^ 32) × (r.2 ≡ link chain.now r.0.now)) }
    ensures none { IsNone result → HasNoRecord chain.now bytes.now }
{
    let parts = parts_of(bytes)?;
    are_bytes(parts.len);
    let next = link(chain, parts.text);
    if !is_spelled(
        parts.complement,
        parts.text,
        parts.filling,
        parts.chain,
        &next,
    ) {
        return None;
    }
    Some((parts.text, parts.behind, next))
}

/// Has a party take the text of the record at this place again.
fn replay_at<P: Replay>(
    alloc: Global,
    text: &[u8],
    more: bool,
    place: usize,
    party: &mut P,
) -> Result<(), OpenFault>
    ensures taken { OnOk result (P.takes party.old text.now more party.new) }
    ensures refused { IfErr result (λ e. (e ≡ OpenFault.Memory)
        ⊎ ((e ≡ OpenFault.NotTaken place)
        × ((later : P) → ¬ P.takes party.old text.now more later))) }
{
    match party.replay(alloc, text, more) {
        Ok(()) => Ok(()),
        Err(ReplayFault::Stuck) => Err(OpenFault::NotTaken(place as u64)),
        Err(ReplayFault::Memory) => Err(OpenFault::Memory),
    }
}

/// The first of two chains, where there are fewer texts than were witnessed; else the second.
fn noted(count: u64, witnessed: u64, next: &[u8; 32], at_witness: &[u8; 32]) -> [u8; 32]
    ensures below { count < witnessed → result ≡ next.now }
    ensures beyond { witnessed ≤ count → result ≡ at_witness.now }
{
    if count < witnessed {
        *next
    } else {
        *at_witness
    }
}

/// Has a party take the texts of a file again, which begins with this title's header and has a gate behind it. With where they
/// end comes the chain of as many as were witnessed.
pub(crate) fn load<P: Replay>(
    alloc: Global,
    title: &Title,
    witness: &Witness,
    file: &[u8],
    party: &mut P,
) -> Result<(Standing, [u8; 32]), OpenFault>
    requires header { file.now ≡ title.now.header ++ drop 40 file.now }
    requires long { 48 ≤ length file.now }
    requires titled { length title.now.header ≡ 40 }
    ensures ok { IfOk result (λ r.
        IsLoaded P.takes party.old party.new title.now witness.now.count file.now r.0 r.1) }
    ensures refused { IfErr result (λ e.
        Refusal P.takes title.now witness.now party.old file.now e) }
    ensures of_records { IfErr result (λ e. IsOfRecords e) }
{
    let (_header, records) = file.split_at(HEADER_LEN);
    let mut rest = records;
    let mut end = HEADER_LEN;
    let mut count = 0;
    let mut chain = start(title);
    let mut at_witness = chain;
    while let Some(ahead) = behind_open(rest) {
        let Some(record) = record_in(&chain, ahead) else {
            return Err(OpenFault::Damaged(end as u64));
        };
        let (text, behind) = (record.0, record.1);
        let next = record.2;
        if let Err(fault) = replay_at(alloc, text, is_open(behind), end, party) {
            return Err(fault);
        }
        rest = behind;
        end += GATE_LEN + record_len(text.len());
        at_witness = noted(count, witness.count, &next, &at_witness);
        count += 1;
        chain = next;
    }
    let standing = Standing {
        end: end as u64,
        count,
        chain,
    };
    Ok((standing, at_witness))
}
