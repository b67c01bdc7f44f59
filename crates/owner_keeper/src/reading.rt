//! The order that a text of a journal says.

ghost use Rattle.std.specs.Prelude.{◌≡◌};
ghost use Rattle.std.specs.Option.{ok_or, option_map};
ghost use Rattle.std.specs.Result.{result_ok};
ghost use Rattle.std.specs.Int.{w64};
ghost use Rattle.ar_base.specs.Gives.{GivesUnless, with_error};
ghost use Rattle.ar_bytes.specs.Reading.{number_at, start_of, whole};
ghost use Rattle.ar_cert.specs.Certificate.{certificate_at};
ghost use Rattle.kept_journal.specs.declared.fault.ReplayFault.TheVariants.{Memory, Stuck};
ghost use Rattle.owner_keeper.specs.Texts.{asks_at, attached_by, beginning_at, draft_kept, kept_order, message_kept, permit_kept, staple_kept};
ghost use Rattle.owner_keeper.specs.declared.order.OwnerOrder.TheVariants as orders;

use crate::text::{MOST_ASKS, MOST_HANDOVER};
use crate::{KeptStaple, OwnerOrder, Permit};
use ar_base::Items;
use ar_bytes::Fields;
use ar_cert::{Cert, CertFault};
use ar_message::LONGEST;
use kept_party::ReplayFault;
use std::alloc::Global;

/// A message that is taken.
fn read_message(alloc: Global, bytes: &[u8]) -> Result<OwnerOrder, ReplayFault>
    ensures { GivesUnless Memory (λ order. order) result (ok_or (message_kept bytes.now) Stuck) }
{
    if bytes.len() > LONGEST {
        return Err(ReplayFault::Stuck);
    }
    Ok(OwnerOrder::Take(Items::from_vec(Vec::from_slice(alloc, bytes)?)))
}

/// The certificate with this text.
fn read_cert(alloc: Global, bytes: &[u8]) -> Result<Cert, ReplayFault>
    ensures { GivesUnless Memory (λ cert. cert) result
        (with_error (λ _. Stuck) (whole certificate_at bytes.now)) }
{
    match Cert::read(alloc, bytes) {
        Ok(cert) => Ok(cert),
        Err(CertFault::Form(_)) => Err(ReplayFault::Stuck),
        Err(CertFault::Memory) => Err(ReplayFault::Memory),
    }
}

/// Who is asked.
#[tactic(auto, using(ar_bytes::proofs::Lists::list_steps), unfolding(ar_bytes::specs::Lists::counted_list_at))]
fn read_asks(alloc: Global, fields: &mut Fields) -> Result<Vec<u16>, ReplayFault>
    ensures { GivesUnless Memory (λ asks. (asks.items, fields.new)) result
        (with_error (λ _. Stuck) (asks_at fields.old)) }
{
    let Ok(count) = fields.take_count(MOST_ASKS as u8) else {
        return Err(ReplayFault::Stuck);
    };
    let mut asks = Vec::new(alloc);
    for _ in 0..count {
        let Ok(ask) = fields.take_u16() else {
            return Err(ReplayFault::Stuck);
        };
        match asks.push(ask) {
            Ok(()) => {}
            Err(_) => return Err(ReplayFault::Memory),
        }
    }
    Ok(asks)
}

/// A certificate that is begun, and those who are asked for it.
#[tactic(auto, unfolding(crate::specs::Texts::beginning_at))]
fn read_begin(alloc: Global, bytes: &[u8]) -> Result<OwnerOrder, ReplayFault>
    ensures { GivesUnless Memory (λ order. order) result
        (with_error (λ _. Stuck) (beginning_at (start_of bytes.now))) }
{
    let mut fields = Fields::new(bytes);
    let asks = read_asks(alloc, &mut fields)?;
    let cert = read_cert(alloc, fields.left())?;
    Ok(OwnerOrder::Begin {
        cert,
        asks: Items::from_vec(asks),
    })
}

/// The number of a draft, and nothing behind it.
#[tactic(auto, unfolding(ar_bytes::specs::Reading::whole))]
fn read_draft(bytes: &[u8]) -> Option<u64>
    ensures { result ≡ draft_kept bytes.now }
{
    let mut fields = Fields::new(bytes);
    let draft = fields.u64()?;
    if !fields.at_end() {
        return None;
    }
    Some(draft)
}

/// A handover that is attached.
fn read_attach(alloc: Global, bytes: &[u8]) -> Result<OwnerOrder, ReplayFault>
    ensures { GivesUnless Memory (λ order. order) result
        (ok_or (attached_by (result_ok (number_at w64 (start_of bytes.now)))) Stuck) }
{
    let mut fields = Fields::new(bytes);
    let Some(draft) = fields.u64() else {
        return Err(ReplayFault::Stuck);
    };
    let handover = fields.left();
    if handover.len() > MOST_HANDOVER {
        return Err(ReplayFault::Stuck);
    }
    Ok(OwnerOrder::Attach {
        draft,
        handover: Items::from_vec(Vec::from_slice(alloc, handover)?),
    })
}

/// A certificate that is known.
fn read_know(alloc: Global, bytes: &[u8]) -> Result<OwnerOrder, ReplayFault>
    ensures { GivesUnless Memory (λ order. order) result
        (ok_or (option_map orders.Know (result_ok (whole certificate_at bytes.now))) Stuck) }
{
    let cert = read_cert(alloc, bytes)?;
    Ok(OwnerOrder::Know { cert })
}

/// The order to hand over to a draft.
fn read_handover(bytes: &[u8]) -> Option<OwnerOrder>
    ensures { result ≡ option_map orders.Handover (draft_kept bytes.now) }
{
    let draft = read_draft(bytes)?;
    Some(OwnerOrder::Handover { draft })
}

/// The order to object to a draft.
fn read_object(bytes: &[u8]) -> Option<OwnerOrder>
    ensures { result ≡ option_map orders.Object (draft_kept bytes.now) }
{
    let draft = read_draft(bytes)?;
    Some(OwnerOrder::Object { draft })
}

/// What is allowed, and nothing behind it.
#[tactic(auto, unfolding(ar_bytes::specs::Reading::whole, crate::specs::Texts::permit_at, ar_statement::specs::Fields::digest_at))]
fn read_permit(bytes: &[u8]) -> Option<Permit>
    ensures { result ≡ permit_kept bytes.now }
{
    let mut fields = Fields::new(bytes);
    let draft = fields.u64()?;
    let channel = *fields.array::<32>()?;
    if !fields.at_end() {
        return None;
    }
    Some(Permit { draft, channel })
}

/// A staple, and nothing behind it.
#[tactic(auto, unfolding(ar_bytes::specs::Reading::whole, crate::specs::Texts::staple_read_at, ar_statement::specs::Fields::digest_at))]
fn read_staple(bytes: &[u8]) -> Option<KeptStaple>
    ensures { result ≡ staple_kept bytes.now }
{
    let mut fields = Fields::new(bytes);
    let draft = fields.u64()?;
    let epoch = fields.u64()?;
    let channel = *fields.array::<32>()?;
    if !fields.at_end() {
        return None;
    }
    Some(KeptStaple {
        draft,
        epoch,
        channel,
    })
}

/// The order to allow what is allowed.
fn read_allow(bytes: &[u8]) -> Option<OwnerOrder>
    ensures { result ≡ option_map orders.Allow (permit_kept bytes.now) }
{
    let permit = read_permit(bytes)?;
    Some(OwnerOrder::Allow(permit))
}

/// The order to allow it no longer.
fn read_disallow(bytes: &[u8]) -> Option<OwnerOrder>
    ensures { result ≡ option_map orders.Disallow (permit_kept bytes.now) }
{
    let permit = read_permit(bytes)?;
    Some(OwnerOrder::Disallow(permit))
}

/// The order to sign a staple that the journal has.
fn read_restaple(bytes: &[u8]) -> Option<OwnerOrder>
    ensures { result ≡ option_map orders.Restaple (staple_kept bytes.now) }
{
    let staple = read_staple(bytes)?;
    Some(OwnerOrder::Restaple(staple))
}

/// What a text says. `Stuck` comes where it says nothing, and `Memory` may stand in its place.
pub(crate) fn read_order(alloc: Global, text: &[u8]) -> Result<OwnerOrder, ReplayFault>
    ensures { GivesUnless Memory (λ order. order) result (ok_or (kept_order text.now) Stuck) }
{
    match text {
        [1, bytes @ ..] => read_message(alloc, bytes),
        [2, bytes @ ..] => read_begin(alloc, bytes),
        [3, bytes @ ..] => read_know(alloc, bytes),
        [4, bytes @ ..] => read_handover(bytes).ok_or(ReplayFault::Stuck),
        [5, bytes @ ..] => read_attach(alloc, bytes),
        [6, bytes @ ..] => read_object(bytes).ok_or(ReplayFault::Stuck),
        [7, bytes @ ..] => read_allow(bytes).ok_or(ReplayFault::Stuck),
        [8, bytes @ ..] => read_disallow(bytes).ok_or(ReplayFault::Stuck),
        [9, bytes @ ..] => read_restaple(bytes).ok_or(ReplayFault::Stuck),
        _ => Err(ReplayFault::Stuck),
    }
}
