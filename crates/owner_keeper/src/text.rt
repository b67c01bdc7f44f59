//! The text of an order, as a journal has it.

ghost use Rattle.std.specs.Prelude.{◌≡◌, ◌++◌, ◌∷◌, ◌<◌, ◌≤◌, ◌^◌, Some, length, IfOk, OnOk};
ghost use Rattle.std.specs.Int.{w64};
ghost use Rattle.std.specs.List.{AllByRecursion};
ghost use Rattle.ar_bytes.specs.Ascending.{numbers_text};
ghost use Rattle.ar_bytes.specs.RoundTrip.{number_text};
ghost use Rattle.ar_cert.specs.Certificate.{certificate_text};
ghost use Rattle.owner_keeper.specs.Texts.{IsPermit, IsStapleParts, IsWhole, asks_text, kept_text, most_asks, most_handover, permit_text, staple_text};
ghost use Rattle.owner_keeper.specs.declared.order.OwnerOrder.TheVariants as orders;

use crate::stapler::epoch_in;
use crate::{KeptStaple, OwnerOrder, Permit};
use ar_bytes::{digest_told, put_u8, put_u16, put_u64};
use ar_cert::Cert;
use ar_message::LONGEST;
use kept_party::KeptText;
use std::alloc::{AllocError, Global};

/// The most authorities that are asked at once.
pub(crate) const MOST_ASKS: usize = 255;

/// The most bytes of a handover.
pub const MOST_HANDOVER: usize = 65_535;

/// The record of a message; a message that is too long has none.
fn record_of_message(alloc: Global, bytes: &[u8]) -> Result<Option<KeptText>, AllocError>
    ensures { IfOk result (λ made. made ≡ kept_text (orders.Take bytes.now)) }
{
    if bytes.len() > LONGEST {
        return Ok(None);
    }
    Ok(Some(KeptText::of(alloc, 1, bytes)?))
}

/// Appends numbers, two bytes for each. After an error a part of them may be appended.
fn put_numbers(alloc: Global, body: &mut Vec<u8>, numbers: &[u16]) -> Result<(), AllocError>
    ensures { OnOk result (body.new.items ≡ body.old.items ++ numbers_text numbers.now) }
{
    for number in numbers {
        put_u16(alloc, body, *number)?;
    }
    Ok(())
}

/// What stands behind the kind of a certificate that is begun.
fn begin_body(alloc: Global, cert: &Cert, asks: &[u16]) -> Result<Vec<u8>, AllocError>
    requires { length asks.now ≤ most_asks }
    ensures { IfOk result (λ body. body.items ≡ asks_text asks.now ++ certificate_text cert.now) }
{
    let mut body = Vec::new(alloc);
    put_u8(alloc, &mut body, asks.len() as u8)?;
    put_numbers(alloc, &mut body, asks)?;
    cert.write(alloc, &mut body)?;
    Ok(body)
}

/// The record of a certificate that is begun; where too many are asked there is none.
fn record_of_begin(alloc: Global, cert: &Cert, asks: &[u16]) -> Result<Option<KeptText>, AllocError>
    ensures { IfOk result (λ made. made ≡ kept_text (orders.Begin cert.now asks.now)) }
{
    if asks.len() > MOST_ASKS {
        return Ok(None);
    }
    cert.told();
    let body = begin_body(alloc, cert, asks)?;
    Ok(Some(KeptText::of(alloc, 2, &body)?))
}

/// The record of a certificate that is known.
fn record_of_cert(alloc: Global, cert: &Cert) -> Result<KeptText, AllocError>
    ensures { IfOk result (λ made. Some made ≡ kept_text (orders.Know cert.now)) }
{
    cert.told();
    let mut body = Vec::new(alloc);
    cert.write(alloc, &mut body)?;
    KeptText::of(alloc, 3, &body)
}

/// The record of this kind of what is about a draft: its number, and the bytes behind it.
fn record_of_draft(
    alloc: Global,
    kind: u8,
    draft: u64,
    bytes: &[u8],
) -> Result<KeptText, AllocError>
    requires { length bytes.now ≤ most_handover }
    ensures { IfOk result (λ made. made ≡ kind ∷ (number_text w64 draft ++ bytes.now)) }
{
    let mut body = Vec::new(alloc);
    put_u64(alloc, &mut body, draft)?;
    body.extend_from_slice(bytes)?;
    KeptText::of(alloc, kind, &body)
}

/// The record of a handover that is attached; one that is too long has none.
fn record_of_attach(
    alloc: Global,
    draft: u64,
    handover: &[u8],
) -> Result<Option<KeptText>, AllocError>
    ensures { IfOk result (λ made. made ≡ kept_text (orders.Attach draft handover.now)) }
{
    if handover.len() > MOST_HANDOVER {
        return Ok(None);
    }
    Ok(Some(record_of_draft(alloc, 5, draft, handover)?))
}

/// The record of this kind of what is allowed.
fn record_of_permit(alloc: Global, kind: u8, permit: &Permit) -> Result<KeptText, AllocError>
    ensures { IfOk result (λ made. made ≡ kind ∷ permit_text permit.now) }
{
    record_of_draft(alloc, kind, permit.draft, &permit.channel)
}

/// The record of a staple.
fn record_of_staple(alloc: Global, staple: &KeptStaple) -> Result<KeptText, AllocError>
    ensures { IfOk result (λ made. made ≡ 9 ∷ staple_text staple.now) }
{
    let mut body = Vec::new(alloc);
    put_u64(alloc, &mut body, staple.epoch)?;
    body.extend_from_slice(&staple.channel)?;
    record_of_draft(alloc, 9, staple.draft, &body)
}

/// The record of an order, where it has a text. The only error is want of memory.
pub(crate) fn record_of(alloc: Global, order: &OwnerOrder) -> Result<Option<KeptText>, AllocError>
    ensures { IfOk result (λ made. made ≡ kept_text order.now) }
{
    match order {
        OwnerOrder::Take(bytes) => record_of_message(alloc, bytes.as_slice()),
        OwnerOrder::Begin { cert, asks } => record_of_begin(alloc, cert, asks.as_slice()),
        OwnerOrder::Know { cert } => Ok(Some(record_of_cert(alloc, cert)?)),
        OwnerOrder::Handover { draft } => Ok(Some(record_of_draft(alloc, 4, *draft, &[])?)),
        OwnerOrder::Attach { draft, handover } => {
            record_of_attach(alloc, *draft, handover.as_slice())
        }
        OwnerOrder::Object { draft } => Ok(Some(record_of_draft(alloc, 6, *draft, &[])?)),
        OwnerOrder::Submit { .. } | OwnerOrder::Leaves => Ok(None),
        OwnerOrder::Allow(permit) => Ok(Some(record_of_permit(alloc, 7, permit)?)),
        OwnerOrder::Disallow(permit) => Ok(Some(record_of_permit(alloc, 8, permit)?)),
        OwnerOrder::Staple {
            permit,
            confirmation,
        } => {
            let staple = KeptStaple::new(permit, epoch_in(confirmation.as_slice()));
            Ok(Some(record_of_staple(alloc, &staple)?))
        }
        OwnerOrder::Restaple(staple) => Ok(Some(record_of_staple(alloc, staple)?)),
    }
}

/// Tells a proof that numbers have two bytes each. It does nothing.
fn numbers_told(numbers: &[u16])
    ensures { AllByRecursion (λ n. n < 2 ^ 16) numbers.now }
{
    let _numbers = numbers;
}

/// Tells a proof that what is allowed is so as a program has it. It does nothing.
fn permit_told(permit: &Permit)
    ensures { IsPermit permit.now }
{
    let _draft = permit.draft;
    digest_told(&permit.channel);
}

/// Tells a proof that a staple is one that a program has. It does nothing.
fn staple_told(staple: &KeptStaple)
    ensures { IsStapleParts staple.now }
{
    let _draft = staple.draft;
    let _epoch = staple.epoch;
    digest_told(&staple.channel);
}

/// Tells a proof that an order is one that a program has. It does nothing.
pub(crate) fn order_told(order: &OwnerOrder)
    ensures { IsWhole order.now }
{
    match order {
        OwnerOrder::Take(_) => {}
        OwnerOrder::Begin { cert, asks } => {
            cert.told();
            numbers_told(asks.as_slice());
        }
        OwnerOrder::Know { cert } => cert.told(),
        OwnerOrder::Handover { draft }
        | OwnerOrder::Attach { draft, .. }
        | OwnerOrder::Object { draft }
        | OwnerOrder::Submit { draft } => {
            let _draft = *draft;
        }
        OwnerOrder::Allow(permit) | OwnerOrder::Disallow(permit) => permit_told(permit),
        OwnerOrder::Staple {
            permit,
            confirmation,
        } => {
            permit_told(permit);
            let _epoch = epoch_in(confirmation.as_slice());
        }
        OwnerOrder::Restaple(staple) => staple_told(staple),
        OwnerOrder::Leaves => {}
    }
}
