//! Lines by which an owner begins a certificate.

ghost use Rattle.std.specs.Prelude.{◌≡◌, ◌<◌, All, IfOk};
ghost use Rattle.owner_keeper.specs.declared.order.OwnerOrder.TheVariants as orders;
ghost use Rattle.party_desk.specs.Asking.{ReadsAs};
ghost use Rattle.party_desk.specs.Owners.{order_for_owner};
ghost use Rattle.script_text.specs.declared.line.EventLine.TheVariants as events;

use crate::naming::{can_be_followed, draft_named, names_owner, need_asks, need_policy, need_room};
use crate::unread::Unread;
use ar_cert::Cert;
use ar_names::NameView;
use cert_drafts::{first_certificate, narrow, next_certificate, updated_certificate};
use owner_keeper::{OwnerKeeper, OwnerOrder};
use script_text::{NumberList, PolicyWords};
use std::alloc::{AllocError, Global};

/// The order to begin a certificate, and to ask these authorities for it. The only error is want of memory.
fn begun(alloc: Global, cert: Cert, asks: &NumberList) -> Result<OwnerOrder, AllocError>
    requires { All (λ number. number < 65536) asks.now }
    ensures { IfOk result (λ order. order ≡ orders.Begin cert asks.now) }
{
    let asks = narrow(alloc, asks)?;
    Ok(OwnerOrder::Begin { cert, asks })
}

/// What a line `register` asks.
pub(crate) fn registering(
    owner: &OwnerKeeper,
    alloc: Global,
    named: u16,
    name: &NameView,
    words: &PolicyWords,
    asks: &NumberList,
) -> Result<OwnerOrder, Unread>
    ensures { ReadsAs (λ order. order) result
        (order_for_owner owner.now (events.Register named name.now words.now asks.now)) }
{
    names_owner(owner, named)?;
    need_policy(words)?;
    need_asks(owner, 8, asks.as_slice())?;
    need_room(owner)?;
    let cert = first_certificate(alloc, owner.public(), name, words)?;
    Ok(begun(alloc, cert, asks)?)
}

/// What a line `update` asks.
pub(crate) fn updating(
    owner: &OwnerKeeper,
    alloc: Global,
    named: u16,
    draft: u64,
    words: &PolicyWords,
    asks: &NumberList,
) -> Result<OwnerOrder, Unread>
    ensures { ReadsAs (λ order. order) result
        (order_for_owner owner.now (events.Update named draft words.now asks.now)) }
{
    names_owner(owner, named)?;
    let old = draft_named(owner, draft, 2)?;
    need_policy(words)?;
    need_asks(owner, 8, asks.as_slice())?;
    need_room(owner)?;
    can_be_followed(old)?;
    let cert = updated_certificate(alloc, owner.public(), old, words)?;
    Ok(begun(alloc, cert, asks)?)
}

/// What a line `revoke` asks.
pub(crate) fn revoking(
    owner: &OwnerKeeper,
    alloc: Global,
    named: u16,
    draft: u64,
    asks: &NumberList,
) -> Result<OwnerOrder, Unread>
    ensures { ReadsAs (λ order. order) result
        (order_for_owner owner.now (events.Revoke named draft asks.now)) }
{
    names_owner(owner, named)?;
    let old = draft_named(owner, draft, 2)?;
    need_asks(owner, 3, asks.as_slice())?;
    need_room(owner)?;
    can_be_followed(old)?;
    let cert = next_certificate(alloc, owner.public(), old, true)?;
    Ok(begun(alloc, cert, asks)?)
}
