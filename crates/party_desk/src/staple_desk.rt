//! Lines of an owner that staples.

ghost use Rattle.std.specs.Prelude.{◌≡◌, codes};
ghost use Rattle.std.specs.Option.{option_copied};
ghost use Rattle.ar_lines.specs.Views.{words_behind};
ghost use Rattle.owner_keeper.specs.Stapling.{free_of};
ghost use Rattle.owner_keeper.specs.declared.order.OwnerOrder.TheVariants as orders;
ghost use Rattle.party_desk.specs.Asking.{ReadsAs, of_form};
ghost use Rattle.party_desk.specs.Owners.{draft_told, is_told, leaves_fields, leaves_order, leaves_told, leaves_unasked, not_stapled, permit_fields, permit_order, staple_fields, staple_order, stapled_draft};
ghost use Rattle.party_desk.specs.Telling.{Puts};

use crate::forms::{bytes_of, one_word, owner_of, three_words, two_words};
use crate::naming::{draft_named, names_owner, who};
use crate::unread::Unread;
use crate::writing::{put, put_draft_step, put_leaves, put_refused_so};
use ar_base::Items;
use ar_lines::{Reason, array_of_hex, number_of};
use owner_keeper::{OwnerKeeper, OwnerOrder, Permit};
use std::alloc::{AllocError, Global};

// ---- what a line asks

/// The fields behind `allow` and `disallow`: a draft, and a TLS key.
fn permit_fields(behind: Option<&[u8]>) -> Result<Permit, Unread>
    ensures { ReadsAs (λ permit. permit) result
        (of_form (permit_fields (words_behind (option_copied behind.entry)))) }
{
    let (draft, channel) = two_words(behind)?;
    let Some(draft) = number_of(draft) else {
        return Err(Unread::from(Reason::Field(1)));
    };
    match array_of_hex(channel) {
        Some(channel) => Ok(Permit { draft, channel }),
        None => Err(Unread::from(Reason::Field(2))),
    }
}

/// What a line `allow <draft> <64 hex>` asks.
pub(crate) fn allowing(owner: &OwnerKeeper, behind: Option<&[u8]>) -> Result<OwnerOrder, Unread>
    ensures { ReadsAs (λ order. order) result
        (permit_order owner.now orders.Allow (words_behind (option_copied behind.entry))) }
{
    let permit = permit_fields(behind)?;
    draft_named(owner, permit.draft, 1)?;
    Ok(OwnerOrder::Allow(permit))
}

/// What a line `disallow <draft> <64 hex>` asks.
pub(crate) fn disallowing(owner: &OwnerKeeper, behind: Option<&[u8]>) -> Result<OwnerOrder, Unread>
    ensures { ReadsAs (λ order. order) result
        (permit_order owner.now orders.Disallow (words_behind (option_copied behind.entry))) }
{
    let permit = permit_fields(behind)?;
    draft_named(owner, permit.draft, 1)?;
    Ok(OwnerOrder::Disallow(permit))
}

/// The fields behind `staple`: a draft, a TLS key, and a confirmation.
fn staple_fields(alloc: Global, behind: Option<&[u8]>) -> Result<(Permit, Items<u8>), Unread>
    ensures { ReadsAs (λ said. record { permit = said.0; confirmation = said.1 }) result
        (of_form (staple_fields (words_behind (option_copied behind.entry)))) }
{
    let (draft, channel, confirmation) = three_words(behind)?;
    let Some(draft) = number_of(draft) else {
        return Err(Unread::from(Reason::Field(1)));
    };
    let Some(channel) = array_of_hex(channel) else {
        return Err(Unread::from(Reason::Field(2)));
    };
    match bytes_of(alloc, confirmation)? {
        Some(confirmation) => Ok((Permit { draft, channel }, confirmation)),
        None => Err(Unread::from(Reason::Field(3))),
    }
}

/// What a line `staple <draft> <64 hex> <hex>` asks.
pub(crate) fn stapling(
    owner: &OwnerKeeper,
    alloc: Global,
    behind: Option<&[u8]>,
) -> Result<OwnerOrder, Unread>
    ensures { ReadsAs (λ order. order) result
        (staple_order owner.now (words_behind (option_copied behind.entry))) }
{
    let (permit, confirmation) = staple_fields(alloc, behind)?;
    draft_named(owner, permit.draft, 1)?;
    Ok(OwnerOrder::Staple {
        permit,
        confirmation,
    })
}

/// The field behind `leaves`: an owner.
fn leaves_fields(behind: Option<&[u8]>) -> Result<u16, Unread>
    ensures { ReadsAs (λ number. number) result
        (of_form (leaves_fields (words_behind (option_copied behind.entry)))) }
{
    let word = one_word(behind)?;
    match owner_of(word) {
        Some(number) => Ok(number),
        None => Err(Unread::from(Reason::Field(1))),
    }
}

/// What a line `leaves <D>` asks.
pub(crate) fn asking_leaves(
    owner: &OwnerKeeper,
    behind: Option<&[u8]>,
) -> Result<OwnerOrder, Unread>
    ensures { ReadsAs (λ order. order) result
        (leaves_order owner.now (words_behind (option_copied behind.entry))) }
{
    let named = leaves_fields(behind)?;
    names_owner(owner, named)?;
    Ok(OwnerOrder::Leaves)
}

// ---- what is written

/// Puts how many leaves are left behind the others.
pub(crate) fn put_leaves_told(
    owner: &OwnerKeeper,
    alloc: Global,
    out: &mut Vec<u8>,
) -> Result<(), AllocError>
    ensures { Puts (leaves_told owner.now) out.old out.new result }
{
    let free = u64::from(owner.free());
    let leaves = u64::from(owner.leaves());
    put_leaves(
        alloc,
        out,
        who(owner),
        free,
        leaves,
        u64::from(owner.kept_back()),
    )
}

/// Whether so many leaves are left as are told without being asked.
fn is_told(owner: &OwnerKeeper) -> bool
    ensures { result ≡ is_told (free_of owner.now.owner.book) owner.now.owner.book.leaves }
{
    let (free, leaves) = (owner.free(), owner.leaves());
    free == leaves / 2 || (free == leaves / 8 || free == owner.kept_back())
}

/// Puts how many leaves are left behind the others, where that is told without being asked.
pub(crate) fn put_unasked(
    owner: &OwnerKeeper,
    alloc: Global,
    out: &mut Vec<u8>,
) -> Result<(), AllocError>
    ensures { Puts (leaves_unasked owner.now) out.old out.new result }
{
    if is_told(owner) {
        put_leaves_told(owner, alloc, out)
    } else {
        Ok(())
    }
}

/// Puts the line of a step by which a draft is stapled, or may be, behind the others.
pub(crate) fn put_draft_told(
    owner: &OwnerKeeper,
    alloc: Global,
    word: &[u8],
    draft: u64,
    out: &mut Vec<u8>,
) -> Result<(), AllocError>
    ensures { Puts (draft_told owner.now word.now draft) out.old out.new result }
{
    put_draft_step(alloc, out, who(owner), word, draft)?;
    put(alloc, out, b" ok\n")
}

/// The draft that an order is to staple.
fn stapled_draft(order: &OwnerOrder) -> u64
    ensures { result ≡ stapled_draft order.now }
{
    match order {
        OwnerOrder::Staple { permit, .. } => permit.draft,
        OwnerOrder::Restaple(staple) => staple.draft(),
        OwnerOrder::Take(_)
        | OwnerOrder::Begin { .. }
        | OwnerOrder::Know { .. }
        | OwnerOrder::Handover { .. }
        | OwnerOrder::Attach { .. }
        | OwnerOrder::Object { .. }
        | OwnerOrder::Submit { .. }
        | OwnerOrder::Allow(_)
        | OwnerOrder::Disallow(_)
        | OwnerOrder::Leaves => 0,
    }
}

/// Puts what is told where an owner does not staple behind the others, by the number of the refusal, and the number of a check.
pub(crate) fn put_not_stapled(
    owner: &OwnerKeeper,
    alloc: Global,
    order: &OwnerOrder,
    number: u8,
    check: Option<u8>,
    out: &mut Vec<u8>,
) -> Result<(), AllocError>
    ensures { Puts (not_stapled owner.now order.now number check) out.old out.new result }
{
    put_draft_step(alloc, out, who(owner), b"staple", stapled_draft(order))?;
    put_refused_so(alloc, out, number, check)
}
