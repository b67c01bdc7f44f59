//! An owner to which lines come.

ghost use Rattle.std.specs.Prelude.{◌≡◌, length};
ghost use Rattle.std.specs.Option.{option_copied};
ghost use Rattle.ar_lines.specs.Views.{words_behind};
ghost use Rattle.owner_keeper.specs.Keeping.{draft_of};
ghost use Rattle.owner_keeper.specs.declared.order.OwnerOrder.TheVariants as orders;
ghost use Rattle.party_desk.specs.Asking.{ReadsAs, wanted_by, heard_in, of_form};
ghost use Rattle.party_desk.specs.Owners.{attach_fields, attach_order, by_staple_words, draft_fields, draft_line, draft_order, order_for_owner, owner_asked, owner_done, owner_refused, owner_sent, owner_told, owner_what, row_refused};
ghost use Rattle.party_desk.specs.Telling.{Puts};
ghost use Rattle.script_text.specs.declared.line.EventLine.TheVariants as events;

use crate::LineParty;
use crate::drafting::{registering, revoking, updating};
use crate::forms::{one_word, spelled_certificate, spelled_handover, two_words};
use crate::naming::{draft_named, draft_word, names_owner, need_room, who};
use crate::reading::{Heard, hear};
use crate::staple_desk::{
    allowing, asking_leaves, disallowing, put_draft_told, put_leaves_told, put_not_stapled,
    put_unasked, stapling,
};
use crate::unread::{Cause, Unread};
use crate::writing::{put_handed, put_line, put_line_refused, put_messages, put_stapled, put_step};
use ar_base::Items;
use ar_cert::Cert;
use ar_lines::{Reason, first_word, is_text, number_of};
use ar_nodes::codes::owner_code;
use owner_core::OwnerRefusal;
use owner_keeper::{OwnerKeeper, OwnerOrder, OwnerOrderRefusal, OwnerReply};
use report_text::{Happening, What};
use script_text::EventLine;
use std::alloc::{AllocError, Global};

// ---- what a line asks

/// What a line `handover` asks.
fn handing_over(owner: &OwnerKeeper, named: u16, draft: u64) -> Result<OwnerOrder, Cause>
    ensures { result ≡ order_for_owner owner.now (events.Handover named draft) }
{
    names_owner(owner, named)?;
    draft_named(owner, draft, 2)?;
    Ok(OwnerOrder::Handover { draft })
}

/// What a line `object` asks.
fn objecting(owner: &OwnerKeeper, named: u16, draft: u64) -> Result<OwnerOrder, Cause>
    ensures { result ≡ order_for_owner owner.now (events.Object named draft) }
{
    names_owner(owner, named)?;
    draft_named(owner, draft, 2)?;
    Ok(OwnerOrder::Object { draft })
}

/// What a line `submit` asks.
fn submitting(owner: &OwnerKeeper, draft: u64) -> Result<OwnerOrder, Cause>
    ensures { result ≡ order_for_owner owner.now (events.Submit draft) }
{
    draft_named(owner, draft, 1)?;
    Ok(OwnerOrder::Submit { draft })
}

/// What an event asks of an owner.
fn order_of(owner: &OwnerKeeper, alloc: Global, event: &EventLine) -> Result<OwnerOrder, Unread>
    ensures { ReadsAs (λ order. order) result (order_for_owner owner.now event.now) }
{
    match event {
        EventLine::Register {
            owner: named,
            name,
            policy,
            asks,
        } => registering(owner, alloc, *named, name, policy, asks),
        EventLine::Update {
            owner: named,
            draft,
            policy,
            asks,
        } => updating(owner, alloc, *named, *draft, policy, asks),
        EventLine::Revoke {
            owner: named,
            draft,
            asks,
        } => revoking(owner, alloc, *named, *draft, asks),
        EventLine::Handover {
            owner: named,
            draft,
        } => Ok(handing_over(owner, *named, *draft)?),
        EventLine::Object {
            owner: named,
            draft,
        } => Ok(objecting(owner, *named, *draft)?),
        EventLine::Submit { draft } => Ok(submitting(owner, *draft)?),
        _ => Err(Unread::from(Cause::Order)),
    }
}

/// What a line asks of an owner that is a message, or a line of a script.
fn plain_order(
    owner: &OwnerKeeper,
    alloc: Global,
    line: &[u8],
) -> Result<Option<OwnerOrder>, Unread>
    ensures { ReadsAs (λ order. order) result
        (wanted_by orders.Take (order_for_owner owner.now) (heard_in line.now)) }
{
    match hear(alloc, line)? {
        Heard::Nothing => Ok(None),
        Heard::Message(bytes) => Ok(Some(OwnerOrder::Take(bytes))),
        Heard::Event(event) => {
            let order = order_of(owner, alloc, &event)?;
            Ok(Some(order))
        }
    }
}

/// The field behind `draft`: a certificate.
fn draft_fields(alloc: Global, behind: Option<&[u8]>) -> Result<Cert, Unread>
    ensures { ReadsAs (λ cert. cert) result
        (of_form (draft_fields (words_behind (option_copied behind.entry)))) }
{
    let word = one_word(behind)?;
    match spelled_certificate(alloc, word)? {
        Some(cert) => Ok(cert),
        None => Err(Unread::from(Reason::Field(1))),
    }
}

/// What a line `draft <hex of a certificate>` asks.
fn knowing(owner: &OwnerKeeper, alloc: Global, behind: Option<&[u8]>) -> Result<OwnerOrder, Unread>
    ensures { ReadsAs (λ order. order) result
        (draft_order owner.now (words_behind (option_copied behind.entry))) }
{
    let cert = draft_fields(alloc, behind)?;
    need_room(owner)?;
    Ok(OwnerOrder::Know { cert })
}

/// The fields behind `attach`: a draft, and a handover to it.
fn attach_fields(alloc: Global, behind: Option<&[u8]>) -> Result<(u64, Items<u8>), Unread>
    ensures { ReadsAs (λ said. record { draft = said.0; handover = said.1 }) result
        (of_form (attach_fields (words_behind (option_copied behind.entry)))) }
{
    let (draft, handover) = two_words(behind)?;
    let Some(draft) = number_of(draft) else {
        return Err(Unread::from(Reason::Field(1)));
    };
    match spelled_handover(alloc, handover)? {
        Some(handover) => Ok((draft, handover)),
        None => Err(Unread::from(Reason::Field(2))),
    }
}

/// What a line `attach <draft> <hex>` asks.
fn attaching(
    owner: &OwnerKeeper,
    alloc: Global,
    behind: Option<&[u8]>,
) -> Result<OwnerOrder, Unread>
    ensures { ReadsAs (λ order. order) result
        (attach_order owner.now (words_behind (option_copied behind.entry))) }
{
    let (draft, handover) = attach_fields(alloc, behind)?;
    draft_named(owner, draft, 1)?;
    Ok(OwnerOrder::Attach { draft, handover })
}

/// What a line asks of an owner whose first word is none but one of staples, or of a script.
fn other_order(
    owner: &OwnerKeeper,
    alloc: Global,
    line: &[u8],
    word: &[u8],
    behind: Option<&[u8]>,
) -> Result<Option<OwnerOrder>, Unread>
    ensures { ReadsAs (λ order. order) result
        (by_staple_words owner.now word.now (words_behind (option_copied behind.entry))
        (wanted_by orders.Take (order_for_owner owner.now) (heard_in line.now))) }
{
    if word == b"allow".as_slice() {
        let order = allowing(owner, behind)?;
        return Ok(Some(order));
    }
    if word == b"disallow".as_slice() {
        let order = disallowing(owner, behind)?;
        return Ok(Some(order));
    }
    if word == b"staple".as_slice() {
        let order = stapling(owner, alloc, behind)?;
        return Ok(Some(order));
    }
    if word == b"leaves".as_slice() {
        let order = asking_leaves(owner, behind)?;
        return Ok(Some(order));
    }
    plain_order(owner, alloc, line)
}

// ---- what is written

/// What an owner does for an order in the line with this number; `None` where it makes a draft, or where no script has the order.
fn what_of(number: u64, order: &OwnerOrder) -> Option<What>
    ensures { result ≡ owner_what number order.now }
{
    match order {
        OwnerOrder::Take(_) => Some(What::Take(number)),
        OwnerOrder::Begin { .. }
        | OwnerOrder::Know { .. }
        | OwnerOrder::Allow(_)
        | OwnerOrder::Disallow(_)
        | OwnerOrder::Staple { .. }
        | OwnerOrder::Restaple(_)
        | OwnerOrder::Leaves => None,
        OwnerOrder::Handover { draft } | OwnerOrder::Attach { draft, .. } => {
            Some(What::Handover(*draft))
        }
        OwnerOrder::Object { draft } => Some(What::Object(*draft)),
        OwnerOrder::Submit { draft } => Some(What::Submit(*draft)),
    }
}

/// Puts the line of the newest draft behind the others: `draft <number> <digest>`.
fn put_draft(alloc: Global, out: &mut Vec<u8>, owner: &OwnerKeeper) -> Result<(), AllocError>
    ensures { Puts (draft_line owner.now (draft_of owner.now (length owner.now.certs)))
        out.old out.new result }
{
    let draft = owner.drafts();
    match owner.cert(draft) {
        Some(cert) => {
            let digest = cert.digest();
            put_line(alloc, out, &Happening::Draft { draft, digest })
        }
        None => Ok(()),
    }
}

/// Puts what is told of a step that it did behind the others.
fn put_done(
    owner: &OwnerKeeper,
    alloc: Global,
    done: Option<What>,
    out: &mut Vec<u8>,
) -> Result<(), AllocError>
    ensures { Puts (owner_done owner.now done) out.old out.new result }
{
    match done {
        Some(done) => put_step(alloc, out, who(owner), done, None),
        None => put_draft(alloc, out, owner),
    }
}

/// Puts what is told where its row refuses behind the others.
fn put_row_refused(
    owner: &OwnerKeeper,
    alloc: Global,
    number: u64,
    done: Option<What>,
    refusal: OwnerRefusal,
    out: &mut Vec<u8>,
) -> Result<(), AllocError>
    ensures { Puts (row_refused owner.now number done refusal) out.old out.new result }
{
    match done {
        Some(done) => put_step(alloc, out, who(owner), done, Some(owner_code(refusal))),
        None => put_line_refused(alloc, out, number, Cause::Limit),
    }
}

impl LineParty for OwnerKeeper {
    ghost asked = { owner_asked };

    ghost sent_text = { owner_sent };

    ghost told_text = { λ party number order reply. owner_told party number order };

    ghost refused_text = { owner_refused };

    fn read(&self, alloc: Global, line: &[u8]) -> Result<Option<OwnerOrder>, Unread> {
        if !is_text(line) {
            return plain_order(self, alloc, line);
        }
        let (word, behind) = first_word(line);
        if word == b"draft".as_slice() {
            let order = knowing(self, alloc, behind)?;
            return Ok(Some(order));
        }
        if word == b"attach".as_slice() {
            let order = attaching(self, alloc, behind)?;
            return Ok(Some(order));
        }
        other_order(self, alloc, line, word, behind)
    }

    fn put_sent(
        &self,
        alloc: Global,
        reply: &OwnerReply,
        out: &mut Vec<u8>,
    ) -> Result<(), AllocError> {
        match reply {
            OwnerReply::Sends(sent) => put_messages(alloc, out, sent),
            OwnerReply::Handed { digest, signature } => {
                put_handed(alloc, out, digest, signature.as_slice())
            }
            OwnerReply::Stapled {
                digest,
                epoch,
                channel,
                signature,
            } => put_stapled(alloc, out, digest, *epoch, channel, signature.as_slice()),
        }
    }

    fn put_told(
        &self,
        alloc: Global,
        number: u64,
        order: &OwnerOrder,
        _reply: &OwnerReply,
        out: &mut Vec<u8>,
    ) -> Result<(), AllocError> {
        let done = what_of(number, order);
        match order {
            OwnerOrder::Handover { .. } | OwnerOrder::Object { .. } => {
                put_unasked(self, alloc, out)?;
                put_done(self, alloc, done, out)
            }
            OwnerOrder::Allow(permit) => put_draft_told(self, alloc, b"allow", permit.draft, out),
            OwnerOrder::Disallow(permit) => {
                put_draft_told(self, alloc, b"disallow", permit.draft, out)
            }
            OwnerOrder::Staple { permit, .. } => {
                put_unasked(self, alloc, out)?;
                put_draft_told(self, alloc, b"staple", permit.draft, out)
            }
            OwnerOrder::Restaple(staple) => {
                put_unasked(self, alloc, out)?;
                put_draft_told(self, alloc, b"staple", staple.draft(), out)
            }
            OwnerOrder::Leaves => put_leaves_told(self, alloc, out),
            OwnerOrder::Take(_)
            | OwnerOrder::Begin { .. }
            | OwnerOrder::Know { .. }
            | OwnerOrder::Attach { .. }
            | OwnerOrder::Submit { .. } => put_done(self, alloc, done, out),
        }
    }

    fn put_refused(
        &self,
        alloc: Global,
        number: u64,
        order: &OwnerOrder,
        refusal: &OwnerOrderRefusal,
        out: &mut Vec<u8>,
    ) -> Result<(), AllocError> {
        match refusal {
            OwnerOrderRefusal::Owner(OwnerRefusal::Memory) => Err(AllocError),
            OwnerOrderRefusal::Owner(refusal) => {
                let done = what_of(number, order);
                put_row_refused(self, alloc, number, done, *refusal, out)
            }
            OwnerOrderRefusal::NoCertificate => {
                let cause = Cause::Absent(draft_word(order));
                put_line_refused(alloc, out, number, cause)
            }
            OwnerOrderRefusal::Long => {
                let cause = Cause::Form(Reason::Field(2));
                put_line_refused(alloc, out, number, cause)
            }
            OwnerOrderRefusal::Foreign => put_not_stapled(self, alloc, order, 9, None, out),
            OwnerOrderRefusal::Unconfirmed(check) => {
                put_not_stapled(self, alloc, order, 10, Some(*check), out)
            }
            OwnerOrderRefusal::Superseded => put_not_stapled(self, alloc, order, 11, None, out),
            OwnerOrderRefusal::NotAllowed => put_not_stapled(self, alloc, order, 12, None, out),
            OwnerOrderRefusal::Older => put_not_stapled(self, alloc, order, 13, None, out),
            OwnerOrderRefusal::KeptBack => put_not_stapled(self, alloc, order, 14, None, out),
        }
    }
}
