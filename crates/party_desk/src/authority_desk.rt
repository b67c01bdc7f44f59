//! An authority to which lines come.

ghost use Rattle.std.specs.Prelude.{◌≡◌};
ghost use Rattle.std.specs.Option.{option_copied};
ghost use Rattle.ar_lines.specs.Views.{words_behind};
ghost use Rattle.ar_statement.specs.Claims.{authority_party};
ghost use Rattle.party_desk.specs.Asking.{ReadsAs, wanted_by, authority_asked, order_for_authority, heard_in, lesson_fields, own_lesson, of_form};
ghost use Rattle.party_desk.specs.Telling.{authority_refused, authority_told, authority_what, sent_lines};
ghost use Rattle.authority_keeper.specs.declared.order.AuthorityOrder.TheVariants as orders;

use crate::LineParty;
use crate::forms::{authority_of, name_of, three_words};
use crate::reading::{Heard, hear, need_own};
use crate::unread::{Cause, Unread};
use crate::writing::{put_line, put_line_refused, put_messages, put_step};
use ar_lines::{Reason, array_of_hex, first_word, is_text};
use ar_message::Sent;
use ar_names::Name;
use ar_nodes::codes::authority_code;
use ar_statement::{Party, Role};
use authority_core::AuthorityRefusal;
use authority_keeper::{AuthorityKeeper, AuthorityOrder, AuthorityOrderRefusal};
use report_text::{Happening, What};
use script_text::EventLine;
use std::alloc::{AllocError, Global};

/// Which party an authority is.
fn who(authority: &AuthorityKeeper) -> Party
    ensures { result ≡ authority_party authority.now.state.me }
{
    Role::Authority.party(authority.number())
}

// ---- what a line asks

/// What an event asks of an authority.
fn order_of(authority: &AuthorityKeeper, event: &EventLine) -> Result<AuthorityOrder, Cause>
    ensures { result ≡ order_for_authority authority.now.state.me event.now }
{
    let own = who(authority);
    match event {
        EventLine::Roll { party } => {
            need_own(own, *party)?;
            Ok(AuthorityOrder::Roll)
        }
        EventLine::Retire { authority } => {
            need_own(own, Role::Authority.party(*authority))?;
            Ok(AuthorityOrder::Retire)
        }
        _ => Err(Cause::Order),
    }
}

/// What a line asks of an authority that is a message, or a line of a script.
fn plain_order(
    authority: &AuthorityKeeper,
    alloc: Global,
    line: &[u8],
) -> Result<Option<AuthorityOrder>, Unread>
    ensures { ReadsAs (λ order. order) result
        (wanted_by orders.Take (order_for_authority authority.now.state.me) (heard_in line.now)) }
{
    match hear(alloc, line)? {
        Heard::Nothing => Ok(None),
        Heard::Message(bytes) => Ok(Some(AuthorityOrder::Take(bytes))),
        Heard::Event(event) => {
            let order = order_of(authority, &event)?;
            Ok(Some(order))
        }
    }
}

/// The fields behind `teach` and `forget`: an authority, a name, and the text of a key.
fn lesson_fields(alloc: Global, behind: Option<&[u8]>) -> Result<(u16, Name, [u8; 56]), Unread>
    ensures { ReadsAs (λ said. record { authority = said.0; name = said.1; key = said.2 })
        result (of_form (lesson_fields (words_behind (option_copied behind.entry)))) }
{
    let (authority, name, key) = three_words(behind)?;
    let Some(authority) = authority_of(authority) else {
        return Err(Unread::from(Reason::Field(1)));
    };
    let Some(name) = name_of(alloc, name)? else {
        return Err(Unread::from(Reason::Field(2)));
    };
    let Some(key) = array_of_hex::<56>(key) else {
        return Err(Unread::from(Reason::Field(3)));
    };
    Ok((authority, name, key))
}

/// The name and the key behind `teach` and `forget` where they name this authority.
fn own_lesson(
    authority: &AuthorityKeeper,
    alloc: Global,
    behind: Option<&[u8]>,
) -> Result<(Name, [u8; 56]), Unread>
    ensures { ReadsAs (λ said. record { authority = authority.now.state.me; name = said.0; key = said.1 })
        result (own_lesson authority.now.state.me (words_behind (option_copied behind.entry))) }
{
    let (named, name, key) = lesson_fields(alloc, behind)?;
    need_own(who(authority), Role::Authority.party(named))?;
    Ok((name, key))
}

impl LineParty for AuthorityKeeper {
    ghost asked = { λ party line. authority_asked party.state.me line };

    ghost sent_text = { sent_lines };

    ghost told_text = { λ party number order reply. authority_told party.state.me number order };

    ghost refused_text = { λ party number order refusal. authority_refused party.state.me number
        order refusal };

    fn read(&self, alloc: Global, line: &[u8]) -> Result<Option<AuthorityOrder>, Unread> {
        if !is_text(line) {
            return plain_order(self, alloc, line);
        }
        let (word, behind) = first_word(line);
        if word == b"teach".as_slice() {
            let (name, key) = own_lesson(self, alloc, behind)?;
            return Ok(Some(AuthorityOrder::Learn { name, key }));
        }
        if word == b"forget".as_slice() {
            let (name, key) = own_lesson(self, alloc, behind)?;
            return Ok(Some(AuthorityOrder::Forget { name, key }));
        }
        plain_order(self, alloc, line)
    }

    fn put_sent(&self, alloc: Global, reply: &Sent, out: &mut Vec<u8>) -> Result<(), AllocError> {
        put_messages(alloc, out, reply)
    }

    fn put_told(
        &self,
        alloc: Global,
        number: u64,
        order: &AuthorityOrder,
        _reply: &Sent,
        out: &mut Vec<u8>,
    ) -> Result<(), AllocError> {
        let authority = self.number();
        match order {
            AuthorityOrder::Take(_) => { put_step(alloc, out, who(self), What::Take(number), None) }
            AuthorityOrder::Roll => put_step(alloc, out, who(self), What::Roll, None),
            AuthorityOrder::Learn { .. } => put_line(alloc, out, &Happening::Taught { authority }),
            AuthorityOrder::Forget { .. } => put_line(alloc, out, &Happening::Forgot { authority }),
            AuthorityOrder::Retire => put_line(alloc, out, &Happening::Retired { authority }),
        }
    }

    fn put_refused(
        &self,
        alloc: Global,
        number: u64,
        order: &AuthorityOrder,
        refusal: &AuthorityOrderRefusal,
        out: &mut Vec<u8>,
    ) -> Result<(), AllocError> {
        match refusal {
            AuthorityOrderRefusal::Authority(AuthorityRefusal::Memory) => Err(AllocError),
            AuthorityOrderRefusal::Authority(refusal) => {
                let code = authority_code(*refusal);
                put_step(alloc, out, who(self), what_of(number, order), Some(code))
            }
            AuthorityOrderRefusal::Retired => put_line_refused(
                alloc,
                out,
                number,
                Cause::Absent(1),
            ),
        }
    }
}

/// What an authority does for an order in the line with this number that its row may refuse.
fn what_of(number: u64, order: &AuthorityOrder) -> What
    ensures { result ≡ authority_what number order.now }
{
    match order {
        AuthorityOrder::Take(_) => What::Take(number),
        _ => What::Roll,
    }
}
