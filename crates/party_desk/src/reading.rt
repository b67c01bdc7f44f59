//! Lines that each party reads alike.

ghost use Rattle.std.specs.Prelude.{◌≡◌};
ghost use Rattle.script_text.specs.Rows.{read_of};
ghost use Rattle.party_desk.specs.Asking.{ReadsAs, heard_in, heard_of, for_own};

use crate::forms::bytes_of;
use crate::unread::{Cause, Unread};
use ar_base::Items;
use ar_statement::Party;
use script_text::{EventLine, Line};
use std::alloc::Global;

/// What a line says to any party.
#[derive(Drop)]
pub(crate) enum Heard<'a> {
    /// It is skipped.
    Nothing,
    /// To take the message with these bytes.
    Message(Items<u8>),
    /// What happens, in the words of a script.
    Event(EventLine<'a>),
}

/// What a line of a script says to any party.
fn heard_of<'a>(line: &'a [u8]) -> Result<Heard<'a>, Cause>
    ensures { result ≡ heard_of (read_of line.now) }
{
    match Line::read(line) {
        Ok(None) => Ok(Heard::Nothing),
        Ok(Some(Line::Event(event))) => Ok(Heard::Event(event)),
        Ok(Some(_)) => Err(Cause::Order),
        Err(reason) => Err(Cause::Form(reason)),
    }
}

/// What a line says to any party: a message where it is one word of hex, else a line of a script.
pub(crate) fn hear<'a>(alloc: Global, line: &'a [u8]) -> Result<Heard<'a>, Unread>
    ensures { ReadsAs (λ heard. heard) result (heard_in line.now) }
{
    if line.is_empty() {
        return Ok(Heard::Nothing);
    }
    match bytes_of(alloc, line)? {
        Some(bytes) => Ok(Heard::Message(bytes)),
        None => {
            let heard = heard_of(line)?;
            Ok(heard)
        }
    }
}

/// Refuses a line whose first word behind its own names another party than this.
pub(crate) fn need_own(own: Party, named: Party) -> Result<(), Cause>
    ensures { result ≡ for_own own named tt }
{
    if named == own {
        Ok(())
    } else {
        Err(Cause::Absent(1))
    }
}
