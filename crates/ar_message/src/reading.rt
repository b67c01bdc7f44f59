ghost use Rattle.ar_message.specs.Answers.{Fills};
ghost use Rattle.ar_message.specs.Messages.{fields_at, message_at};
ghost use Rattle.ar_message.specs.declared.fault.MessageFault.TheVariants as faults;

use crate::confirming::{confirmation, half_confirmed, log_confirmed};
use crate::kinds::{
    ballot, confirm_ask, decision, endorse_ask, endorsed, propose, roll_note, skip_note,
    status_note, submit,
};
use crate::{Message, MessageFault};
use ar_bytes::Fields;
use std::alloc::Global;

/// The most bytes of a message.
pub const LONGEST: usize = 4_194_304;
/// The number of the last kind. The first is 1.
const LAST_KIND: u8 = 13;

/// The message of the kind with this number whose fields are all that is left.
#[tactic(auto, unfolding(crate::specs::Messages::fields_at))]
fn by_kind(alloc: Global, kind: u8, fields: &mut Fields) -> Result<Message, MessageFault>
    ensures { Fills result (fields_at kind) fields.old }
{
    match kind {
        1 => endorse_ask(alloc, fields),
        2 => endorsed(alloc, fields),
        3 => submit(alloc, fields),
        4 => propose(alloc, fields),
        5 => ballot(alloc, fields),
        6 => status_note(alloc, fields),
        7 => decision(alloc, fields),
        8 => skip_note(alloc, fields),
        9 => confirm_ask(alloc, fields),
        10 => log_confirmed(alloc, fields),
        11 => half_confirmed(alloc, fields),
        12 => confirmation(alloc, fields),
        _ => roll_note(alloc, fields),
    }
}

/// The message that is all that is left.
#[tactic(auto, unfolding(crate::specs::Messages::message_at, ar_bytes::specs::Reading::such_that))]
fn message(alloc: Global, fields: &mut Fields) -> Result<Message, MessageFault>
    ensures { Fills result message_at fields.old }
{
    let place = fields.place();
    let kind = fields.take_u8()?;
    if kind == 0 || kind > LAST_KIND {
        return Err(MessageFault::Form(place));
    }
    by_kind(alloc, kind, fields)
}

impl Message {
    ghost use Rattle.ar_base.specs.Gives.{with_error, GivesOrWants};
    ghost use Rattle.ar_message.specs.Messages.{message_in};

    /// The message with this text.
    ///
    /// Memory is taken only once all of it was found in order, but for lists, where want of memory is kept
    /// back until the rest was looked at: so it never hides a fault. Each certificate is copied once. Of
    /// more than 4,194,304 bytes nothing is looked at, and the place is 4,194,304.
    #[tactic(auto, unfolding(crate::specs::Messages::message_in, ar_bytes::specs::Reading::whole))]
    pub fn read(alloc: Global, bytes: &[u8]) -> Result<Message, MessageFault>
        ensures { GivesOrWants faults.Memory (λ message.
            message) result (with_error faults.Form (message_in bytes.now)) }
    {
        if bytes.len() > LONGEST {
            return Err(MessageFault::Form(LONGEST));
        }
        message(alloc, &mut Fields::new(bytes))
    }
}
