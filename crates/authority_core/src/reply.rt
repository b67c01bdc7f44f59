ghost use Rattle.std.specs.Prelude.{◌≡◌, IfOk};
ghost use Rattle.ar_message.specs.Messages.{message_text};
ghost use Rattle.authority_core.specs.State.{if_due, prepared, sent_with};

use crate::refusal::AuthorityRefusal;
use ar_base::Items;
use ar_message::{Address, Blank, Message, Outgoing, Sent, Unsigned};
use key_roll::RollDue;
use std::alloc::{AllocError, Global};
use std::marker::Model;

/// One message, for which all memory was taken, before its own signature is due.
///
/// It is sent or discarded.
pub(crate) struct Prepared {
    messages: Vec<Outgoing>,
    blanks: Vec<Blank>,
    at: usize,
}

// Clauses see the message, and where its signature begins.
impl Model for Prepared {
    ghost use Rattle.std.specs.Prelude.{◌≡◌, ◌<◌, [], vec_len, vec_capacity};
    ghost use Rattle.authority_core.specs.State.{Prepared};

    ghost Value = { Prepared };

    ghost view = { λ p. (p.messages.items, p.at) };

    ghost invariant = { λ p. (p.blanks.items ≡ []) × (vec_len p.blanks < vec_capacity p.blanks) };
}

/// A message whose last bytes are to be a signature of this many bytes, with zero bytes there.
fn prepare_of(
    alloc: Global,
    to: Address,
    message: &Message,
    signature_len: u16,
) -> Result<Prepared, AllocError>
    ensures { IfOk result (λ p. p ≡ prepared signature_len to (message_text message.now)) }
{
    let mut bytes = Vec::new(alloc);
    message.write(alloc, &mut bytes)?;
    let at = bytes.len().saturating_sub(signature_len as usize);
    let mut messages = Vec::new(alloc);
    messages.push(Outgoing::new(to, bytes))?;
    let blanks = Vec::with_capacity(alloc, 1)?;
    Ok(Prepared {
        messages,
        blanks,
        at,
    })
}

/// Drops a message. The drop is large, so no other function drops one.
pub(crate) fn drop_message(_message: Message) {}

/// The same as `prepare_of`, of a message that is dropped then.
pub(crate) fn prepare(
    alloc: Global,
    to: Address,
    message: Message,
    signature_len: u16,
) -> Result<Prepared, AllocError>
    ensures { IfOk result (λ p. p ≡ prepared signature_len to (message_text message)) }
{
    let ready = prepare_of(alloc, to, &message, signature_len);
    drop_message(message);
    ready
}

/// The message with the signature that is due. It takes no memory.
pub(crate) fn send(ready: Prepared, due: RollDue) -> Unsigned
    ensures { result ≡ sent_with ready due }
{
    let Prepared {
        messages,
        mut blanks,
        at,
    } = ready;
    let blank = Blank {
        message: 0,
        at,
        due,
    };
    blanks.push_reserved(blank);
    Unsigned {
        sent: Sent {
            messages: Items::from_vec(messages),
            ended: None,
        },
        blanks: Items::from_vec(blanks),
    }
}

/// Gives up a message that is not sent.
pub(crate) fn discard(ready: Prepared) {
    let Prepared {
        messages: _,
        blanks,
        at: _,
    } = ready;
    blanks.destroy_empty();
}

/// The message with the signature that is due, or why none is; the message is then given up.
pub(crate) fn send_entered(
    ready: Prepared,
    entered: Result<RollDue, AuthorityRefusal>,
) -> Result<Unsigned, AuthorityRefusal>
    ensures { result ≡ if_due entered (sent_with ready) }
{
    match entered {
        Ok(due) => Ok(send(ready, due)),
        Err(refusal) => {
            discard(ready);
            Err(refusal)
        }
    }
}
