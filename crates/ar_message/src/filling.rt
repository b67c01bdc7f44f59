ghost use Rattle.std.specs.Prelude.{◌≡◌, length};
ghost use Rattle.ar_message.specs.Filling.{CanFill, FitsAt, IsBlank, filled, lengths, signature_due, signed_at, written_at};

use crate::{Blank, Outgoing, Sent, Unsigned};
use ar_base::Items;
use key_roll::{KeyRing, RollDue};

/// What is sent, with the signature of each blank in it: u32 generation, and the LMS signature by the key of
/// this generation. All other bytes stay. It takes no memory, and needs no lock of the party that made the
/// step.
///
/// The ring is that of the party, so it has the key of each signature that is due; each blank lies in its
/// message.
pub fn fill(ring: &KeyRing, unsigned: Unsigned) -> Sent
    requires { CanFill ring.now.keys unsigned }
    ensures { result ≡ filled ring.now.keys unsigned }
{
    let Unsigned { sent, blanks } = unsigned;
    let Sent { messages, ended } = sent;
    let mut messages = messages.into_vec();
    let mut blanks = blanks.into_vec();
    while let Some(blank) = blanks.pop() {
        sign_blank(ring, &mut messages, blank);
    }
    blanks.destroy_empty();
    Sent {
        messages: Items::from_vec(messages),
        ended,
    }
}

/// Signs a blank of these messages.
fn sign_blank(ring: &KeyRing, messages: &mut Vec<Outgoing>, blank: Blank)
    requires { IsBlank ring.now.keys (lengths messages.old.items) blank }
    ensures signed { messages.new.items ≡ signed_at ring.now.keys blank messages.old.items }
    ensures lengths { lengths messages.new.items ≡ lengths messages.old.items }
{
    let Blank { message, at, due } = blank;
    messages[message].sign(ring, at, due);
}

impl Outgoing {
    /// Writes the signature that is due into the message, at a place.
    fn sign(&mut self, ring: &KeyRing, at: usize, due: RollDue)
        requires { FitsAt ring.now.keys self.old.bytes at due }
        ensures signed { self.new ≡ record {
          to = self.old.to;
          bytes = written_at at (signature_due ring.now.keys due) self.old.bytes;
        } }
        ensures len { length self.new.bytes ≡ length self.old.bytes }
    {
        sign_at(ring, self.bytes.as_mut_slice(), at, due);
    }
}

/// Writes the signature that is due over these bytes, at a place.
fn sign_at(ring: &KeyRing, bytes: &mut [u8], at: usize, due: RollDue)
    requires { FitsAt ring.now.keys bytes.old at due }
    ensures { bytes.new ≡ written_at at (signature_due ring.now.keys due) bytes.old }
{
    let end = at + ring.signature_len();
    ring.sign(due, &mut bytes[at..end]);
}
