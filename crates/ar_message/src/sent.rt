ghost use Rattle.std.specs.Prelude.{◌≡◌};
ghost use Rattle.ar_message.specs.Filling.{nothing};

use crate::Address;
use ar_base::Items;
use std::alloc::Global;
use std::marker::Model;

/// A message on its way: to whom it goes, and its text.
#[derive(Debug, Drop)]
pub struct Outgoing {
    to: Address,
    pub(crate) bytes: Vec<u8>,
}

// Clauses see the address and the bytes, however much room these keep.
impl Model for Outgoing {
    ghost use Rattle.ar_message.specs.Sending.{Letter};

    ghost Value = { Letter };

    ghost view = { λ o. record { to = o.to; bytes = o.bytes.items } };
}

impl Outgoing {
    /// The message with this text, for this address.
    pub fn new(to: Address, bytes: Vec<u8>) -> Outgoing
        ensures { result ≡ record { to = to; bytes = bytes.items } }
    {
        Outgoing { to, bytes }
    }

    /// To whom the message goes.
    pub fn to(&self) -> Address
        ensures { result ≡ self.now.to }
    {
        self.to
    }

    /// The text of the message.
    pub fn bytes(&self) -> &[u8]
        ensures { result.now ≡ self.now.bytes }
    {
        self.bytes.as_slice()
    }

    /// The text of the message, as the vector that it was made from.
    pub fn into_bytes(self) -> Vec<u8>
        ensures { result.items ≡ self.bytes }
    {
        self.bytes
    }
}

/// What a step of a log or an authority sends.
#[derive(Debug, Drop)]
pub struct Sent {
    /// The messages, in the order in which they are sent.
    pub messages: Items<Outgoing>,
    /// The epoch that ended in this step, where one did: with the root of its table where it was decided, and
    /// with none where it was skipped.
    pub ended: Option<(u64, Option<[u8; 32]>)>,
}

impl Sent {
    /// No message, and no epoch that ended. It takes no memory.
    pub fn nothing(alloc: Global) -> Sent
        ensures { result ≡ nothing.sent }
    {
        Sent {
            messages: Items::new(alloc),
            ended: None,
        }
    }
}
