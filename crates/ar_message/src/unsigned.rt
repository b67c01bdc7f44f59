ghost use Rattle.std.specs.Prelude.{◌≡◌};
ghost use Rattle.ar_message.specs.Filling.{nothing, only_ended};

use crate::Sent;
use ar_base::Items;
use key_roll::RollDue;
use std::alloc::Global;

/// A place in a message where a signature is due. Its bytes are zero until it is signed.
///
/// It cannot be copied or dropped, since what is due cannot.
pub struct Blank {
    /// The place of the message among those that are sent, from 0.
    pub message: usize,
    /// The offset of the signature's first byte in that message.
    pub at: usize,
    /// What is signed there.
    pub due: RollDue,
}

/// What a step sends, before it is signed. It has to be spent, by `fill`: until then no message may leave.
pub struct Unsigned {
    /// What leaves once each blank is signed.
    pub sent: Sent,
    /// Each place in its messages where a signature of the sender's own is due.
    pub blanks: Items<Blank>,
}

impl Unsigned {
    /// No message is sent and no signature is due; this epoch ended, where one did. It takes no memory.
    pub fn ended(alloc: Global, ended: Option<(u64, Option<[u8; 32]>)>) -> Unsigned
        ensures { result ≡ only_ended ended }
    {
        Unsigned {
            sent: Sent {
                messages: Items::new(alloc),
                ended,
            },
            blanks: Items::new(alloc),
        }
    }

    /// Nothing is sent, no epoch ended, and no signature is due. It takes no memory.
    pub fn nothing(alloc: Global) -> Unsigned
        ensures { result ≡ nothing }
    {
        Unsigned::ended(alloc, None)
    }
}
