//! What clients accepted.

use ar_names::Name;
use std::marker::Model;

/// A message that a client accepted, or by which it holds that a name has no certificate: the name, the epoch in which it
/// was judged, how old it might be, and its bytes.
#[derive(Debug, Drop)]
pub struct Judged {
    /// The name that the client asked for.
    pub name: Name,
    /// The epoch that it was for the client, from 1.
    pub now: u64,
    /// How many epochs old the client let it be.
    pub age: u64,
    /// The bytes as they stand in the pool, which are a confirmation.
    pub bytes: Vec<u8>,
}

// Clauses see the bytes, however much room they keep.
impl Model for Judged {
    ghost use Rattle.ar_safety.specs.Held.{AcceptedBytes};

    ghost Value = { AcceptedBytes };

    ghost view = { λ j. record { name = j.name; now = j.now; age = j.age; bytes = j.bytes.items } };
}
