ghost use Rattle.std.specs.Prelude.{◌≡◌};

use node_core::Core;
use std::marker::Model;

/// The place of a call in the history: the number of calls before it. Only `SharedNode::ask` makes
/// one, and it cannot be copied.
#[derive(Debug, Drop)]
pub struct Place {
    number: u64,
}

// Clauses see the number.
impl Model for Place {
    ghost use Rattle.std.specs.Prelude.{ℕ};

    ghost Value = { ℕ };

    ghost view = { λ place. place.number };
}

impl Place {
    pub(crate) fn new(number: u64) -> Place
        ensures { result ≡ number }
    {
        Place { number }
    }

    /// The number of calls before this one.
    pub fn number(&self) -> u64
        ensures { result ≡ self.now }
    {
        self.number
    }
}

/// What a node answered, and where the call stands in the history.
#[derive(Drop)]
pub struct Served<R> {
    /// How many calls stand before this one.
    pub place: Place,
    /// What the core replied, in its state after those calls.
    pub reply: R,
}

/// What a node that is closed gives back.
#[derive(Drop)]
pub struct Closed<C: Core> {
    /// In its state after all calls.
    pub core: C,
    /// The inputs of all calls in their order, each with its note.
    pub history: Vec<(C::Input, C::Note)>,
}
