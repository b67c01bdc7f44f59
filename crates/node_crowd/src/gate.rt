ghost use Rattle.std.specs.Prelude.{ℕ};

use shared_node::Place;

/// What a worker passes before it asks a node, and tells of the place of the call after that. It changes nothing of what is replied:
/// a test can let workers wait for one another here.
pub trait Gate: Sync {
    /// The gate was passed for the errand of this number, which `before` alone shows.
    ghost passed: { Self → ℕ → Type 0 };

    /// The errand of this number was told its place, which `after` alone shows.
    ghost noted: { Self → ℕ → ℕ → Type 0 };

    /// A worker is about to ask a node for the errand of this number.
    fn before(&self, number: u64)
        ensures { passed self.now number };

    /// The errand of this number stands at this place of the history of its node.
    fn after(&self, number: u64, place: &Place)
        ensures { noted self.now number place.now };
}

/// A gate that is always open: it does nothing.
#[derive(Clone, Copy, Debug, PartialEq, Eq)]
pub struct OpenGate;

impl Gate for OpenGate {
    ghost passed = { λ _ _. Unit {0} };

    ghost noted = { λ _ _ _. Unit {0} };

    fn before(&self, _number: u64) {}

    fn after(&self, _number: u64, _place: &Place) {}
}
