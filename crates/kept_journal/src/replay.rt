ghost use Rattle.std.specs.Prelude.{◌≡◌, ℕ, List, OnOk, IsErrOf};

use crate::ReplayFault;
use std::alloc::Global;

/// A party that is what the texts made of it that it took.
pub trait Replay {
    /// It becomes this by taking this text.
    ghost takes: { Self → List ℕ → Self → Type 0 };

    /// Takes a text again. After an error nothing is said of the party.
    fn replay(&mut self, alloc: Global, text: &[u8]) -> Result<(), ReplayFault>
        ensures taken { OnOk result (takes self.old text.now self.new) }
        ensures stuck { IsErrOf result ReplayFault.Stuck → (later : Self)
            → ¬ takes self.old text.now later };

    /// There is one thing that it becomes.
    ghost determined: { (party one other : Self) (text : List ℕ) → takes party text one
        → takes party text other → one ≡ other };
}
