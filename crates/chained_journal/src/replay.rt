ghost use Rattle.std.specs.Prelude.{◌≡◌, ℕ, Bool, List, OnOk, IsErrOf};

use kept_journal::ReplayFault;
use std::alloc::Global;

/// A party that takes the texts of its journal again, one behind the other, and is then what the texts made of it that it took.
pub trait Replay {
    /// It becomes this by taking this text, behind which another comes or none.
    ghost takes: { Self → List ℕ → Bool → Self → Type 0 };

    /// Takes a text again, and is told whether another comes behind it. After an error nothing is said of the party.
    fn replay(&mut self, alloc: Global, text: &[u8], more: bool) -> Result<(), ReplayFault>
        ensures taken { OnOk result (takes self.old text.now more self.new) }
        ensures stuck { IsErrOf result ReplayFault.Stuck → (later : Self)
            → ¬ takes self.old text.now more later };

    /// There is one thing that it becomes.
    ghost determined: { (party one other : Self) (text : List ℕ) (more : Bool)
        → takes party text more one → takes party text more other → one ≡ other };
}
