ghost use Rattle.std.specs.Prelude.{◌≡◌, ℕ, List, Option, None, Some, IfOk, IfErr, IfSome, OnErr, IsErrOf};

use crate::Done;
use kept_journal::ReplayFault;
use std::alloc::Global;

/// A party that a journal can keep: what it is asked has a text, by which it does the same again.
pub trait Keeper: Drop {
    /// What it is asked.
    type Order: Drop;

    /// What it replies.
    type Reply: Drop;

    /// Why it refuses, want of memory with it.
    type Refusal: Drop;

    /// By taking this text it replies so, and becomes this.
    ghost takes: { Self → List ℕ → Self.Reply → Self → Type 0 };

    /// Asked this where it stands so, it replies so and stays as it is.
    ghost tells: { Self → Self.Order → Self.Reply → Type 0 };

    /// Asked this where it stands so, it refuses so.
    ghost refuses: { Self → Self.Order → Self.Refusal → Type 0 };

    /// Where it stands so, its journal has this text of what it is asked.
    ghost says: { Self → Self.Order → List ℕ → Type 0 };

    /// Does what it is asked. After a refusal it is as it was.
    fn step(
        &mut self,
        alloc: Global,
        order: &Self::Order,
    ) -> Result<Done<Self::Reply>, Self::Refusal>
        ensures taken { IfOk result (λ done. IfSome done.text (λ text.
            takes self.old text done.reply self.new × says self.old order.now text)) }
        ensures told { IfOk result (λ done. done.text ≡ None
            → (self.new ≡ self.old) × tells self.old order.now done.reply) }
        ensures refused { IfErr result (λ refusal. refuses self.old order.now refusal) }
        ensures err { OnErr result (self.new ≡ self.old) };

    /// Takes a text again. After an error nothing is said of the party.
    fn recall(&mut self, alloc: Global, text: &[u8]) -> Result<Self::Reply, ReplayFault>
        ensures taken { IfOk result (λ reply. takes self.old text.now reply self.new) }
        ensures stuck { IsErrOf result ReplayFault.Stuck → (reply : Self.Reply) (later : Self)
            → ¬ takes self.old text.now reply later };

    /// There is one reply, and one thing that it becomes.
    ghost determined: { (party one other : Self) (text : List ℕ) (reply said : Self.Reply)
        → takes party text reply one → takes party text said other
        → (reply ≡ said) × (one ≡ other) };
}
