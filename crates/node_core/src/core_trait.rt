ghost use Rattle.std.specs.Prelude.{◌≡◌, IfOk, OnErr};

use std::alloc::{AllocError, Global};

/// An object that answers one input at a time, and can be sent to another thread.
pub trait Core: Send + Drop {
    /// What it is asked.
    type Input: Send + Drop;

    /// What the history keeps of a step beside its input, as what a check answered in it.
    type Note: Copy + Send;

    /// What it answers. It may have to be spent, so it need not be `Drop`.
    type Reply;

    /// Plain data that contracts alone use.
    type State;

    // The core as plain data.
    ghost state: { Self → Self.State };

    // The reply and the new state that a state, an input and a note give.
    ghost next: { Self.State → Self.Input → Self.Note → Self.Reply × Self.State };

    // Whether a note may come at a state and an input.
    ghost legal: { Self.State → Self.Input → Self.Note → Type 0 };

    /// Answers an input, with the note of the step. The only error is want of memory, and then the
    /// core is as it was.
    fn step(
        &mut self,
        alloc: Global,
        input: &Self::Input,
    ) -> Result<(Self::Reply, Self::Note), AllocError>
        ensures legal { IfOk result (λ made. legal (state self.old) input.now made.1) }
        ensures next { IfOk result (λ made.
            next (state self.old) input.now made.1 ≡ (made.0, state self.new)) }
        ensures err { OnErr result (state self.new ≡ state self.old) };
}
