ghost use Rattle.std.specs.Prelude.{◌≡◌, ◌<◌, ◌≤◌, ℕ, List, length, IfOk};
ghost use Rattle.ar_run.specs.Answers.{Answer as Spec};
ghost use Rattle.ar_run.specs.Runs.{most_read_bytes};

use crate::Answer;
use std::alloc::{AllocError, Global};

/// What answers an input, as a command does.
pub trait Respond {
    /// What it answers to an input, however long that is.
    ghost answer_to: { Self → List ℕ → Spec };

    /// The answer to an input that is not too long. The only error is want of memory.
    fn answer(&self, alloc: Global, input: &[u8]) -> Result<Answer, AllocError>
        ensures { length input.now ≤ most_read_bytes
            → IfOk result (λ answer. answer ≡ answer_to self.now input.now) };

    /// The answer to each input that is too long. The only error is want of memory.
    fn refuse(&self, alloc: Global) -> Result<Answer, AllocError>
        ensures { (input : List ℕ) → most_read_bytes < length input
            → IfOk result (λ answer. answer ≡ answer_to self.now input) };
}
