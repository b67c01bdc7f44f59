ghost use Rattle.std.specs.Prelude.{◌≡◌, IfOk};

use std::alloc::{AllocError, Global};
use std::marker::Model;
use tree_proof::Path;

/// The steps of a path as they stand in a message: at most 256 digests of 32 bytes, the deepest first, one
/// behind the other.
#[derive(Debug, Drop)]
pub struct PathSteps {
    /// 32 for each step. In a message the number of steps stands in front of them, u16.
    pub bytes: Vec<u8>,
}

// Clauses see the bytes.
impl Model for PathSteps {
    ghost use Rattle.std.specs.Prelude.{List, ℕ};
    ghost use Rattle.ar_message.specs.Confirmation.{AreSteps};

    ghost Value = { List ℕ };

    ghost view = { λ s. s.bytes.items };

    ghost invariant = { λ s. AreSteps s.bytes.items };
}

impl PathSteps {
    ghost use Rattle.std.specs.Prelude.{◌≡◌, ◌≤◌, IfOk, length};
    ghost use Rattle.std.specs.List.{concat};
    ghost use Rattle.ar_message.specs.Confirmation.{AreSteps};

    /// The bytes.
    pub fn as_slice(&self) -> &[u8]
        ensures bytes { result.now ≡ self.now }
        ensures steps { AreSteps self.now }
    {
        &self.bytes
    }

    /// The steps of a path in the tree, which has at most 256: its digests are copied once.
    /// The only error is want of memory.
    #[tactic(auto, using(std::proofs::lemmas::List::Concat::concat_is))]
    pub fn of_path(alloc: Global, path: &Path) -> Result<PathSteps, AllocError>
        requires { length path.now.steps ≤ 256 }
        ensures { IfOk result (λ steps. steps ≡ concat path.now.steps) }
    {
        PathSteps::of(alloc, path.steps.as_slice().as_flattened())
    }

    /// These bytes as steps of their own.
    pub(crate) fn of(alloc: Global, bytes: &[u8]) -> Result<PathSteps, AllocError>
        requires { AreSteps bytes.now }
        ensures { IfOk result (λ steps. steps ≡ bytes.now) }
    {
        Ok(PathSteps {
            bytes: Vec::from_slice(alloc, bytes)?,
        })
    }
}
