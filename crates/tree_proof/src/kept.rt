ghost use Rattle.std.specs.Prelude.{◌≡◌, IfOk};
ghost use Rattle.hash_tree.specs.Path.{steps_of};
ghost use Rattle.tree_proof.specs.Path.{found_of};

use crate::{Found, Path};
use hash_tree::Trie;
use std::alloc::{AllocError, Global};

/// The path of a key in a kept tree, and what it shows: that of `make_present` where the key is there,
/// and else that of `make_absent` with its bottom.
/// The only error is want of memory.
pub fn path_of(alloc: Global, trie: &Trie, key: &[u8; 32]) -> Result<(Found, Path), AllocError>
    ensures found { IfOk result (λ made. made.0 ≡ found_of key.now trie.now) }
    ensures steps { IfOk result (λ made. made.1.steps ≡ steps_of key.now trie.now) }
{
    let walk = trie.walk(alloc, key)?;
    let found = match trie.get(key) {
        Some(value) => Found::Present { value },
        None => Found::Absent {
            bottom: walk.bottom,
        },
    };
    Ok((found, Path { steps: walk.steps }))
}
