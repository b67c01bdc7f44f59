//! The integrity tree: one digest, the root, stands for a finite map from keys to values.
//!
//! The digest of a set of entries at a depth is that of no entry where there is none, that of the
//! entry where there is one, and else that of the two halves of the set, by the key's bit at that
//! depth. The root is the digest at depth 0. `specs/Root.antt` says this over finite maps: no tree is
//! in it, and the order of the entries does not matter.
//!
//! `root_of` computes it from a list of entries, without memory. `Trie` keeps the digests of a set
//! that changes: contracts see the finite map of its entries, a change of one entry hashes the path of
//! its key alone, and each hash call is a tick of the counter that the caller hands in (`Steps`).
//! `specs/Kept.antt` says what the kept tree is.
//!
//! `specs/Entries.antt` has the finite maps that the tree is over, `specs/Strings.antt` the strings that are
//! hashed, and `specs/Path.antt` the path of a key.
//!
//! Its tests: `base_tests`, module `tree_proof_tests`, and `examples/play`.
#![tactic(auto)]

pub use bits::key_bit;
pub use bottom::Bottom;
pub use digests::{
    empty_digest, entry_digest, node_digest, pending_digest, pending_key, value_digest,
};
pub use roots::{halves, have_ascending_keys, root_of, subtree_digest};
pub use steps::Steps;
pub use trie::{Trie, Walk};

mod bits;
mod bottom;
mod digests;
pub mod laws;
mod node;
mod roots;
mod steps;
mod trie;
