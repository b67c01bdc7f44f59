//! Paths in the integrity tree: what shows, under a root, that a key has a value or that it has none.
//!
//! A path lists siblings, the deepest first. `specs/Membership.antt` says when steps show a key's value
//! or its absence, `specs/Path.antt` what the path of a key in a set of entries shows, and `laws` that a
//! made path is accepted, and that an accepted one tells the truth where no two strings that were
//! hashed collide.
//!
//! Its tests: `base_tests`, module `tree_proof_tests`.
#![tactic(auto)]

pub use check::{check_absent, check_present};
pub use hash_tree::Bottom;
pub use kept::path_of;
pub use make::{make_absent, make_present};
pub use path::{Found, Path};

mod check;
mod kept;
pub mod laws;
mod make;
mod path;
