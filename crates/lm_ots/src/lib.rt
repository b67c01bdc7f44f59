//! One-time signatures: LM-OTS of RFC 8554, section 4, with SHA-256 and n = 32.
//!
//! `specs/` states the scheme on lists of bytes: `OtsKind` the table of types, `Digits` how a hash is
//! cut into digits, `Chain` the chains, `Candidate` the public key that a signature leads to, and
//! `Signing` the keys and signatures that a seed gives. `laws` says that the two fit.
//!
//! Chains do not wait for each other, so four of them go side by side, in the lanes of `hash_lanes`: those of one leaf
//! (`walk`; `Ways` says where a chain leads that is on its way), or, where a tree is made, the same chain of four leaves
//! (`four_leaves`), which leaves no lane over.
//!
//! Its tests: `base_tests`, module `lms_tree_tests`, `vectors/` and `examples/sig`.
#![tactic(auto)]

pub use candidate::ots_candidate;
pub use four_leaves::four_ots_publics;
pub use hashing::domain_hasher;
pub use ots_type::OtsType;
pub use secret::OtsSecret;
pub use signing::{ots_public, ots_sign_into};

mod candidate;
mod chain;
mod chains;
mod digits;
mod four;
mod four_leaves;
mod hashing;
pub mod laws;
mod ots_type;
mod queue;
mod secret;
mod signing;
mod values;
mod walk;
