//! Signatures of many leaves: LMS of RFC 8554, section 5, with SHA-256 and m = 32.
//!
//! `specs/` states the scheme on lists of bytes: `LmsKind` the table of types, `PublicKey` the text of
//! a key, `Tree` the nodes and the way up, and `Validity` the five conditions and the verdict, which
//! is the first that fails.
//! `Signature` has the text of a signature, and `Key` the keys that sign, made from a seed, with their
//! signatures.
//!
//! ```rust
//! let key = LmsKey::make(alloc, &seed, 5, 3)?;
//! let mut signature = vec![in alloc; 0u8; key.signature_len()]?;
//! key.sign_at(0, message, &mut signature);
//! let verdict = valid(&key.public(), message, &signature);
//! ```
//!
//! `verdict` is `Verdict::Valid` then, which the caller `sign_and_verify` of the crate `worked_examples` proves.
//!
//! Its tests: `base_tests`, module `lms_tree_tests`, and `vectors/` and `examples/sig`.
#![tactic(auto)]

pub use key::{KeyFault, LmsKey, type_to_make};
pub use lms_type::LmsType;
pub use public_key::LmsPublic;
pub use validity::{Verdict, valid};

mod key;
pub mod laws;
mod lms_type;
mod nodes;
mod parts;
mod path;
mod public_key;
mod signature;
mod tree;
mod validity;
