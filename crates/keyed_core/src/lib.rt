//! A party with its keys: a core that signs nothing itself, and the ring of keys that signs what the core sends.
//!
//! Where a signature of its own is due a core sends zero bytes, and enters the statement in its book (`key_roll`); the ring
//! writes the signature there (`ar_message::fill`). So a core may stand under a lock, and its keys sign outside of it. What is
//! the same of each such party, a log as well as an authority, stands here: its keys are those of its book, and it goes on to
//! its next key. What else it is asked is its core's own, and its answers are signed by the same words
//! (`specs/Signing.antt`).
//!
//! Its tests: those of the crates above it.
#![tactic(auto)]

mod keyed;
mod keyless;

pub use keyed::Keyed;
pub use keyless::Keyless;
