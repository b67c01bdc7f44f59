//! Challenges that are bound to what they are for, so that an answer serves nothing else.
//!
//! A key that signed any 32 bytes that a stranger chose would sign the challenge that somebody else is about to meet. So who
//! answers makes each challenge of its parts, and who judges makes it of the parts that it saw:
//!
//! - a *staple* of an epoch and of the key of a TLS connection. One answers all visitors of that epoch;
//! - a *live* challenge of a visitor's nonce and of what one TLS connection exports. It answers one visitor.
//!
//! `specs/Challenges.antt` has the strings that are hashed, and `laws` that a challenge is of one pair of parts and of one kind,
//! where no two strings collide.
//!
//! Its tests: `c-library/tests/staples`, which `tools/c-library` tries.
#![tactic(auto)]

pub use challenges::{live_challenge, staple_challenge};

mod challenges;
pub mod laws;
