//! The commands that judge without a script: each a `Review`, which answers the bytes of an input.
//!
//! `audit` reads a directory and signed statements, and tells who contradicts himself. `follow` reads a directory and groups
//! of lines, each with a name, a confirmation and the changes that lead to it, and tells what a client that remembers
//! answers to each.
//!
//! `specs/Audits.antt` says what `audit` reads and `Telling` what is written of its report, `Follows` what `follow` reads and
//! what is told of it, and `Answers` what is answered.
//!
//! Its tests: `examples/audit` and `examples/follow`.
#![tactic(auto)]

pub use reviews::Review;

mod audits;
mod follows;
mod pins;
mod reviews;
mod telling;
mod texts;
