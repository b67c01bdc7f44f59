//! SHA-256 of four messages at a time, in the lanes of vectors: the steps of four hash chains of LM-OTS (RFC 8554,
//! section 4.3) side by side.
//!
//! Chains do not wait for each other, so word k of four values stands in one vector of four lanes, and each instruction
//! of a round (FIPS 180-4, section 6.2.2) works for all four. `FourValues` keeps the values of four chains in this form
//! from step to step. Contracts see the list of its four values. After a step each of them is `sha256` of that step's
//! text, by the definition of the crate `sha2`: there is no definition of SHA-256 here.
//!
//! `specs/Lanes.antt` says which bytes stand in a lane, and what a step hashes; `specs/Words.antt` when words are those
//! of a block or of its schedule. `lanes` has the functions on words, `schedule` makes sixteen words from the sixteen
//! before them, `rounds` works through them, and `compression` puts these together.
//!
//! Its tests: `base_tests`, module `lms_tree_tests`, and `vectors/`.
#![tactic(auto)]

pub use values::FourValues;

mod compression;
mod constants;
mod front;
mod lanes;
mod rounds;
mod row;
mod schedule;
mod text;
mod values;
