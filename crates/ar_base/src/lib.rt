//! What the crates above have in common: a list type whose value in a contract is the list of its items,
//! where a byte stands first, and the words of `specs/`.
//!
//! `specs/Bytes.antt` says what bytes and digests are, `specs/Ranges.antt` what numbers stand in a range,
//! `specs/Counting.antt` what a test adds to a count, `specs/Chaining.antt` how one reading stands behind
//! another, and what has to hold first, `specs/Faults.antt` what it is that a count of faults rose,
//! `specs/FirstFailing.antt` which of an ordered list of tests, conditions or answers is the first that fails,
//! `specs/Gives.antt` that a call answers, or steps, as its definition says, also where it takes memory, and
//! `specs/Apart.antt` that no two strings of a list have one digest under SHA-256.
//! `specs/Places.antt` says where a text stands in a list, `specs/Adding.antt` what a list is with one more,
//! behind the others or in its place, `specs/Appending.antt` what it is that a call appends a text to a vector, and
//! `specs/Prefixes.antt` when a list begins with another.
//!
//! Its tests: those of the crates above it.
#![tactic(auto)]

pub use bytes::position_of;
pub use items::Items;

mod bytes;
mod items;
pub mod laws;
