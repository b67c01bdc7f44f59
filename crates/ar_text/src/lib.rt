//! Texts that are appended to a vector part by part, without memory of their own.
//!
//! `specs/Parts.antt` says what the text of a part is, and what it is that a call appends a text.
//!
//! Its tests: `examples/`, many of whose lines it writes.
#![tactic(auto)]

pub use appending::append;
pub use part::Part;

mod appending;
mod part;
