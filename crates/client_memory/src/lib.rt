//! What a client remembers of the names that it asked for: it pins the certificate that it accepted, and from then on
//! any number of dishonest parties can only move it along updates that the domain's own policy takes.
//!
//! `specs/Book.antt` says what is kept, `specs/Links.antt` when one change is linked behind another, `specs/Answers.antt`
//! what a call answers and what is kept behind it, `specs/Calls.antt` what it is to make calls one after the other, and
//! `specs/Meaning.antt` what it means that a client pins a certificate or takes links.
//!
//! Its tests: `memory_tests`, and `examples/follow`.
#![tactic(auto)]

mod answers;
mod book;
pub mod laws;
mod links;
mod pin;

pub use answers::{AddFault, LinkFault, Pinned};
pub use book::PinBook;
