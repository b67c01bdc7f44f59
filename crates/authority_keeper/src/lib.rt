//! An authority that is kept: an authority (`authority_core`) with a check by a book of pairs, as a `Keeper` (`kept_party`).
//!
//! What its journal has of it is what it was asked and did not refuse: 1 and a message, 2 and the key of a roll (56 bytes), 3 (its
//! check learns) or 4 (it forgets) with a key of 56 bytes and a name, or 5 (it retires); `specs/Inputs.antt`. The lessons of the
//! check are among them, so what the check answered is known again without a record of its own: an endorsement in a journal is one
//! to which the book said yes (`specs/Keeping.antt`).
//!
//! `specs/Said.antt` has what the code reads of a text, `specs/Checks.antt` the book of a check, and
//! `specs/Determined.antt` that there is one thing that an authority sends for a text, and one that it becomes.
//!
//! Its tests: `examples/party`, by the program `arpki_party`, and `tools/network`.
#![tactic(auto)]

pub use keeper::AuthorityKeeper;
pub use order::AuthorityOrder;
pub use refusal::AuthorityOrderRefusal;

mod asking;
mod check;
mod keeper;
pub mod laws;
mod order;
mod recalling;
mod refusal;
mod steps;
mod text;
