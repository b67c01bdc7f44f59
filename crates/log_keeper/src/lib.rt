//! A log that is kept: a log (`log_core`) as a `Keeper` (`kept_party`), whose texts are those of `log_journal`.
//!
//! What its journal has of it is what it was asked and did not refuse: 1 and a message, 2 (propose), 3 (pass), or 4 and the key of 56
//! bytes (roll). Opened again it sends what the last of them makes it send, signed by the same leaf.
//!
//! `specs/Keeping.antt` has what a log that is kept sends and becomes by a text, and the text of each order, and
//! `specs/Determined.antt` that there is one of each.
//!
//! Its tests: `examples/party` and the stored run of `arpki_party`, and `tools/network`.
#![tactic(auto)]

pub use keeper::LogKeeper;
pub use order::LogOrder;

mod asking;
mod keeper;
pub mod laws;
mod order;
mod recalling;
