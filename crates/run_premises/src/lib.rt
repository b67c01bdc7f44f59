//! Whether a run meets the premises of the safety theorem, as answers of calls.
//!
//! `few` says whether at most two parties are dishonest, and `is_unforged` whether each signature in given bytes that is
//! valid under a key which clients know of an honest party is on what that party signed. `none_collide` says whether no two
//! of the strings have one digest that are hashed for the tables of honest logs, and by clients for what they accepted.
//! `claims_in` has what logs and authorities are said to have signed in a message.
//!
//! `specs/Books.antt` says whose book has which text, and when a claim is fair; `Hashing` which tables a log of a run has,
//! and `Known` how many keys of honest parties clients know; `laws` say what the answers mean.
//!
//! Its tests: `examples/premises.txt`, by the program `arpki_premises`.
#![tactic(auto)]

pub use claiming::claims_in;
pub use colliding::none_collide;
pub use forging::{few, is_unforged};

mod claiming;
mod colliding;
mod forging;
pub mod laws;
