//! The book and the keys of a party whose keys roll: each statement has one leaf of one generation, and
//! the last leaf of each key is kept for the statement that announces the next one.
//!
//! `specs/Book.antt` says what a book is, `specs/Entry.antt` which leaf it gives to a statement,
//! `specs/Ring.antt` which keys a party has, and `laws` that no generation's leaf serves two statements.
//! `specs/Rolls.antt` says which texts are Rolls, the statements that announce a next key.
//!
//! Its tests: `call_tests`, module `key_roll_tests`.
#![tactic(auto)]

pub use ar_statement::BookFault;
pub use book::{LAST_GENERATION, RollBook};
pub use due::{RollDue, forgo};
pub use fault::RollFault;
pub use ring::{KeyRing, ring_signature_len};
pub use signed::SignedText;

mod book;
mod due;
mod entries;
mod fault;
pub mod laws;
mod ring;
mod signed;
