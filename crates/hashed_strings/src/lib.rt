//! The strings that are hashed for the tables of logs, and by clients for what they accept, and whether two of them collide
//! under SHA-256.
//!
//! `Noted` takes strings one after another, those of a log's record (`note_log`) and of the bytes of a confirmation
//! (`note_confirmation`), and tells exactly whether no two of all of them collide (`is_apart`). It keeps each string once, under
//! its digest: `specs/Index.antt` says what that tells. The tables of a log are made again from what it remembers.
//!
//! A table does not list its names. Each of them is the name of a change of the record, so the strings are told of these names:
//! `specs/Named.antt` says which they are, `specs/Made.antt` which changes and tables a record has, and `specs/Judged.antt`
//! which strings a client hashes.
//!
//! Its tests: `examples/premises.txt`, by the program `arpki_premises`.
#![tactic(auto)]

pub use noted::Noted;

mod judged_strings;
mod log_tables;
mod noted;
mod table_strings;
mod tree_strings;
