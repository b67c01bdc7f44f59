//! Lines of an input, the words of a line, and which line is refused first: what each command that reads
//! lines stands on.
//!
//! `Lines` gives the lines of an input one after the other, as a `Word` or as the fields of a named line,
//! and a `Word` is read as hex, as a number, as a name or as a key. `letter_of` and `party_of` are how a party is
//! written and read. `Refusal` says which line is refused, and why.
//!
//! In `specs/`, `Lines` says how an input is cut, `Forms` what a word spells, `Parties` the words of parties,
//! `Refusals` how a refused line is told, `Readings` and `Rows` what is read of lines and of named lines,
//! `Views` how words and a row that are read in place are seen, and `Written` how lines and words are
//! written. `laws` says that what is written is read, and that it is read from nothing else.
//!
//! Its tests: `examples/check`, and those of the other commands.
#![tactic(auto)]

pub use lines::{Lines, first_part, first_word, is_text};
pub use party::{letter_of, party_of};
pub use refusal::{LineFault, Reason, Refusal};
pub use word::{Word, array_of_hex, is_hex, number_in, number_of};

pub mod laws;
mod lines;
mod party;
mod refusal;
mod word;
