//! The bytes of a run: a script is played, and its keys and its messages are written, so that what it sent can be given to
//! whatever judges messages.
//!
//! In `specs/`, `Telling` says what is written of a run, and `Answers` what is answered to an input, and what a run of the
//! program `arpki_messages` takes and writes.
//!
//! Its tests: `examples/messages.txt`, by the program `arpki_messages`.
#![tactic(auto)]

pub use program::messages_main;

mod known;
mod lines;
mod program;
mod telling;
