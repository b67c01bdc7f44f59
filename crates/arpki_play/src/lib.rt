//! The top call of the program `arpki`: from the bytes of its input to the bytes of its output.
//!
//! `specs/` says what is answered: `Words` which words are of a form, `Made` what is written, and with which status, where a
//! script is made and played, and `Program` what a run takes and writes, by three families with a line for each request. What
//! `play` answers is in `script_play`, what `restart` answers in `run_restart`, what `sig` and `check` answer in `arpki_ask`, and
//! what the commands answer that `review_named` names in `review`.
//!
//! Its tests: `examples/`, `tools/fail-each-call`, and those of the program `arpki`.
#![tactic(auto)]

pub use program::arpki_main;

mod plays;
mod program;
mod request;
