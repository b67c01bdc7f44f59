//! A run of a command: it reads its whole input, and writes its answer, whatever the command is.
//!
//! What a command answers to an input, its lines and its status, it says by the trait `Respond`, and `run`
//! does the rest over every source and every sink, with the cause of each status above those of
//! answers. In `specs/`, `Answers` says what an answer is and what is written of it, `Writing` what it is to write
//! bytes that may not all be taken, and `Runs` what a run takes of its source and leaves in its sink.
//!
//! Its tests: `tools/fail-each-call`.
#![tactic(auto)]

pub use answer::Answer;
pub use fault::Fault;
pub use input::read_input;
pub use respond::Respond;
pub use running::{run, status, write_answer, write_line, write_text};

mod answer;
mod fault;
mod input;
mod respond;
mod running;
