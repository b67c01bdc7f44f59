//! What `sig` and `check` are asked, and what they answer: each a `Command`, which answers the bytes of an input.
//!
//! `specs/Commands.antt` has the commands by their names, `Questions` and `Inquiries` what they read, and `Answers` what is
//! written and with which status. `Written` says how a question and an inquiry are written, and `laws` that they are read
//! so. `Notes` says what the directory of `check` learns from the lines `roll`. `readers` has the calls that read the lines
//! of a directory, and of a question about it, for commands that are asked with the same lines.
//!
//! Its tests: `examples/sig` and `examples/check`.
#![tactic(auto)]

pub use command::Command;
pub use verdicts::{refuse, refuse_long};

mod command;
mod inquiry;
mod judgements;
pub mod laws;
mod question;
pub mod readers;
mod rolls;
mod verdicts;
