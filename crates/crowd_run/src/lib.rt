//! The program `arpki_crowd`: a script whose bursts are brought by several workers, and a server that answers from several threads.
//!
//! A script with bursts is one of `play` with lines `burst` and `end`, between which deliveries stand. At `end` the workers bring them
//! side by side (crate `burst_run`), and the orders in which the parties took them are written before what happens. All else is as in
//! `play`, by the parts of `script_play`.
//!
//! In `specs/`, `Scripts` says what a script with bursts comes to, by the orders of its bursts, and `Program` what the program writes,
//! and with which status; `Passing` what it keeps from line to line. The command `serve` is that of `serve_run`.
//!
//! Its tests: `arpki_crowd`, module `crowd_run_tests`, `examples/crowd`, `tools/crowd-orders`, and `tools/fail-each-call`.
#![tactic(auto)]

pub mod laws;
mod lines;
mod playing;
mod plays;
mod program;
mod request;

pub use node_crowd::{Gate, OpenGate};
pub use program::crowd_main;
