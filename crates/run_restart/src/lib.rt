//! `restart`: a script is played, and one of its logs runs again, with a journal on a disk that fails, and once more on what a
//! crash leaves of that disk.
//!
//! The script is played without a word. What the log was asked in it and did not refuse it is asked again (`run_replays` has
//! that it then becomes the same), by the two runs of `log_restart`. One line tells how many of the inputs were recovered, and
//! which statements the log has signed in the end; the disks of the two runs are handed out.
//!
//! In `specs/`, `Asking` says what is asked of the program, and of the log, and `Answers` what is answered, and what a run of the
//! command takes of its source, writes to its sink and leaves on the two disks. `Ending` has the answer with the disks.
//!
//! Its tests: `examples/restart`, and `tools/fail-each-call`.
#![tactic(auto)]

pub use command::Restart;
pub use running::restart_input;

mod answering;
mod asking;
mod behind;
mod command;
mod ended;
mod restarting;
mod running;
mod telling;
