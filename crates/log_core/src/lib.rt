//! The rows of a log: what a log makes of each message and of each order. `LogCore` keeps a log by them, without its keys, and
//! `Log` is a log with its keys (`specs/Keyed.antt`), whose answers are signed.
//!
//! `specs/State.antt` has what a log is between two steps and what it is asked, and `specs/Row.antt` the row of each
//! input. An input has a file of its own, with its checks in order, of which the first that refuses is the answer, and
//! what it does (`specs/Steps.antt`, `specs/Replies.antt`). What rows share stands in `log_sending`: the checks, whose
//! signatures stand in a message, how a list of changes is judged, the walk over the queue, what is sent, with zero bytes
//! where a signature of the log's own is due, and what follows where an epoch ends.
//!
//! Its tests: `examples/play`.
#![tactic(auto)]

mod balloting;
mod confirming;
mod deciding;
pub mod laws;
mod log;
mod log_core;
mod passing;
mod proposed;
mod proposing;
mod rolling;
mod skipping;
mod stating;
mod step;
mod submitting;
mod verifying;

pub use log::{Log, answer, new_log};
pub use log_core::LogCore;
pub use log_sending::LogRefusal;
pub use step::LogInput;
