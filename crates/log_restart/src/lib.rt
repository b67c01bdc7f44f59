//! A log whose disk fails, and which is opened again.
//!
//! `restart` runs a log through its inputs on a disk in memory whose calls fail behind the first so many, opens what a crash
//! leaves of it, and runs the log through the inputs that were not recovered. `specs/Restarted.antt` says what is told of that,
//! and what the two disks hold; `specs/Books.antt` how the statements that the log signed are told.
//!
//! Its tests: `examples/restart`.
#![tactic(auto)]

pub use beginning::Beginning;
pub use disks::Disks;
pub use inputs::{MOST_INPUT_BYTES, total_len};
pub use restarting::restart;
pub use told::RestartReport;

mod beginning;
mod books;
mod disks;
mod inputs;
mod opening;
mod restarting;
mod running;
mod told;
