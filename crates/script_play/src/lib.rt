//! A script that is played: its lines are taken by a world, and what happens is written at once.
//!
//! `specs/Playing.antt` says what it is to play a script, over the run that `ar_world` defines, and `Counts` what is counted
//! of it. `Played` says what is answered where an input is played, and what a program that plays its input takes and writes,
//! over any run. A check of owners that tells nothing of itself may say anything: what is played is then the run of some
//! answers.
//!
//! The types and words of a world that stand here in contracts are passed on: `World`, `Cause` and others, and in `specs/Lib.antt`
//! the definitions of `ar_world` and `ar_nodes`.
//!
//! `play` plays a script whole. A `Stage` takes it line by line, for whoever has lines of its own beside those of a world.
//!
//! Its tests: `examples/`, `tools/fail-each-call`, and those of the program `arpki`.
#![tactic(auto)]

pub use ar_world::{Cause, LogEvent, World, WorldFault};
pub use counts::Counts;
pub use lines::read_line;
pub use played::Played;
pub use playing::play;
pub use refusing::{refusal_line, tell_refusal, tell_too_long};
pub use stage::Stage;
pub use telling::{tell, tell_made};

mod counts;
mod flushing;
mod lines;
mod played;
mod playing;
mod refusing;
mod stage;
mod telling;
