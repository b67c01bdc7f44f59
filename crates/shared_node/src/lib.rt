//! A core that many threads share, with one history of all calls.
//!
//! The core lies in the one slot of a table, with the list of the calls that it answered. A thread
//! asks with a seat: it takes the core out, lets it make a step, and counts the call. (That it does so under
//! the node's lock, so that others wait and do not look again and again, no clause says.)
//! What a seat has seen is a beginning of the history, and at every moment each call of the history is
//! an own call of one seat (`specs/Rule.antt`). So the calls of all threads stand in one legal
//! history, each once, in the order that each had seen.
//!
//! A seat can be split for another thread, and joined again. A seat that has the whole share is the
//! only one: with it the node is closed, and gives back the core and the history.
//!
//! What a core makes of a history of calls, and which histories are legal, is said by `node_core`.
//!
//! Its tests: `examples/crowd`, `arpki_crowd`, and `tools/crowd-orders`.
#![tactic(auto)]

pub use answer::{Closed, Place, Served};
pub use ar_seats::SplitFault;
pub use seat::{Seat, SeatOf};
pub use shared::SharedNode;

mod answer;
mod held;
pub mod laws;
mod node;
mod seat;
mod shared;
mod steps;
