//! A burst: deliveries of a world that several workers bring at once, each from a thread of its own.
//!
//! `run_burst` takes the logs and authorities that have deliveries out of the world, each without its keys under a lock of its own
//! (crate `station`), deals the deliveries to the workers, and lets these bring them side by side (crate `node_crowd`). Each reply is
//! signed by who brought the message, outside of the lock. Then the parties come back, and what they replied is settled, party by
//! party, in the order in which each took its deliveries: so the world is what it is where the deliveries are made in that order, one
//! after the other, and what happens is told with the orders.
//!
//! `specs/Bursts.antt` says what may be in a burst, what its orders are, and what it makes of a world; `Stations` which parties take
//! its deliveries, `Laying` how these stand apart from their world, and `Visiting` what workers brought to them. The gate of
//! `node_crowd` is passed before each delivery and told its place after that.
//!
//! Its tests: `examples/crowd`, `arpki_crowd`, module `crowd_run_tests`, and `tools/crowd-orders`.
#![tactic(auto)]

mod burst;
mod errands;
mod joining;
pub mod laws;
mod parting;
mod settling;
mod signer;
mod stations;

pub use burst::{MOST_IN_BURST, may_join, run_burst};
