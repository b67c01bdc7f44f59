//! A log and an authority without their keys, as one core that takes messages.
//!
//! A station is what stands under a lock while threads bring messages to a log or an authority: it has no
//! key, and where a signature of its own is due what it replies has zero bytes. Who brought the message
//! signs the reply outside the lock, by `signed` with the ring of the party, which all of them read.
//!
//! `specs/Station.antt` has the step: what a log or an authority answers to the bytes of a message by its
//! row. Its note is what the check of owners answered, where an authority asked it. `specs/Kept.antt` says
//! what stays true of a station and its keys, and `specs/Worlds.antt` what it is that a station is a party
//! of a world. The laws are those two: what a station replies can be signed, whatever was asked before,
//! and a delivery in a world is a station's step.
//!
//! Its tests: `examples/crowd`, `arpki_crowd`, module `crowd_run_tests`, and `tools/crowd-orders`.
#![tactic(auto)]

mod asking;
mod delivery;
pub mod laws;
mod signing;
mod state;
mod station;
mod taking;

pub use delivery::Delivery;
pub use signing::signed;
pub use state::StationState;
pub use station::Station;
