//! The journal of a party that restarts: what it took, in order, in a file that outlives its process.
//!
//! A journal is a mark of 8 bytes, then a gate byte. A record is its gate, which is 1, the length of its text in four bytes, the
//! text, and the gate of the next record. The text is what the party took, as the party spells it. The records up to the first
//! gate that is not 1 count (`specs/Journal.antt`); what stands behind that gate counts for nothing.
//!
//! `Journal::append` puts a record behind the closed gate, makes it last, and then opens the gate and makes that last: a crash
//! at any moment leaves the records from before, with the new one or without. `Journal::open` reads a file that a crash may have
//! left, and has a party take what stands in it (`Replay`), one text behind the other.
//!
//! Its tests: `examples/journal`, `tools/damage-journals`, and `tools/crash`.
#![tactic(auto)]

pub use fault::{OpenFault, ReplayFault};
pub use journal::Journal;
pub use record::KeptText;
pub use replay::Replay;

mod fault;
mod journal;
pub mod laws;
mod opening;
mod reading;
mod record;
mod replay;
mod standing;
mod writing;
