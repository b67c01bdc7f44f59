//! What the honest parties and the clients of a world hold: all of which the safety theorem speaks.
//!
//! `Records::of` gathers it, and leaves nothing out: the record of each honest log and authority, as it stands, and all that
//! clients accepted and learnt. That the records are those of honest ones `run_safety` says, of each run.
//!
//! Its tests: `examples/premises.txt`, by the program `arpki_premises`.
#![tactic(auto)]

mod judged;
mod records;

pub use judged::Judged;
pub use records::Records;
