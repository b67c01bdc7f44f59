//! Evidence from signed statements: who contradicts himself.
//!
//! A log or an authority that keeps the rules never signs two statements that contradict each other, so two such statements with
//! valid signatures show that somebody signed twice, or that a key is not its party's alone, or that the directory has wrong keys.
//! `audit` finds them. In `specs/`, `Items` says which of the items are evidence, `Rules` when two statements of one party
//! contradict each other, `Reports` what is reported, and `Standing` what it is that a party's statements stand in its book;
//! `laws` has what a report shows.
//!
//! Its tests: `examples/audit`.
#![tactic(auto)]

pub use auditing::audit;
pub use item::Item;
pub use report::{Conflict, Ignored, Report};

mod auditing;
mod item;
pub mod laws;
mod naming;
mod report;
mod rules;
mod sworn;
