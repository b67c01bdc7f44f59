//! What a client does with a confirmation: it judges it under a directory of keys, without memory.
//!
//! `specs/Rule.antt` has what is asked, and the checks in their order.
//! `specs/Meaning.antt` says what an answer means: each check as a fact about the confirmation.
//!
//! ```rust
//! match judge(&directory, b"a.example", confirmation, now, age) {
//!     Judgement::Accepted { certificate, .. } => connect_with(certificate.subject()),
//!     Judgement::Absent { .. } => no_certificate(),
//!     Judgement::Refused(number) => refused(number),
//! }
//! ```
//!
//! The caller `key_to_trust` of the crate `worked_examples` has the contract that goes with it.
//!
//! Its tests: `examples/check`, and `worked_examples`.
#![tactic(auto)]

mod checks;
mod judgement;
pub mod laws;
mod note;
mod shown;

pub use ar_message::ConfView;
pub use judgement::{Judgement, judge};
pub use note::RollNote;
