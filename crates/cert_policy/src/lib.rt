//! The rule of policies: how a certificate follows the one before it, at once or as a recovery that waits,
//! and when it registers a name.
//!
//! `specs/Clauses.antt` lists the clauses with the test that each makes, in order of number, and says what
//! it is that they hold; the answer is the first that fails. `specs/Refusals.antt` has their numbers, and
//! `specs/Terms.antt` how borrowed facts are seen as data.
//!
//! Its tests: `examples/follow`, and `call_tests`, module `ar_cert_tests`.
#![tactic(auto)]

pub use facts::{Facts, PolicyFacts};
pub use manner::Manner;
pub use refusal::PolicyRefusal;
pub use rules::{follows, meets_common, registrable, update};

mod facts;
pub mod laws;
mod manner;
mod refusal;
mod rules;
