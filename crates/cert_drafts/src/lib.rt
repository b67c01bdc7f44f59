//! Certificates as the lines `register`, `update` and `revoke` of a script make them.
//!
//! `first_certificate` is the first of a name, `next_certificate` the one behind another with the same policy, and
//! `updated_certificate` the one behind another with the policy that words say. Each has the key of the owner that makes it.
//! `are_authorities` and `may_wait` are the tests of whether words say a policy; those of each line that is read do.
//!
//! Its tests: `examples/play`.
#![tactic(auto)]

pub use certificates::{first_certificate, next_certificate, updated_certificate};
pub use policies::{are_authorities, may_wait, narrow};

mod certificates;
mod policies;
