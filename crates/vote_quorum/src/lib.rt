//! Tallies: how many distinct logs are for a value, and which statuses exclude that any value gets a
//! quorum. A quorum counts logs, never messages.
//!
//! `specs/Numbers.antt` says how many distinct numbers a list has, `specs/Counted.antt` when at least q of
//! the numbers below a bound have a property, `specs/Ballots.antt` how many logs have a ballot for a value
//! and which value has a quorum, `specs/Statuses.antt` which statuses exclude each root, and `laws` what
//! follows: two quorums share at least three logs, and an excluded root gets no quorum.
//!
//! Its tests: `base_tests`, module `vote_quorum_tests`, and `examples/play`.
#![tactic(auto)]

pub use added::Added;
pub use distinct::{distinct_count, shared_count};
pub use exclusion::excluded;
pub use tally::Tally;
pub use value::Value;

mod added;
mod distinct;
mod exclusion;
pub mod laws;
mod marks;
mod tally;
mod value;
