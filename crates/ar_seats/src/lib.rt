//! What many threads have together: the shares of their seats, totals over the views of all seats of a table,
//! and lists of numbers that are handed out once each. The module `laws` says what the words mean.
//!
//! `specs/Shares.antt` says what shares are, `specs/Totals.antt` has the totals, `specs/Numbers.antt` the numbers
//! that are handed out, and `specs/Prefixes.antt` the beginnings of one list that only grows.
//!
//! Its tests: those of the crates above it.
#![tactic(auto)]

pub use share::Share;
pub use split_fault::SplitFault;

pub mod laws;
mod share;
mod split_fault;
