//! Words that logs and authorities share: the sizes of a directory, what was seen of parties, the values that logs vote
//! for and the statements on them, and whether a book has leaves for statements. There are definitions and laws, and of the
//! code the list of what was seen (`see`), the statements of logs on a value, whether a book has leaves for statements, and
//! what a key in hand keeps by its type (`key_told`).
//!
//! `specs/Council.antt` has the sizes of a directory, without its keys, `specs/Seen.antt` the lists of what was seen,
//! `specs/Values.antt` the statements on values, and `specs/Room.antt` the room in a book.
//! `specs/Endorsements.antt` has what an authority says that endorses a certificate.
//! `specs/Votes.antt` says of which value a quorum of votes was seen.
//!
//! Its tests: `examples/play`.
#![tactic(auto)]

mod keys;
pub mod laws;
mod room;
mod seen;
mod statements;

pub use keys::key_told;
pub use room::{has_leaf, has_leaves};
pub use seen::{see, see_each, seen_text};
pub use statements::{is_same_digest, propose_statement, status_statement, vote_statement};
