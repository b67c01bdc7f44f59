//! What logs and authorities are said to have signed: the claims of a message, each a party, the text of its statement
//! and a signature with its generation, at the places whose signers a log, an authority or a client verifies. There are
//! only definitions and laws.
//!
//! `specs/Claimed.antt` has the claims of a message and of bytes, `specs/Lists.antt` those of its lists, and
//! `specs/Verified.antt` says that one of some claims was verified under the keys of a directory.
//!
//! Its tests: `examples/play`.
#![tactic(auto)]

pub mod laws;
