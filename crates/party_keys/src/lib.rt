//! The keys of all parties: a directory of the keys of logs and authorities, of all generations that are
//! known, with the size of a quorum, under which statements are verified and next keys are learnt; and the
//! secret from which a party's own key is made.
//!
//! `specs/Directory.antt` says which directories there are, `Signatures` what verifying answers, `Learning`
//! how a directory comes to know further keys, `Signers` what a list of signers is answered, and `Seeds` has
//! the secrets.
//! `specs/Seen.antt` says what was seen of parties, and `specs/Kept.antt` how a directory keeps its keys.
//!
//! ```rust
//! let signed = directory.verify(party, Text::of(&statement).as_bytes(), signature).is_ok();
//! ```
//!
//! The caller `has_signed` of the crate `worked_examples` has the contract that goes with it.
//!
//! Its tests: `examples/check`, `examples/audit`, and `examples/play`.
#![tactic(auto)]

mod directory;
mod fault;
pub mod laws;
mod learning;
mod role_keys;
mod seed;
mod signers;
mod verifying;

pub use directory::{Directory, is_party_count, is_quorum};
pub use fault::{DirectoryFault, LearnFault, SignerFault, VerifyFault};
pub use learning::{Announced, Learned};
pub use seed::party_seed;
pub use signers::Claimed;
