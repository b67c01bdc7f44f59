//! Certificates of domains: their text, read in place or into a value, and written; and changes, judged
//! by the policy rule.
//!
//! `specs/Certificate.antt` and `specs/Changes.antt` have the grammars, field by field, with the place
//! of the first fault. `specs/Judging.antt` says what the rule is asked for a change, and which lists of
//! changes are the chain of a name.
//!
//! ```rust
//! let serial = CertView::read(bytes).map(|certificate| certificate.serial());
//! ```
//!
//! A certificate is read in place, and this takes no memory; the caller `serial_of` of the crate `worked_examples` has
//! the contract that goes with it.
//!
//! Its tests: `call_tests`, module `ar_cert_tests`.
#![tactic(auto)]

mod cert;
mod change;
mod change_view;
mod copies;
mod facts;
mod fault;
mod fields;
mod judging;
pub mod laws;
mod parts;
mod reading;
mod same;
mod view;
mod writing;

pub use cert::{Cert, Policy};
pub use change::{Change, Endorsement, MOST_ENDORSEMENTS};
pub use change_view::ChangeView;
pub use copies::copy_signature;
pub use fault::CertFault;
pub use fields::take_key;
pub use judging::{chain_ok, judge_change, judge_update};
pub use parts::ChangeParts;
pub use view::CertView;
