//! Names of domains: which texts are names, where a text that is none goes wrong, and the digest under
//! which a name stands in the integrity tree.
//!
//! `specs/Names.antt` says which texts are names, where the first fault of another one is, and which digest a
//! name has, and `specs/NameReading.antt` what reading a text as a name gives.
//!
//! Its tests: `base_tests`, module `ar_names_tests`.
#![tactic(auto)]

mod fault;
mod key;
pub mod laws;
mod name;
mod rule;
mod view;

pub use fault::NameFault;
pub use key::name_digest;
pub use name::Name;
pub use rule::first_fault;
pub use view::NameView;
