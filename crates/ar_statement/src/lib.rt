//! What the parties sign: the statements, and the one text of each.
//!
//! `specs/Claims.antt` has the texts as a table by kind.
//! `specs/Texts.antt` says how a text is read, `specs/Fields.antt` the fields that certificates and messages
//! have too, and `specs/Ranges.antt` which values the fields of a statement have.
//!
//! Its tests: `examples/audit`, where a text of each kind is read, and what is no text.
#![tactic(auto)]

mod fault;
pub mod fields;
pub mod laws;
mod party;
mod reading;
mod statement;
mod text;
mod told;
mod writing;

pub use fault::BookFault;
pub use party::{Party, Role, has_party};
pub use statement::{Statement, TEXT_LEN, confirmation_statement};
pub use text::{SeenText, Text};
pub use told::{optional_value_told, value_told};
