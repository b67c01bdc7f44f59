//! The messages that parties send: thirteen kinds, each with one text.
//!
//! `specs/Messages.antt` has the grammar of each kind, field by field, with the place of the first fault,
//! and the one text of each message; `specs/Lists.antt` the lists of changes, votes and statuses in them,
//! and `specs/Confirmation.antt` the confirmation, which a client also reads in place, without memory.
//!
//! What a step of a party sends is an `Unsigned` first, with zero bytes where a signature is due, and `fill`
//! makes it a `Sent` with the party's keys (`specs/Filling.antt`).
//!
//! Its tests: `call_tests`, module `ar_message_tests`.
#![tactic(auto)]

mod address;
mod confirming;
mod fault;
mod fields;
mod filling;
mod kinds;
pub mod laws;
mod lists;
mod message;
mod reading;
mod sent;
mod signature;
mod steps;
mod take_lists;
mod unsigned;
mod view;
mod write_kinds;
mod writing;

pub use address::Address;
pub use fault::MessageFault;
pub use fields::BodyView;
pub use filling::fill;
pub use lists::{Changes, LogStatus, Statuses, Vote, Votes};
pub use message::{Body, Confirming, Message};
pub use reading::LONGEST;
pub use sent::{Outgoing, Sent};
pub use signature::Signature;
pub use steps::PathSteps;
pub use take_lists::MOST_CHANGES;
pub use unsigned::{Blank, Unsigned};
pub use view::ConfView;
pub use write_kinds::{endorse_ask_text, log_confirmed_text, submit_text};
