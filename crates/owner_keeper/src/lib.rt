//! An owner that is kept: an owner of domains (`owner_core`) with the certificates that it knows, as a `Keeper` (`kept_party`).
//!
//! Drafts have numbers here, from 1: those of the certificates that it began, and of those that it was told of, in order. What its
//! journal has of it is what it was asked and did not refuse (`specs/Texts.antt`); the order to submit a draft changes nothing,
//! and has no text. `specs/Keeping.antt` has the row of each order: the reply with the owner behind it, or why it is refused.
//! Each leaf of an owner's key signs once, and which statement a leaf signed stands in the journal before the signature leaves.
//!
//! An owner staples: it signs, once for all visitors, that it has the key of its certificate, for an epoch and a TLS key
//! (`specs/Stapling.antt`). It does so only where its operator allowed the TLS key and where its own client's rule (`client_rule`) accepts
//! a confirmation of that epoch, by which the certificate is the newest of its name; never for an epoch before the newest that it
//! stapled; and it leaves leaves to handovers and objections. `specs/Reasons.antt` says why a staple was signed, and what each owner keeps.
//!
//! `specs/Lasting.antt` says that an owner signs on, and `specs/Determined.antt` that there is one thing that it
//! replies to a text, and one that it becomes.
//!
//! Its tests: `examples/party`, by the program `arpki_party`, and `tools/network`.
#![tactic(auto)]

pub use keeper::OwnerKeeper;
pub use kept_staple::KeptStaple;
pub use order::OwnerOrder;
pub use permit::Permit;
pub use refusal::OwnerOrderRefusal;
pub use reply::OwnerReply;
pub use text::MOST_HANDOVER;

mod keeper;
mod kept_staple;
mod knowing;
pub mod laws;
mod order;
mod permit;
mod reading;
mod refusal;
mod reply;
mod stapler;
mod text;
