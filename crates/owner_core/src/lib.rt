//! An owner of domains: drafts of certificates that authorities are asked to endorse, handovers,
//! objections and answers to challenges by the owner's key, and what it hands to the logs.
//!
//! `specs/State.antt` says what an owner keeps, `specs/Drafts.antt` what becomes of its drafts,
//! `specs/Signing.antt` what it signs, and `specs/Rows.antt` has the row of each call: the reply
//! with the owner behind it, or the first refusal of an ordered list of checks. The calls are these
//! rows.
//!
//! What a domain's operator may ask:
//!
//! - *Who signs what?* An authority signs its endorsement of a certificate's digest; the owner's
//!   key signs handovers and objections, each with a digest too, and answers to challenges, and
//!   nothing else. Neither a request nor what is handed to the logs is signed: a change is as good
//!   as the signatures that it carries.
//! - *What is lost with a message?* Nothing that cannot be had again. `begin` asks again and keeps
//!   the draft as it is, an authority that is asked again endorses again, an endorsement that comes
//!   twice is taken once, and `submit` may be called at any time and again. A handover or an
//!   objection that is asked for again is the same bytes, at the same leaf. An announcement of a key
//!   is not asked for: until it has come, from whoever has it, what the party signs by the new key
//!   is refused (`BadSignature` with 6), and then `begin` brings the endorsement again.
//! - *What happens with too few endorsements?* `submit` sends what there is; it is for the logs to
//!   refuse it. The draft stays, takes further endorsements, and can be submitted again. No draft
//!   is ever taken away.
//! - *What does a signature cost?* A leaf of the key for each certificate that is handed over, and
//!   one for each that is objected to. An answer to a challenge costs one too: `staple` takes it
//!   from the book, which remembers the answer, and `sign_drawn` from those behind the book
//!   (`Owner::with_book`). An owner's key does not roll: once its leaves are spent, it signs nothing
//!   new.
//!
//! Its tests: `examples/play`.
#![tactic(auto)]

mod draft;
mod drafts;
mod endorsing;
pub mod laws;
mod letters;
mod owner;
mod refusal;
mod signing;
mod step;
mod submitting;

pub use owner::Owner;
pub use refusal::OwnerRefusal;
