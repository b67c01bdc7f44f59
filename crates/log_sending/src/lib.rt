//! What the rows of a log share, below the rows: why a log refuses, the checks that several rows make, and what a step sends,
//! composed before the step is made.
//!
//! - The checks (`specs/Checks.antt`): an ordered list, of which the first that refuses is the answer (`LogRefusal`). Whose
//!   signatures stand in a message (`specs/Signers.antt`, `Signers`), how a list of changes is judged (`specs/Judged.antt`) and
//!   where it leads (`specs/Leading.antt`, `leads`), which root is reported most often (`specs/Reported.antt`), and whether a
//!   change is queued (`specs/Queued.antt`, `is_queued`).
//! - What is sent (`specs/Sending.antt`): messages with zero bytes where a signature of the log's own is due
//!   (`specs/Blanks.antt`). `DraftMessages` composes them, `Ready` has taken all memory for them, and is sealed behind the step or
//!   discarded. What a table has for a name (`specs/Showing.antt`, `body_in`).
//! - What follows where an epoch ends (`specs/Closings.antt`): what tells of it (`add_closing`), which fits into messages
//!   (`specs/Sendable.antt`), and what is kept of the queue (`close`).
//! - The walk over the queue (`specs/Walk.antt`, `walk`): what a log proposes.
//!
//! Its tests: `examples/play`.
#![tactic(auto)]

mod checks;
mod closing;
mod judging;
pub mod laws;
mod own_places;
mod queued;
mod refusal;
mod sending;
mod showing;
mod signers;
mod walking;

pub use checks::{
    book_refusal, enough, in_epoch, in_turn, leaf_left, leaves_left, not_stated, not_voted, turn_of,
};
pub use closing::{add_closing, close, keep_wanted};
pub use judging::leads;
pub use own_places::{KeptVote, own_votes, sent_votes};
pub use queued::is_queued;
pub use refusal::LogRefusal;
pub use sending::{DraftMessages, OwnPlace, Ready};
pub use showing::body_in;
pub use signers::{Signers, known};
pub use walking::{Walked, walk};
