//! Authorities: what one remembers, what makes that honest, and what it makes of each message. `AuthorityState` steps by
//! the rows; `AuthorityCore` is that with the check that it asks, and takes messages from bytes. Neither has keys:
//! `Authority` is the core with its keys, and signs what it sends.
//!
//! `specs/Record.antt` says what an authority remembers, `specs/Honest.antt` what makes it an honest authority's, and
//! `specs/Calls.antt` what each thing that it does makes of it. `specs/Row.antt` has the row of each message, with zero
//! bytes where a signature is due: `EndorseRow`, `ConfirmRows` over `Confirming`, and `RollRows`. `specs/Keyed.antt` has
//! the answers with the signatures in, and which keys are the authority's.
//! `specs/State.antt` says where an authority stands and what is true of that, and `specs/Refusals.antt` what
//! it refuses where a call below does. `specs/Verifying.antt` says which votes it verified last, under the keys that it knows.
//!
//! Its tests: `examples/play`, and `arpki`, module `failing_checks`.
#![tactic(auto)]

mod authority;
mod confirming;
mod entries;
mod keyless;
pub mod laws;
mod lists;
mod record;
mod refusal;
mod reply;
mod state;
mod stepping;
mod verifying;

pub use authority::{Authority, answer, new_authority};
pub use entries::{Approved, Kept};
pub use keyless::AuthorityCore;
pub use record::AuthorityRecord;
pub use refusal::AuthorityRefusal;
pub use state::AuthorityState;
