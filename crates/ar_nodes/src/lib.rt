//! The parties of a world and its pool of messages, each with its steps, without the world.
//!
//! A call takes one party, or all of a role with the number of one, and the pool: the party does what it is asked, what it
//! sends enters the pool, and what happens is told. All memory of a call is taken before its first change. Where a party has
//! replied to a message of the pool already, `settling` makes the pool what it is then.
//!
//! `specs/Parties.antt` and `Pool` have the parties and the pool as plain data, and `Finding` what a word of a line names
//! among them. `Acting` says what a party makes of an input, what its reply makes of the pool, and what is printed of it;
//! `Authorities` what an authority answers by what its check says, `Teaching` what a check learns of `Owners`, `Codes` the
//! codes of refusals, and `Sending` what is printed beside them. `Composing` and `Forging` have the bytes that a script
//! composes, and what dishonest parties sign.
//!
//! Its tests: `examples/play`, and `arpki`, module `failing_checks`.
#![tactic(auto)]

mod authorities;
pub mod codes;
mod composing;
mod event;
mod fault;
pub mod finding;
pub mod forging;
mod kinds;
mod lesson;
mod logs;
pub mod obeying;
mod owners;
mod parties;
mod pool;
mod replying;
pub mod sending;
pub mod settling;
pub mod submitting;
pub mod taking;
pub mod teaching;

pub use authority_core::{Authority, AuthorityCore, AuthorityState};
pub use composing::composed;
pub use event::LogEvent;
pub use fault::WorldFault;
pub use lesson::Lesson;
pub use log_core::{Log, LogCore, LogInput};
pub use parties::{Forger, HonestAuthority, HonestLog};
pub use pool::{MOST_MESSAGES, Pool, Pooled, numbered};
pub use replying::Reply;
