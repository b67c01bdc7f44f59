//! Epochs: what a log remembers, and what each thing that it may do makes of that. `EpochLog` keeps a log by them.
//!
//! `specs/Record.antt` has the record of a log as plain data, and the table in which each epoch begins. `specs/Honest.antt`
//! has the nine clauses that make a record an honest log's, each a definition over the fields that it speaks of, by what
//! `specs/Told.antt` and `specs/Right.antt` say of single entries. `specs/State.antt` says where a log stands and what is
//! kept of that, `specs/Ending.antt` how an epoch ends, and `specs/Calls.antt` what each call makes of where a log stands,
//! and when it may be made; `specs/Log.antt` says what a log in the program holds and keeps of that, and `specs/Answers.antt`
//! what a call answers beside that, `specs/Taking.antt` what becomes of what a log holds where it signs a statement of its own
//! and where it counts a ballot or a status, `specs/Telling.antt` where another log tells how an epoch ended,
//! `specs/Plans.antt` what is planned before an epoch ends with what is counted, and `specs/Foreseeing.antt` what is told of
//! that before a step. `laws` says that each call keeps what is kept.
//!
//! Its tests: `examples/play`.
#![tactic(auto)]

mod balloting;
mod closing;
mod confirming;
mod copying;
mod counting;
mod deciding;
mod ending;
mod entries;
mod finishing;
mod foreseeing;
mod keys;
pub mod laws;
mod log;
mod own_status;
mod parts;
mod past;
mod proposing;
mod seeing;
mod signing;
mod skipping;
mod statements;
mod stating;
mod voting;

pub use confirming::{confirm_statement, newest_digest};
pub use entries::{Closing, Confirmed, Ended, How, Newest, Stated, Voted};
pub use finishing::own_vote;
pub use foreseeing::Foreseen;
pub use log::EpochLog;
pub use past::Record;
