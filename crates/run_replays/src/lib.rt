//! An honest log of a run is what its inputs make of a new log: so a run's log can be made again by them, as of a journal.
//!
//! `specs/Inputs.antt` has what a log was asked, by what it did (`World::taken`) and the pool's messages (`World::message`);
//! `specs/Replayed.antt` that it is what these make of the log where the run began, with the directory of the first keys
//! (`World::genesis`) and its own first key, which `make_key` of `ar_founding` makes by `World::setup`. `laws` has that this is
//! so of each run, in the words of `log_journal`: a `KeptLog` that is stepped through the inputs refuses none of them, and its
//! record is the log's in the end. `run_restart` steps one so; to it `specs/Lib.antt` passes on the definitions of `run_safety`
//! and `log_journal`.
//!
//! It has laws alone, and no tests.
#![tactic(auto)]

pub mod laws;
