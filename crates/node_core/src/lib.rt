//! What answers one input at a time, and what it makes of a history of calls.
//!
//! A core is plain data with a step. What a step replies, and where it leaves the core, is a function of
//! where the core stands, of the input, and of a note: what the history has to keep of the step beside
//! its input, as what somebody answered who was asked in it. So a history of inputs with their notes
//! tells where a core stands and what it replied, whoever runs it: threads that share it under a lock, a
//! disk from which it is opened again, or a world in which it is one of many.
//!
//! `specs/History.antt` says what a core makes of a history, and which histories are legal.
//!
//! Its tests: those of the crates above it.
#![tactic(auto)]

pub use core_trait::Core;

mod core_trait;
pub mod laws;
