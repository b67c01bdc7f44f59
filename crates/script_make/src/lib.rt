//! The maker of scripts: for a number of domains, a script that registers them, updates every fourth,
//! and asks for each of them and for some names that are not there.
//!
//! `specs/Script.antt` says what the script is.
//!
//! Its tests: `examples/make`.
#![tactic(auto)]

pub use making::{last_script_epoch, make};

mod making;
mod rows;
