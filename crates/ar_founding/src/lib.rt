//! The first logs and authorities of a world: their first keys, and where each begins.
//!
//! `found` takes all memory of it, and `join_logs` and `join_authorities` make the parties of what it gives, without memory.
//!
//! `specs/FirstKeys.antt` has what the setup says, and the keys that are made of it; `Founding` logs and authorities that
//! have done nothing yet; and `Founded` each before it is there, and that it has the ring of its own key.
//!
//! Its tests: `examples/play`.
#![tactic(auto)]

mod directories;
mod first_keys;
mod founded;
mod joined;
mod setup;

pub use directories::Directories;
pub use first_keys::{FirstKeys, key_made, make_first_keys, make_key};
pub use founded::{Founded, found};
pub use joined::{join_authorities, join_logs};
pub use setup::Setup;
