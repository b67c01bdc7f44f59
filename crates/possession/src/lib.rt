//! That a server has the key of its certificate: it answers a challenge by a signature, and the client judges it.
//!
//! A `Server` answers from any number of threads with one key, each leaf of which signs once (`leaf_book`). A
//! client takes a confirmation, a challenge and an answer to it, and judges them by `connect`: the connection is
//! open exactly where its rule accepts a certificate and the answer is valid under that certificate's own key. No key is to sign 32
//! bytes that a stranger chose: who calls `Server::answer` makes the challenge (`bound_challenge`). A staple is an answer that is made
//! once for an epoch and a TLS key, and `connect_stapled` judges it.
//!
//! In `specs/`, `Answering` says what a server signs, and `Connections` what a client makes of it.
//!
//! Its tests: `arpki_crowd`, module `possession_tests`, and `examples/serve`.
#![tactic(auto)]

pub use connection::{Connection, connect, connect_stapled};
pub use leaf_book::{Exhausted, LeafSeat, SplitFault};
pub use server::Server;

mod connection;
pub mod laws;
mod server;
