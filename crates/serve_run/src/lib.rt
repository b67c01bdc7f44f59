//! `serve`: one key answers challenges from several threads, without a lock.
//!
//! The input names a master secret, a name, the digest of a certificate and up to 64 challenges. Each worker is a thread with a
//! seat of one `Server` (crate `possession`): the challenge of number i goes to worker i modulo the number of workers. The output
//! is the public key, and for each challenge the leaf that signed the answer, with the digest of the signature, or that no leaf
//! was left. Which leaf a challenge gets is open; that each leaf signs once is proved.
//!
//! It is a demonstration of `Server`: the key is made from the secret of the input and draws from leaf 0 on, so a secret is for
//! one run. Two runs with one secret sign by each leaf twice, and then anybody can forge with that key. A server of a real domain
//! makes one `Server` for each start of its process, with a new key, to which `Server::handover` hands the name over.
//!
//! The call is `serve`. The gate of `node_crowd` is passed before each answer.
//!
//! In `specs/`, `Reading` says what is asked, `Serving` what is replied, `Workers` what a worker does, and `Answers` what the
//! command writes, and with which status.
//!
//! Its tests: `arpki_crowd`, module `serve_run_tests`, `examples/serve`, and `tools/crowd-orders`.
#![tactic(auto)]

pub use program::serve;

mod printing;
mod program;
mod reading;
mod reply;
mod serving;
mod weaving;
mod worker;
