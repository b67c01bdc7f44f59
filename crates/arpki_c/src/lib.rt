//! The client's rule for programs in C, and in other languages that call C: a static library, whose header is
//! `c-library/include/arpki.h`.
//!
//! What a client knows is plain data of the caller's: keys (`Keys`), and of each name that it pins the bytes of a pin. Each
//! call makes of them what the libraries below work with, answers, and keeps nothing: there is no handle and no state, so
//! threads share what they only read. An answer (`CallAnswer`, `Followed`, `CallLesson`) is written whole, whatever it is, and the
//! number that a call returns stands in it too.
//!
//! In `specs/`, `Given` says which directory a caller's keys make, `Stored` which book the bytes of a pin make, `Told` what
//! is told of a confirmation and of a server, `Following` what to who pins names, `Mapped` what to who goes by a map,
//! `Learning` what of a RollNote, and
//! `Verifying` which number a signature has. `laws` says that the entries which were written make the directory that
//! learnt.
//!
//! Its tests: its own, through its exports, and `tools/c-library`.
#![tactic(auto)]

mod answers;
mod followed;
mod following;
mod judging;
mod keys;
pub mod laws;
mod learning;
mod mapping;
mod pins;
mod questions;
mod signatures;
#[cfg(test)]
mod tests;

pub use answers::CallAnswer;
pub use followed::Followed;
pub use following::arpki_follow;
pub use judging::{arpki_connect, arpki_judge, arpki_staple};
pub use keys::{Entry, Keys};
pub use learning::{CallLesson, arpki_learn};
pub use mapping::{CallMap, MapEntry, arpki_directory, arpki_judge_in};
pub use questions::CallQuestion;
pub use signatures::{arpki_abi, arpki_verify};
