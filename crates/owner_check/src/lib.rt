//! What an authority asks before it endorses a certificate: whether the holder of a key is the owner of a
//! name.
//!
//! `OwnerCheck` is the interface; how the question is settled, by a challenge over the network or by a
//! person, is the check's own. `BookCheck` answers by a book of pairs in memory, and `FailingCheck` does
//! the same and fails on demand. `Boxed` holds a check whose type is known at run time alone.
//!
//! Contracts see of a check the answers that it gave, in order, a count of its faults, and, where it tells
//! them, its book and the numbers of the asks that fail.
//!
//! `specs/Answers.antt` says what a check answers that tells its book and its failing asks, and what is kept of
//! answers; `specs/Book.antt` has the book of pairs.
//!
//! Its tests: `base_tests`, module `owner_check_tests`, and `examples/play`.
#![tactic(auto)]

pub use answer::{CheckAnswer, Outcome};
pub use book_check::{BookCheck, empty_books};
pub use boxed::Boxed;
pub use check::OwnerCheck;
pub use failing_check::FailingCheck;
pub use fault::AskFault;
pub use pair::Pair;

mod answer;
mod book;
mod book_check;
mod boxed;
mod check;
mod failing_check;
mod fault;
mod pair;
