//! The book of a key: which leaf signs which statement, so that no leaf signs two.
//!
//! `specs/Book.antt` says what a book is, `specs/Entry.antt` which leaf it gives to a statement, and
//! `laws` that no leaf serves two statements.
//!
//! ```rust
//! let due = book.enter(alloc, &Statement::Handover { certificate })?;
//! sign(&key, due, &mut signature);
//! ```
//!
//! The caller `hand_over` of the crate `worked_examples` has the contract that goes with it.
//!
//! A book may have the first leaves of a key alone. Of those behind them, once some were reserved, a `LeafRun` draws one after
//! the other, each once (`specs/Run.antt`): so a key can sign what no book remembers.
//!
//! Its tests: `worked_examples`, `crate_docs`.
#![tactic(auto)]

pub use ar_statement::BookFault;
pub use book::SignBook;
pub use due::{Due, sign};
pub use run::{DrawnLeaf, LeafRun, forgo_drawn, sign_drawn};

mod book;
mod due;
pub mod laws;
mod places;
mod run;
