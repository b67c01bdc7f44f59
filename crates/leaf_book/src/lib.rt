//! Leaves of one key for many threads, without a lock.
//!
//! A book has one word, the number of the next leaf, which only rises. A thread steps with a seat: it
//! looks at the word, and takes a leaf by one atomic addition. What a seat drew is in its view, which
//! its own steps alone change, and at every moment each leaf below the word stands once in the views
//! of all seats (`specs/Rule.antt`). So no leaf is given to two seats, or twice to one.
//!
//! A seat can be split for another thread, and joined again. A seat that has the whole share is the
//! only one: with it the book is closed, and its leaves are counted.
//!
//! Its tests: `examples/serve`, and `tools/crowd-orders`.
#![tactic(auto)]

pub use ar_seats::SplitFault;
pub use book::LeafBook;
pub use fault::Exhausted;
pub use leaf::{Leaf, sign_leaf};
pub use seat::LeafSeat;

mod book;
mod fault;
mod held;
pub mod laws;
mod leaf;
mod seat;
mod steps;
