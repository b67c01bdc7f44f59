//! Orders in which a node takes what several workers bring, and what their seats have done.
//!
//! Things are dealt to workers one after another: the thing of number j goes to worker j modulo the number of workers, and to one of
//! several nodes (`specs/Dealing.antt`). Each worker brings its own in their order, and a node takes what comes in some order, which is
//! an interleaving of the workers' lists (`specs/Orders.antt`). `specs/Carrying.antt` says what a seat did so far, in a form that each
//! call and each join of two seats keeps: so the seat that all others were joined into has the order, and all replies.
//!
//! There is nothing to call: the laws say what the words mean.
//!
//! It has laws alone, and no tests.
#![tactic(auto)]

pub mod laws;
