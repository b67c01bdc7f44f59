//! Several workers bring errands to several cores, each from a thread of its own.
//!
//! `crowd` makes a node of each core, with what finishes the replies of the core outside of the node's lock, and a base row of
//! stalls: a stall is a seat of a node with what was told there. It deals a row to each worker, whose shares are split off
//! those of the base; each worker brings its errands in their order; the rows are joined into the base again, which has
//! gathered what each of them served; and the nodes are closed. The share at a node is a function of the node's place: what is
//! left in the base and what all rows have there are together what the base had.
//!
//! `specs/Bringing.antt` says which errands are a worker's, `specs/Stalls.antt` what one stall did, `specs/Working.antt` what a
//! row and what all rows did, and what is taken of a node that is closed.
//!
//! Its tests: `examples/crowd`, `arpki_crowd`, and `tools/crowd-orders`.
#![tactic(auto)]

mod booth;
mod bringing;
mod closing;
mod crowds;
mod dealing;
mod desk;
mod errand;
mod finish;
mod gate;
mod gathering;
mod joining;
mod laying;
mod opening;
mod row;
mod serving;
mod sharing;
mod stall;
mod working;

pub use crowds::crowd;
pub use desk::{Desk, Taken};
pub use errand::Errand;
pub use finish::Finish;
pub use gate::{Gate, OpenGate};
