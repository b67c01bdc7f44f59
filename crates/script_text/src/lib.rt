//! The lines of a script, which moves a world of parties: one line for each thing that they are to do.
//!
//! `specs/Rows.antt` is the table of all lines, `Grammar` says how the words of a line are read by a row of it,
//! and `Forms` what a word of each form means. What the numbers in a line name is for the world to find.
//!
//! Its tests: `examples/lines.txt` and `examples/play`.
#![tactic(auto)]

pub use ar_lines::Reason;
pub use forms::{party_count_of, quorum_of};
pub use line::{EventLine, Line, PolicyWords, SetupLine};
pub use numbers::NumberList;
pub use pieces::{Pieces, slice_of};

mod binding;
mod forms;
mod keyword;
pub mod laws;
mod line;
mod lists;
mod numbers;
mod pieces;
mod reading;
mod rows;
mod words;
