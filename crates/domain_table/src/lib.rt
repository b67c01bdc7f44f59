//! The table of a log: for each name the chain of its changes and at most one change that waits, and one
//! root for all.
//!
//! `specs/Tables.antt` says what a table is, `specs/Applying.antt` what ripens in an epoch, how a change is
//! judged and what a list of changes makes of a table, `specs/Tree.antt` which entries of the integrity tree
//! and which root a table has, `specs/Sound.antt` what a table keeps that comes from the one without names, and
//! `specs/Waiting.antt` what it is that a recovery waited in the tables of epochs.
//!
//! A `Table` keeps a row for each name, in a map that finds it by hash and in which none moves, and the tree of their
//! entries: `specs/Rows.antt` says which table rows are, and what the tree has of them. A row is found and a change
//! judged among them (`rows`); a row comes in (`new_row`) or changes (`change_row`), and the tree follows (`tree`),
//! which knows how many entries it has at least (`counted_trie`); `take` does so by the manner in which a change is
//! judged; `ripe_rows` appends what is ripe; `listed` has rows in the order of their names, where two entries may have
//! one key, and `listing` the entries by their keys; `row_copy` copies rows, and changes for the crates above.
//!
//! Its tests: `worked_examples`, module `domain_table_tests`, and `examples/play`.
#![tactic(auto)]

pub use fault::ApplyFault;
pub use refusal::ChangeRefusal;
pub use row_copy::copy_changes;
pub use table::Table;

mod change_row;
mod counted_trie;
mod counts;
mod fault;
pub mod laws;
mod listed;
mod listing;
mod new_row;
mod refusal;
mod ripe_rows;
mod row;
mod row_copy;
mod rows;
mod table;
mod take;
mod tree;
