//! How the libraries are called: in `callers` by functions with contracts, and in `crate_docs` by the examples of crate docs. A test, which
//! needs several crates side by side, fills a table; what it gives is compared with another program's answers.
//! There are no definitions here: the contracts cite those of the crates that are called.
#![tactic(auto)]

pub mod callers;
pub mod crate_docs;
#[cfg(test)]
mod domain_table_tests;
