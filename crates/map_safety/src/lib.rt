//! The theorem for a map of tables: whatever happens in other tables, what a client of the map accepts of a name is right if
//! the premises hold of this name's table alone.
//!
//! `specs/World.antt` has the tables of a map in the theorem's words, `specs/Example.antt` a map that meets the premises, and
//! `laws` the theorem. That each name has one table, and under one root one directory, are laws of `table_map`.
#![tactic(auto)]

pub mod laws;
