//! Tests of a file that outlives its process: of a file of the operating system as a disk, of the disk in memory beside it, and of a
//! journal that tells damage. There is nothing to call. What logs and parties make of their files, stored examples show (`journal`,
//! `party` and `restart`), and tools.
#![tactic(auto)]

#[cfg(test)]
mod calls;
#[cfg(test)]
mod chained_journal_tests;
#[cfg(test)]
mod file_disk_tests;
#[cfg(test)]
mod files;
#[cfg(test)]
mod kept_disk_tests;
