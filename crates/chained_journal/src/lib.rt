//! The journal of a party that restarts, which tells damage: what it took, in order, in a file that outlives its process, with a
//! digest that is chained over the texts.
//!
//! A journal is a header of 40 bytes, its mark and 32 bytes that tell whose it is, and then a gate of 8 bytes: eight times 255 is
//! open, eight zeros are shut. Behind an open gate stand a record and the next gate. A record is the length of its text in four
//! bytes, the complement of that in four, the text, zeros up to a multiple of 8, and the chain, which is the digest of the chain
//! before it and the text. The records up to the shut gate count (`specs/Journal.antt`); what stands behind that gate counts for
//! nothing. Each gate begins at a multiple of 8, so it lies in one sector of a disk.
//!
//! `Journal::append` puts a record behind the shut gate, makes it last, and then opens the gate and makes that last. A crash at
//! any moment leaves the texts from before, with the new one or without, or the one torn end: a gate that is neither open nor
//! shut, with a whole record behind it. `Journal::open` refuses that by a name of its own, and `mend` opens such a gate; a disk
//! whose sectors are as they were or as they were to be never leaves one (`laws`). `Journal::begin` alone begins a journal.
//!
//! `specs/Refusals.antt` says what a file is that is refused, and `laws` that no byte of a journal can be changed unseen.
//!
//! No party keeps such a journal yet: those that there are stand in files of `kept_journal`.
//!
//! Its tests: `disk_tests`, module `chained_journal_tests`.
#![tactic(auto)]

pub use fault::{BeginFault, OpenFault};
pub use journal::Journal;
pub use kept_journal::ReplayFault;
pub use mending::mend;
pub use record::KeptText;
pub use replay::Replay;
pub use title::{Title, Witness};

mod beginning;
mod chain;
mod fault;
mod gate;
mod journal;
pub mod laws;
mod mending;
mod opening;
mod reading;
mod record;
mod replay;
mod standing;
mod title;
mod writing;
