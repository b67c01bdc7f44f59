//! Many tables behind one root: which table has a name, which directory has the table, and what a client does with a
//! confirmation under a map of all of them.
//!
//! A map of 2 ^ bits tables is the root of an integrity tree over the digests of their directories. A client ships the root
//! and the number of bits, whatever the number of names; whoever shows it a confirmation shows the directory too, with the
//! path that leads from it to the root, and need not be trusted.
//!
//! `specs/Tables.antt` says which table a name has, `specs/Digests.antt` what the digest of a directory is of, and
//! `specs/Maps.antt` when a directory is that of a table. `specs/Shown.antt` says how a directory is shown, `specs/Judging.antt`
//! what a client does, `specs/Recalling.antt` which learnt keys it takes, and `laws` says that under
//! one root a name has one directory.
//!
//! Its tests: `examples/map`.
#![tactic(auto)]

mod digest;
mod fault;
mod judging;
pub mod laws;
mod map;
mod recalling;
mod shown;
mod tables;

pub use digest::directory_digest;
pub use fault::ShownFault;
pub use judging::{MapJudgement, judge_in};
pub use map::TableMap;
pub use recalling::{Lesson, recall};
pub use shown::ShownDirectory;
pub use tables::{MOST_BITS, table_key, table_of};
