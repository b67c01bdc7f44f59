//! A file that outlives its process: the trait `Disk`, whose contracts say what a crash at each moment may leave of it, and a
//! disk in memory, `MemDisk`, which fails on demand and shows what a crash leaves.
//!
//! `specs/Disk.antt` says what a write and a cut do, and what a crash makes of them, `specs/Moments.antt` what it is that a
//! crash at any moment leaves only such files, and `specs/Fuel.antt` how much a disk still does where it tells that.
//! `specs/Memory.antt` says what contracts see of a disk in memory.
//!
//! Its tests: `disk_tests`, module `kept_disk_tests`, and `examples/restart`.
#![tactic(auto)]

pub use ar_io::Failed;
pub use disk::Disk;
pub use mem_disk::MemDisk;

mod disk;
mod mem_disk;
mod past;
