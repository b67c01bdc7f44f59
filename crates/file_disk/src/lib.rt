//! A file of the operating system as a `Disk`: `FileDisk`.
//!
//! Beside the file stands a disk in memory that mirrors it. A call asks the file first and then the mirror, and what contracts
//! see of a file is what they see of its mirror: the bytes that a read gives, what the last sync kept, and what a crash may
//! leave. `len` compares the file's length with the mirror's, and `read` the bytes that the file gives; a difference is a failure.
//! After its first failure every call fails, since a device that failed a sync once may not be trusted to have written what a
//! later sync reports. A disk that failed is dropped, and its file opened anew, once the system has dropped what it kept of the
//! file in memory (as by mounting the device anew): until then it may give what the device does not hold.
//!
//! No proof shows, and a user has to trust:
//!
//! - that a write and a cut change the file as they change the mirror;
//! - that they leave the bytes outside of their range as they were, within the same sector too: a journal writes the one byte of a
//!   gate into a sector that it shares with records, so a device that loses a whole sector while it writes it loses these;
//! - that a sync which succeeds has reached the device, with the length of the file;
//! - that what is read at opening is what the device holds, also where a sync of an earlier process failed;
//! - that nobody else writes the file, against which an exclusive lock (`flock`) guards where others ask for it too.
//!
//! A disk has no checksums. Bytes that changed while no process had the file open are what it is opened with; whoever keeps
//! something in it has to see that.
//!
//! The mirror holds the whole file in memory, and what each write stood over since the file was opened.
//!
//! Its tests: `disk_tests`, module `file_disk_tests`, and `tools/crash`.
#![tactic(auto)]

pub use disk::FileDisk;
pub use fault::FileFault;

mod disk;
mod fault;
mod opening;
