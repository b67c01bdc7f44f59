//! A log that restarts: it has each input that it took in a journal before its reply leaves.
//!
//! `KeptLog` is a log (`log_core`) with a journal (`kept_journal`) on a disk (`kept_disk`). An input's text is 1 and the message,
//! 2 (propose), 3 (pass), or 4 and the key of 56 bytes (roll); `specs/Inputs.antt`. A log that is opened again is what the inputs
//! in its file make of a new one (`specs/Steps.antt`), with the keys that it makes again from its first.
//!
//! After a crash at any moment the file has the inputs that were answered, in order, with at most the one more that was not
//! (`specs/Lives.antt` says what that means over many runs).
//!
//! Its tests: `examples/journal`, `tools/damage-journals`, `tools/fail-each-call`, `examples/restart` and `tools/crash`.
#![tactic(auto)]

pub use input::{Said, input_told, read_text, record_of_input};
pub use kept_disk::{Disk, MemDisk};
pub use kept_journal::OpenFault;
pub use kept_log::KeptLog;
pub use refusal::KeptRefusal;

pub mod again;
mod input;
mod kept_log;
pub mod laws;
mod refusal;
mod replaying;
