//! Where bytes come from and where they go: the traits `Source` and `Sink`, with a count of faults
//! each, so that no answer of a layer above can blame a fault that did not happen.
//!
//! `read_all` and `write_all` are generic over every source and sink. `MemSource` and `MemSink` are
//! lists in memory whose calls give little and fail on demand, `QuietSource` and `QuietSink` never
//! fail, and `StdSource` and `StdSink` stand over std's readers and writers. `words` gives the words of a program's
//! command line.
//!
//! `specs/Calls.antt` says which calls of an object in memory fail, `specs/ReadAll.antt` what was taken from a
//! source that could not be read to its end, and `specs/Wrote.antt` what a call did to what a sink wrote.
//! `specs/MemSource.antt`, `specs/MemSink.antt`, `specs/QuietSink.antt` and `specs/StdEdge.antt` say what
//! contracts see of each kind.
//!
//! Its tests: `base_tests`, module `ar_io_tests`.
#![tactic(auto)]

pub use command_line::words;
pub use faults::{Failed, ReadFault};
pub use mem_sink::MemSink;
pub use mem_source::MemSource;
pub use quiet_sink::QuietSink;
pub use quiet_source::QuietSource;
pub use reading::read_all;
pub use sink::Sink;
pub use source::Source;
pub use std_sink::StdSink;
pub use std_source::StdSource;
pub use writing::write_all;

mod calls;
mod command_line;
mod faults;
pub mod laws;
mod mem_sink;
mod mem_source;
mod quiet_sink;
mod quiet_source;
mod reading;
mod sink;
mod source;
mod std_sink;
mod std_source;
mod unread;
mod writing;
