//! A party that is a process: lines come from a source, and the answer to each is written to a sink before the next is read.
//!
//! What a line asks the party does, its journal has that (`kept_party`), and then the answer is written, as one piece
//! (the contract of a sink speaks of bytes, not of calls). So whatever leaves stands in the journal, and where a run
//! stops, one answer at most of what stands there did not leave. At first `answer_all` writes what the last text of
//! the journal sends, since a process that was killed may not have written it. `open_and_answer` opens the party by
//! its journal before, so its contract speaks of the file as the process found it.
//!
//! `specs/Lines.antt` says what the whole lines of an input are, and `specs/Reading.antt` what a reader of lines holds;
//! `specs/Answers.antt` what is written of each line, what the journal has more then, and where the party stands; `specs/Runs.antt`
//! and `specs/Stops.antt` what a run came to, where the lines end and where it stops before; `specs/Crashes.antt` what a crash at any
//! moment leaves of the journal's file; `specs/Opened.antt` the same of a run that begins with the file of a journal.
//!
//! Its tests: `examples/party` and the stored run of `arpki_party`, and `tools/network`.
#![tactic(auto)]

pub use opening::open_and_answer;
pub use serving::answer_all;
pub use stop::Stop;

pub mod laws;
mod line_reader;
mod opening;
mod serving;
mod stop;
