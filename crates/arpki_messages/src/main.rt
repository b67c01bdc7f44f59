//! The program `arpki_messages`, beside `arpki`: it plays a script and writes the keys of its parties and the bytes of its
//! messages, of which `arpki play` prints digests. `tools/compose` makes inputs of `check`, `audit` and `follow` of them.
//!
//! What it answers is in the contract of `messages_main`: read `specs/Answers.antt` of the crate `run_messages` first.
#![tactic(auto)]

use ar_io::{StdSink, StdSource, words};
use owner_check::empty_books;
use run_messages::messages_main;
use std::process::ExitCode;

/// The status where there is no memory for the words and the checks.
const OUT_OF_MEMORY: u8 = 6;

/// The most authorities of a script.
const MOST_AUTHORITIES: usize = 16;

fn main(rt: HostRuntime) -> ExitCode {
    let (Ok(words), Ok(checks)) = (words(&rt), empty_books(rt.alloc(), MOST_AUTHORITIES)) else {
        return ExitCode::from(OUT_OF_MEMORY);
    };
    let mut source = StdSource::new(rt.stdin());
    let mut sink = StdSink::new(rt.stdout());
    ExitCode::from(messages_main(rt.alloc(), &words, &mut source, &mut sink, checks))
}
