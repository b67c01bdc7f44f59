//! The program `arpki`: its words, its standard input and its standard output, and a check of owners for each authority, handed
//! to `arpki_main`, and its exit status.
//!
//! What it answers is in the contract of `arpki_main`: read `specs/Program.antt` of the crate `arpki_play`
//! first. Stored examples show the rest; the module beside this file tests what they cannot, a check of owners that fails.
#![tactic(auto)]

#[cfg(test)]
mod failing_checks;

use ar_io::{StdSink, StdSource, words};
use arpki_play::arpki_main;
use log_restart::Disks;
use owner_check::empty_books;
use std::process::ExitCode;

/// The status where there is no memory for the words and the checks.
const OUT_OF_MEMORY: u8 = 6;

/// The most authorities of a script.
const MOST_AUTHORITIES: usize = 16;

fn main(rt: HostRuntime) -> ExitCode {
    let (Ok(words), Ok(checks)) = (words(&rt), empty_books(rt.alloc(), MOST_AUTHORITIES)) else {
        return ExitCode::from(OUT_OF_MEMORY);
    };
    let mut source = StdSource::new(rt.stdin());
    let mut sink = StdSink::new(rt.stdout());
    let mut disks = Disks::empty(rt.alloc());
    let status = arpki_main(
        rt.alloc(),
        &words,
        &mut source,
        &mut sink,
        checks,
        &mut disks,
    );
    ExitCode::from(status)
}
