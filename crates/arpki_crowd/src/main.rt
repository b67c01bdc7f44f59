//! The program `arpki_crowd`: its words, its standard input and its standard output, the empty checks of as many authorities as there
//! may be, and a gate that is always open, handed to `crowd_main`, and its exit status. It may start threads, and wait for locks.
//!
//! What it answers is in the contract of `crowd_main`: read `specs/Program.antt` of the crate `crowd_run` first.
//! The modules beside this file test that its workers work side by side, and the calls of a server and its client (`possession`).
#![tactic(auto)]

#[cfg(test)]
mod crowd_run_tests;
#[cfg(test)]
mod meeting;
#[cfg(test)]
mod possession_tests;
#[cfg(test)]
mod serve_run_tests;

use ar_io::{StdSink, StdSource, words};
use crowd_run::{OpenGate, crowd_main};
use owner_check::empty_books;
use std::process::ExitCode;

/// The status where there is no memory for the words and the checks.
const OUT_OF_MEMORY: u8 = 6;

/// The most authorities of a script.
const MOST_AUTHORITIES: usize = 16;

fn main(rt: HostRuntime) -> ExitCode {
    let (Ok(words), Ok(checks)) = (words(&rt), empty_books(rt.alloc(), MOST_AUTHORITIES)) else {
        return ExitCode::from(OUT_OF_MEMORY);
    };
    let mut source = StdSource::new(rt.stdin());
    let mut sink = StdSink::new(rt.stdout());
    let status = crowd_main(
        &rt,
        rt.alloc(),
        &words,
        &mut source,
        &mut sink,
        checks,
        &OpenGate,
    );
    ExitCode::from(status)
}
