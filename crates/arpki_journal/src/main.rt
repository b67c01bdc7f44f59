//! The program `arpki_journal FILE`: a log whose journal is this file. It takes an input of each line of standard input, and
//! answers each by a line once the file has it. `tools/crash` kills it and starts it again, and measures it.
//!
//! The log is log 1 of three under the secret of 32 zero bytes, with the types 5 and 3, in a directory in which each party has its
//! key. A line is `propose`, `pass`, `roll`, or `take` and a message in hex. What it writes is
//!
//! - `opened <inputs> <seen> <signed>` at first: how many inputs the file has, and how many statements the log saw and signed,
//!   or `not opened: <why>`, with the status 3;
//! - `taken <inputs>` for a line whose input the file has now;
//! - `refused: <why>` for one that the log refuses, or `no input` for one that says none;
//! - `failed: <why>` where the file failed, with the status 3.
//!
//! Its status is 0 where its input ends, 2 with `usage: arpki_journal <file>` for other words, 4 where a read or a write failed,
//! and 6 where memory ran out.
#![tactic(auto)]

mod asked;
mod kept;
mod serving;

use ar_io::words;
use serving::serve;
use std::process::ExitCode;

/// The status for other words than a file.
const USAGE: u8 = 2;

/// The status where memory ran out.
const OUT_OF_MEMORY: u8 = 6;

fn main(rt: HostRuntime) -> ExitCode {
    let Ok(words) = words(&rt) else {
        return ExitCode::from(OUT_OF_MEMORY);
    };
    let status = match words.as_slice() {
        [path] => serve(&rt, path.as_str()),
        _ => {
            let _ = rt.println("usage: arpki_journal <file>");
            USAGE
        }
    };
    ExitCode::from(status)
}
