//! The program `arpki_party`: one log, authority or owner as a process, with its secret, its directory and its journal in files. It
//! takes a line of standard input after the other, and writes what the party sends for it; docs/FORMATS.md has the lines, and
//! docs/DEPLOY.md says how it is run.
//!
//! - `arpki_party key <log|authority|owner> <number> <secret>` writes the line `key <hex>` of the party in a directory.
//! - `arpki_party <log|authority|owner> <number> <directory> <secret> <journal>` is the party.
//! - `arpki_party --help`, or `-h`, says how it is called.
//!
//! Its status is 0 where its input ends, 2 for other words, 3 where it is not opened (`not opened: <why>`) or its journal failed
//! (`failed: <why>`), 4 where a read failed, 5 where a write did, and 6 where memory ran out. Standard error says what ended it,
//! where the status is not 0.
//!
//! What a party does from the opened file of its journal on is the contract of `go_on`, which cites `desk_run/specs/Opened.antt`. In
//! `specs/`, `Words` says what its words ask, `FirstKeys` what its directory has to say of keys, `Secrets` what its secret's file says,
//! `Marks` which mark its journal has, `Made` what a party is made of by the texts of these files, or why it is not, `Refused` why it
//! is not opened by its journal, and `Statuses` each status. `laws` says that a party's directory begins with its own first key.
//!
//! Its tests: `examples/party` and its stored run, and `tools/network`.
#![tactic(auto)]

mod asked;
mod files;
mod going_on;
mod laws;
mod not_opened;
mod opening;
mod running;
mod secret;
mod telling;

use ar_io::words;
use asked::read_words;
use running::run;
use std::process::ExitCode;
use telling::{tell_end, tell_usage};

/// The status for other words.
const USAGE: u8 = 2;

/// The status where memory ran out.
const OUT_OF_MEMORY: u8 = 6;

fn main(rt: HostRuntime) -> ExitCode {
    let Ok(words) = words(&rt) else {
        tell_end(&rt, "memory ran out");
        return ExitCode::from(OUT_OF_MEMORY);
    };
    let status = match read_words(&words) {
        Ok(asked) => run(&rt, &asked),
        Err(why) => {
            tell_usage(&rt, why);
            USAGE
        }
    };
    ExitCode::from(status)
}
