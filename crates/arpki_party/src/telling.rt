//! What the program tells people: how it is called, and on standard error why it ends.

use crate::asked::NotAsked;

/// How it is called.
const USAGE: [&str; 3] = [
    "usage: arpki_party <role> <number> <directory> <secret> <journal>",
    "       arpki_party key <role> <number> <secret>",
    "       arpki_party --help",
];

/// What its words are, and what it does.
const HELP: [&str; 22] = [
    "",
    "One party of the PKI, as a process: it answers lines of standard input by lines of standard output.",
    "The second form writes the line of the party's first key in a directory.",
    "",
    "  role       log, authority or owner",
    "  number     the party's number in the directory, from 0 (an owner's is below 65,536, and no other owner's)",
    "  directory  a file of the lines logs, key, authorities, key, as arpki check reads them",
    "  secret     a file of the line 'secret <64 hex>' and, for keys of other types than 5 3, 'keys <lms> <ots>';",
    "             nobody but the party's user may read it",
    "  journal    a file in which the party keeps what it has done; it is made at the first start,",
    "             belongs to this party and directory alone, and must never be put back to an older state",
    "",
    "A line is a message in hex, or an order: propose L0, pass L0, roll L0 of log 0; roll A0,",
    "teach A0 <name> <key>, forget A0 <name> <key>, retire A0 of authority 0; register D0 ..,",
    "update D0 .., revoke D0 .., handover D0 <draft>, object D0 <draft>, submit <draft>,",
    "draft <hex>, attach <draft> <hex>, allow <draft> <tls key>, disallow <draft> <tls key>,",
    "staple <draft> <tls key> <confirmation>, leaves D0 of owner 0. It may be killed at any time, and",
    "goes on at the next start. docs/FORMATS.md has each line, and docs/DEPLOY.md says how a party is run.",
    "",
    "The status is 0 where the input ended; 2 for other words; 3 where the party could not be",
    "opened, or its journal failed; 4 where a read failed, 5 where a write did, and 6 where",
    "memory ran out. Standard error says why, and with 3 the last line of the output too.",
];

/// Writes how the program is called, and what it does; whether that was written.
pub(crate) fn tell_help(rt: &HostRuntime) -> bool {
    for line in USAGE {
        if rt.println(line).is_err() {
            return false;
        }
    }
    for line in HELP {
        if rt.println(line).is_err() {
            return false;
        }
    }
    true
}

/// Says that words ask nothing.
pub(crate) fn tell_usage(rt: &HostRuntime, why: NotAsked) {
    let _ = eprintln!(rt; "arpki_party: {why}");
    for line in USAGE {
        let _ = rt.eprintln(line);
    }
}

/// Says what ended the program.
pub(crate) fn tell_end(rt: &HostRuntime, why: &str) {
    let _ = eprintln!(rt; "arpki_party: {why}");
}
