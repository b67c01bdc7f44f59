//! The program `arpki_premises`, beside `arpki`: it plays a script, and tells whether its run meets premises of the safety
//! theorem: that at most two logs and authorities are dishonest (`few`); that no signature in a message is valid under a
//! key which clients know of an honest party, but on what that party signed (`unforged`); and that no two of the strings
//! collide which are hashed for the tables of honest logs and by clients for what they accepted (`apart`).
//!
//! It writes three lines, `few`, `unforged` and `apart` with `yes` or `no`, or `no parties` where the script ends before its
//! logs and authorities are there. What the answers mean is in the contracts of `few`, `is_unforged` and `none_collide`, in the
//! crate `run_premises`; that this program asks them of the run's records and of each message is read in the code.
#![tactic(auto)]

ghost use Rattle.std.specs.Prelude.{◌<◌, IfOk};

use ar_io::{QuietSink, Sink, Source, StdSink, StdSource, words};
use ar_records::Records;
use ar_run::{Fault, read_input, status, write_line};
use ar_world::World;
use owner_check::{OwnerCheck, empty_books};
use run_premises::{few, is_unforged, none_collide};
use script_play::play;
use std::alloc::{AllocError, Global};
use std::process::ExitCode;

/// The usage line.
const USAGE: &[u8] = b"usage: arpki_premises\n";

/// The line where there are no logs and authorities.
const NO_PARTIES: &[u8] = b"no parties\n";

/// The status where there is no memory for the words and the checks.
const OUT_OF_MEMORY: u8 = 6;

/// The most authorities of a script.
const MOST_AUTHORITIES: usize = 16;

/// Whether a message is there and has a forgery.
fn is_forged<C: OwnerCheck>(
    alloc: Global,
    world: &World<C>,
    records: &Records,
    number: u64,
) -> Result<bool, AllocError> {
    match world.message(number) {
        Some(bytes) => Ok(!is_unforged(alloc, records, bytes)?),
        None => Ok(false),
    }
}

/// Whether one of the messages has a forgery.
fn has_forgery<C: OwnerCheck>(
    alloc: Global,
    world: &World<C>,
    records: &Records,
) -> Result<bool, AllocError> {
    for place in 0..world.messages() {
        if is_forged(alloc, world, records, place + 1)? {
            return Ok(true);
        }
    }
    Ok(false)
}

/// The line of an answer.
fn line(alloc: Global, what: &str, holds: bool) -> Result<Vec<u8>, AllocError> {
    let answer = if holds { "yes" } else { "no" };
    let line = format!(in alloc; "{what} {answer}\n")?;
    Ok(line.into_bytes())
}

/// Writes whether the run that led to this world meets the premises.
fn tell<C: OwnerCheck, K: Sink>(
    alloc: Global,
    world: &World<C>,
    sink: &mut K,
) -> Result<(), Fault> {
    if !world.has_parties() {
        return write_line(sink, NO_PARTIES);
    }
    let records = world.records(alloc)?;
    let few = line(alloc, "few", few(&records))?;
    let unforged = line(alloc, "unforged", !has_forgery(alloc, world, &records)?)?;
    let apart = line(alloc, "apart", none_collide(alloc, &records)?)?;
    write_line(sink, &few)?;
    write_line(sink, &unforged)?;
    write_line(sink, &apart)
}

/// Plays the script, writes what is told of its run, and returns the status: 3 where the input is too long or one of its lines is
/// refused.
fn answer<C: OwnerCheck, S: Source, K: Sink>(
    alloc: Global,
    words: &[String],
    source: &mut S,
    sink: &mut K,
    checks: Vec<C>,
) -> Result<u8, Fault>
    ensures { IfOk result (λ status. status < 4) }
{
    if !words.is_empty() {
        write_line(sink, USAGE)?;
        return Ok(2);
    }
    let Some(script) = read_input(alloc, source)? else {
        return Ok(3);
    };
    let played = play(alloc, checks, &script, &mut QuietSink::new())?;
    tell(alloc, &played.world, sink)?;
    Ok(played.status())
}

fn main(rt: HostRuntime) -> ExitCode {
    let (Ok(words), Ok(checks)) = (words(&rt), empty_books(rt.alloc(), MOST_AUTHORITIES)) else {
        return ExitCode::from(OUT_OF_MEMORY);
    };
    let mut source = StdSource::new(rt.stdin());
    let mut sink = StdSink::new(rt.stdout());
    ExitCode::from(status(answer(rt.alloc(), &words, &mut source, &mut sink, checks)))
}
