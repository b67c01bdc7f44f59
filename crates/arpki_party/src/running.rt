//! A run of the program: its status.

ghost use Rattle.std.specs.Prelude.{◌≡◌, ◌⊎◌, ℕ, List, Ok, Err, IfOk, IfErr, string_bytes};
ghost use Rattle.ar_base.specs.Gives.{GivesUnless};
ghost use Rattle.arpki_ask.specs.Written.{key_line};
ghost use Rattle.arpki_party.specs.Made.{IsUnread, key_line_taken};
ghost use Rattle.arpki_party.specs.Statuses.{end_status, refused_status, stop_status, written_status};
ghost use Rattle.arpki_party.specs.Words.{role_of};
ghost use Rattle.arpki_party.specs.declared.not_opened.NotOpened.TheVariants.{Memory};

use crate::asked::{Asked, PartyKind};
use crate::files::bytes_of;
use crate::going_on::{OfParts, go_on};
use crate::not_opened::NotOpened;
use crate::opening::{Parts, open_disk, parts_of};
use crate::secret::key_in;
use crate::telling::{tell_end, tell_help};
use ar_io::{StdSink, StdSource};
use authority_keeper::AuthorityKeeper;
use desk_run::Stop;
use file_disk::FileDisk;
use kept_party::KeptParty;
use lms_tree::LmsPublic;
use log_keeper::LogKeeper;
use owner_keeper::OwnerKeeper;
use std::alloc::{AllocError, Global};

/// The status where a party is not opened, or its journal failed.
const NOT_OPENED: u8 = 3;

/// The status where a read failed.
const READ_FAILED: u8 = 4;

/// The status where a write failed.
const WRITE_FAILED: u8 = 5;

/// The status where memory ran out.
const OUT_OF_MEMORY: u8 = 6;

/// The status of a run that stopped before its lines ended.
fn stop_status(stop: Stop) -> u8
    ensures { result ≡ stop_status stop }
{
    match stop {
        Stop::Disk => NOT_OPENED,
        Stop::Sink => WRITE_FAILED,
        Stop::Memory => OUT_OF_MEMORY,
        // More lines than can be counted are as good as a read that failed.
        Stop::Source | Stop::Count => READ_FAILED,
    }
}

/// Tells why a run stopped before its lines ended, where it did: the status.
fn tell_ended(rt: &HostRuntime, ended: Result<(), Stop>) -> u8
    ensures { result ≡ end_status ended }
{
    let Err(stop) = ended else {
        return 0;
    };
    let _ = eprintln!(rt; "arpki_party: {stop}");
    if stop == Stop::Disk {
        let _ = println!(rt; "failed: {stop}");
    }
    stop_status(stop)
}

/// Tells why a party is not opened: the status.
fn tell_not_opened(rt: &HostRuntime, why: NotOpened) -> u8
    ensures { result ≡ refused_status why }
{
    match why {
        NotOpened::Memory => {
            tell_end(rt, "memory ran out");
            OUT_OF_MEMORY
        }
        why => {
            let _ = println!(rt; "not opened: {why}");
            let _ = eprintln!(rt; "arpki_party: not opened: {why}");
            NOT_OPENED
        }
    }
}

/// Has the party that is made of these parts answer the lines of standard input: the status.
fn answer_lines<D: OfParts>(
    rt: &HostRuntime,
    journal: &str,
    parts: Parts,
) -> Result<u8, NotOpened> {
    let disk = open_disk(rt, journal)?;
    let mut source = StdSource::new(rt.stdin());
    let mut sink = StdSink::new(rt.stdout());
    let run: (KeptParty<D, FileDisk>, Result<(), Stop>) = go_on(
        rt.alloc(),
        parts,
        disk,
        &mut source,
        &mut sink,
    ).map_err(|(_disk, why)| why)?;
    Ok(tell_ended(rt, run.1))
}

/// The same of a party of this kind.
fn run_party(
    rt: &HostRuntime,
    kind: PartyKind,
    journal: &str,
    parts: Parts,
) -> Result<u8, NotOpened> {
    match kind {
        PartyKind::Log => answer_lines::<LogKeeper>(rt, journal, parts),
        PartyKind::Authority => answer_lines::<AuthorityKeeper>(rt, journal, parts),
        PartyKind::Owner => answer_lines::<OwnerKeeper>(rt, journal, parts),
    }
}

/// The line of a party's key in a directory, without its newline.
fn key_line(alloc: Global, key: &LmsPublic) -> Result<String, AllocError>
    ensures { IfOk result (λ line. string_bytes line ≡ key_line key.now) }
{
    let digits = hex::encode(alloc, key.bytes().as_slice())?;
    format!(in alloc; "key {digits}")
}

/// The line of the first key of this party in a directory, without its newline, by the text of its secret's file.
fn key_line_in(
    alloc: Global,
    text: &[u8],
    kind: PartyKind,
    number: u16,
) -> Result<String, NotOpened>
    ensures { GivesUnless Memory string_bytes result
        (key_line_taken (role_of kind) number text.now) }
{
    let key = key_in(alloc, text, kind.role(), number)?;
    Ok(key_line(alloc, &key.public())?)
}

/// Writes the line of a party's key in a directory: the status.
fn write_key(rt: &HostRuntime, kind: PartyKind, number: u16, secret: &str) -> Result<u8, NotOpened>
    // That there is a line, by what was read of the file, and whether it was written.
    ensures made { IfOk result (λ status. ((text line : List ℕ)
        × (key_line_taken (role_of kind) number text ≡ Ok line))
        × ((status ≡ 0) ⊎ (status ≡ 5))) }
    ensures refused { IfErr result (λ e. IsUnread e ⊎ ((text : List ℕ)
        × (key_line_taken (role_of kind) number text ≡ Err e))) }
{
    let text = bytes_of(rt, secret, "of the secret")?;
    let line = key_line_in(rt.alloc(), &text, kind, number)?;
    Ok(tell_written(rt, println!(rt; "{line}").is_ok()))
}

/// Tells that a write failed, where not all was written: the status.
fn tell_written(rt: &HostRuntime, is_written: bool) -> u8
    ensures { result ≡ written_status is_written }
{
    if is_written {
        0
    } else {
        tell_end(rt, "a write failed");
        WRITE_FAILED
    }
}

/// Does what is asked: the status, or why there is no such party.
fn try_run(rt: &HostRuntime, asked: &Asked) -> Result<u8, NotOpened> {
    match asked {
        Asked::Help => Ok(tell_written(rt, tell_help(rt))),
        Asked::Key {
            kind,
            number,
            secret,
        } => write_key(rt, *kind, *number, secret),
        Asked::Party {
            kind,
            number,
            directory,
            secret,
            journal,
        } => {
            let parts = parts_of(rt, kind.role(), *number, directory, secret)?;
            run_party(rt, *kind, journal, parts)
        }
    }
}

/// Does what is asked: the status.
pub(crate) fn run(rt: &HostRuntime, asked: &Asked) -> u8 {
    match try_run(rt, asked) {
        Ok(status) => status,
        Err(why) => tell_not_opened(rt, why),
    }
}
