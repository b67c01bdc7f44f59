//! The files of a party, and what its directory says.

ghost use Rattle.std.specs.Prelude.{◌≡◌, IfErr};
ghost use Rattle.std.specs.List.{list_any};
ghost use Rattle.ar_base.specs.Gives.{GivesUnless};
ghost use Rattle.ar_lines.specs.Readings.{ReadsUnless};
ghost use Rattle.arpki_party.specs.FirstKeys.{has_later, says_later};
ghost use Rattle.arpki_party.specs.Made.{IsUnread, directory_said, directory_taken};
ghost use Rattle.arpki_party.specs.declared.not_opened.NotOpened.TheVariants.{Memory};
ghost use Rattle.party_keys.specs.Directory.{keys_of, role_keys};

use crate::not_opened::NotOpened;
use ar_lines::{LineFault, Lines};
use ar_statement::{Party, Role};
use arpki_ask::readers::directory;
use party_keys::Directory;
use std::alloc::Global;
use std::fs;
use std::io::ErrorKind;

/// How many logs, and how many authorities, a directory has at most.
const MOST_PARTIES: u16 = 16;

/// All bytes of a file, which is the directory or the secret.
pub(crate) fn bytes_of(
    rt: &HostRuntime,
    path: &str,
    what: &'static str,
) -> Result<Vec<u8>, NotOpened>
    ensures { IfErr result IsUnread }
{
    match fs::read(rt, path) {
        Ok(bytes) => Ok(bytes),
        Err(error) if error.kind() == ErrorKind::OutOfMemory => Err(NotOpened::Memory),
        Err(error) => Err(NotOpened::Unread(what, error)),
    }
}

/// The directory that a text says.
fn directory_in(alloc: Global, text: &[u8]) -> Result<Directory, LineFault>
    ensures { ReadsUnless (λ directory. directory) result (directory_said text.now) }
{
    let mut lines = Lines::new(text);
    let directory = directory(alloc, &mut lines)?;
    lines.no_row()?;
    Ok(directory)
}

/// Whether the directory says a next key of this party.
#[tactic(auto, using(crate::proofs::LaterKeys::key_laws))]
fn has_later(directory: &Directory, party: Party) -> bool
    ensures { result ≡ has_later (keys_of directory.now party) }
{
    match directory.key(party, 1) {
        Some(_) => true,
        None => false,
    }
}

/// Whether it says one of a party of this role.
#[tactic(auto, using(crate::proofs::LaterKeys::party_laws))]
fn any_has_later(directory: &Directory, role: Role) -> bool
    ensures { result ≡ list_any has_later (role_keys directory.now role) }
{
    directory.told();
    for number in 0..MOST_PARTIES {
        if has_later(directory, role.party(number)) {
            return true;
        }
    }
    false
}

/// Whether a line of the directory says a next key. A party is told those by messages alone, so that its journal has them.
fn says_later(directory: &Directory) -> bool
    ensures { result ≡ says_later directory.now }
{
    any_has_later(directory, Role::LogServer) || any_has_later(directory, Role::Authority)
}

/// The directory that the text of its file says, which says first keys alone.
pub(crate) fn first_directory_in(alloc: Global, text: &[u8]) -> Result<Directory, NotOpened>
    ensures { GivesUnless Memory (λ directory. directory) result (directory_taken text.now) }
{
    match directory_in(alloc, text) {
        Ok(directory) => {
            if says_later(&directory) {
                return Err(NotOpened::Rolled);
            }
            Ok(directory)
        }
        Err(LineFault::Refused(refusal)) => Err(NotOpened::Line(refusal)),
        Err(LineFault::Memory) => Err(NotOpened::Memory),
    }
}
