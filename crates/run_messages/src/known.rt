//! The lines of a directory.

ghost use Rattle.std.specs.Prelude.{◌≡◌, ◌++◌, ◌∷◌, [], IfOk, OnOk, length, map, slice_get};
ghost use Rattle.ar_run.specs.Answers.{bytes_of};
ghost use Rattle.party_keys.specs.Directory.{keys_of, role_keys};
ghost use Rattle.run_messages.specs.Telling.{authorities_line, directory_lines, first_line, first_lines, known_lines, logs_line};

use crate::lines::{key_line, put_line};
use ar_statement::{Party, Role};
use owner_check::OwnerCheck;
use party_keys::Directory;
use script_play::World;
use std::alloc::{AllocError, Global};

/// Puts the line of a party's first key behind the others. The only error is want of memory.
fn put_key(
    alloc: Global,
    directory: &Directory,
    party: Party,
    lines: &mut Vec<Vec<u8>>,
) -> Result<(), AllocError>
    ensures { OnOk result (map bytes_of lines.new.items ≡ map bytes_of lines.old.items
        ++ first_line (slice_get (keys_of directory.now party) 0)) }
{
    match directory.key(party, 0) {
        Some(key) => put_line(lines, key_line(alloc, key)?),
        None => Ok(()),
    }
}

/// Puts the lines of the first keys of all parties of a role behind the others. The only error is want of memory.
#[tactic(auto, using(crate::proofs::Behind::key_laws))]
fn put_keys(
    alloc: Global,
    directory: &Directory,
    role: Role,
    count: u16,
    lines: &mut Vec<Vec<u8>>,
) -> Result<(), AllocError>
    requires all { count ≡ length (role_keys directory.now role) }
    ensures { OnOk result (map bytes_of lines.new.items ≡ map bytes_of lines.old.items
        ++ first_lines (role_keys directory.now role)) }
{
    for number in 0..count {
        put_key(alloc, directory, role.party(number), lines)?;
    }
    Ok(())
}

/// The line that tells how many logs there are, and how many are a quorum.
fn logs_line(alloc: Global, directory: &Directory) -> Result<Vec<u8>, AllocError>
    ensures { IfOk result (λ line. line.items ≡ logs_line directory.now) }
{
    let logs = directory.logs();
    let quorum = directory.quorum();
    let line = format!(in alloc; "logs {logs} {quorum}\n")?;
    Ok(line.into_bytes())
}

/// The line that tells how many authorities there are.
fn authorities_line(alloc: Global, directory: &Directory) -> Result<Vec<u8>, AllocError>
    ensures { IfOk result (λ line. line.items ≡ authorities_line directory.now) }
{
    let authorities = directory.authorities();
    let line = format!(in alloc; "authorities {authorities}\n")?;
    Ok(line.into_bytes())
}

/// Puts the lines of a directory behind the others. The only error is want of memory.
fn put_directory(
    alloc: Global,
    directory: &Directory,
    lines: &mut Vec<Vec<u8>>,
) -> Result<(), AllocError>
    ensures { OnOk result (map bytes_of lines.new.items ≡ map bytes_of lines.old.items
        ++ directory_lines directory.now) }
{
    put_line(lines, logs_line(alloc, directory)?)?;
    put_keys(
        alloc,
        directory,
        Role::LogServer,
        directory.logs() as u16,
        lines,
    )?;
    put_line(lines, authorities_line(alloc, directory)?)?;
    put_keys(
        alloc,
        directory,
        Role::Authority,
        directory.authorities() as u16,
        lines,
    )?;
    Ok(())
}

/// Puts the lines of the directory that clients know behind the others, where the parties are there. The only error is want
/// of memory.
#[tactic(auto, using(crate::proofs::Behind::behind_laws))]
pub(crate) fn put_known<C: OwnerCheck>(
    alloc: Global,
    world: &World<C>,
    lines: &mut Vec<Vec<u8>>,
) -> Result<(), AllocError>
    ensures { OnOk result (map bytes_of lines.new.items ≡ map bytes_of lines.old.items
        ++ known_lines world.now) }
{
    if !world.has_parties() {
        return Ok(());
    }
    put_directory(alloc, world.clients(), lines)
}
