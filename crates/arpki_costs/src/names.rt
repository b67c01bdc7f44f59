//! Tables of names, by a rule that another program can repeat, and the calls on them that are measured.
//!
//! Name n is `n<n>.example`. It is registered in epoch 1: its key has an identifier and a root of zeros, its
//! policy has no wait and trusts the authority 0 alone, and the authorities 0, 1 and 2 endorse it, whose
//! signatures nobody verifies here. The update of a name is of epoch 2 and has the next serial.
use ar_cert::Change;
use domain_table::{ApplyFault, ChangeRefusal, Table};
use std::alloc::{AllocError, Global};
use std::io::{self, ErrorKind};

const FIRST: u64 = 1;

const SECOND: u64 = 2;

/// The name that is updated: among 16 it is the last in the order of their bytes, among 4,095 one of the last 111.
const UPDATED: u32 = 9;

/// The root of a table of so many names after name 9 is updated.
pub(crate) fn root_applied(alloc: Global, count: u32) -> io::Result<[u8; 32]> {
    let mut table = registered(alloc, count)?;
    apply_update(alloc, &mut table)?;
    Ok(table.root())
}

/// The root of a table of so many names in which an update of name 9 would be taken.
pub(crate) fn root_judged(alloc: Global, count: u32) -> io::Result<[u8; 32]> {
    let table = registered(alloc, count)?;
    judge_update(alloc, &table)?;
    Ok(table.root())
}

fn apply_update(alloc: Global, table: &mut Table) -> io::Result<()> {
    let change = updating(alloc, UPDATED)?;
    match apply(alloc, table, change) {
        Ok(()) => Ok(()),
        Err(_) => Err(ErrorKind::InvalidInput.into()),
    }
}

fn judge_update(alloc: Global, table: &Table) -> io::Result<()> {
    let change = updating(alloc, UPDATED)?;
    match judge(table, &change) {
        Ok(()) => Ok(()),
        Err(_) => Err(ErrorKind::InvalidInput.into()),
    }
}

#[inline(never)]
fn apply(alloc: Global, table: &mut Table, change: Change) -> Result<(), (Change, ApplyFault)> {
    table.apply(alloc, SECOND, change)
}

#[inline(never)]
fn judge(table: &Table, change: &Change) -> Result<(), ChangeRefusal> {
    table.judge(SECOND, change)
}

/// The table in which the names with the numbers below this one are registered.
fn registered(alloc: Global, count: u32) -> io::Result<Table> {
    let mut table = Table::new(alloc);
    for number in 0..count {
        register(alloc, &mut table, number)?;
    }
    Ok(table)
}

fn register(alloc: Global, table: &mut Table, number: u32) -> io::Result<()> {
    let change = registering(alloc, number)?;
    match table.apply(alloc, FIRST, change) {
        Ok(()) => Ok(()),
        Err(_) => Err(ErrorKind::InvalidInput.into()),
    }
}

/// The change that registers the name with a number.
fn registering(alloc: Global, number: u32) -> io::Result<Change> {
    change_to(alloc, &certificate(alloc, number, 0, &[0; 32])?)
}

/// The change that follows it.
fn updating(alloc: Global, number: u32) -> io::Result<Change> {
    let previous = digest_of(&registering(alloc, number)?);
    change_to(alloc, &certificate(alloc, number, 1, &previous)?)
}

fn digest_of(change: &Change) -> [u8; 32] {
    change.cert.digest()
}

/// The change to a certificate.
fn change_to(alloc: Global, certificate: &[u8]) -> io::Result<Change> {
    let len = ((certificate.len() % 0x1_0000) as u16).to_be_bytes();
    let endorsed = b"\x03\x00\x00\x00\x03sig\x00\x01\x00\x03sig\x00\x02\x00\x03sig\x00";
    read(
        alloc,
        &joined(alloc, &[&len[..], certificate, &endorsed[..]])?,
    )
}

fn read(alloc: Global, text: &[u8]) -> io::Result<Change> {
    match Change::read(alloc, text) {
        Ok(change) => Ok(change),
        Err(_) => Err(ErrorKind::InvalidInput.into()),
    }
}

/// The certificate of the name with a number, by its serial and the digest of the one before it.
fn certificate(
    alloc: Global,
    number: u32,
    serial: u8,
    previous: &[u8; 32],
) -> Result<Vec<u8>, AllocError> {
    let mut text = front(alloc, number, serial)?;
    text.extend_from_slice(previous)?;
    text.extend_from_slice(key())?;
    text.extend_from_slice(policy())?;
    Ok(text)
}

/// The version, the name and the serial.
fn front(alloc: Global, number: u32, serial: u8) -> Result<Vec<u8>, AllocError> {
    let name = format!(in alloc; "n{number}.example")?;
    let mut text = Vec::new(alloc);
    text.extend_from_slice(&[1, (name.len() % 0x100) as u8])?;
    text.extend_from_slice(name.as_bytes())?;
    text.extend_from_slice(&[0, 0, 0, 0, 0, 0, 0, serial])?;
    Ok(text)
}

/// The public key of each name.
fn key() -> &'static [u8] {
    b"\x00\x00\x00\x05\x00\x00\x00\x03\x00\x00\x00\x00\x00\x00\x00\x00\x00\x00\x00\x00\x00\x00\x00\x00\x00\x00\x00\x00\x00\x00\x00\x00\x00\x00\x00\x00\x00\x00\x00\x00\x00\x00\x00\x00\x00\x00\x00\x00\x00\x00\x00\x00\x00\x00\x00\x00"
}

/// Version 1, one of authority 0 alone, no handover, an age of 100, until epoch 1,000; and nothing is revoked.
fn policy() -> &'static [u8] {
    b"\x01\x01\x00\x00\x00\x00\x64\x00\x00\x00\x00\x00\x00\x03\xe8\x01\x00\x00\x00"
}

/// The parts one behind the other.
fn joined(alloc: Global, parts: &[&[u8]]) -> Result<Vec<u8>, AllocError> {
    let mut text = Vec::new(alloc);
    for part in parts {
        text.extend_from_slice(part)?;
    }
    Ok(text)
}
