//! The log, with its journal in a file.
use crate::asked::Asked;
use ar_message::Sent;
use ar_statement::Role;
use file_disk::{FileDisk, FileFault};
use lms_tree::LmsKey;
use log_core::LogInput;
use log_journal::{KeptLog, KeptRefusal, OpenFault};
use party_keys::{Directory, party_seed};
use std::alloc::{AllocError, Global};
use thiserror::Error;

/// The log's number.
const NUMBER: u16 = 1;

/// Why a log is not opened.
#[derive(Debug, Drop, Error)]
pub(crate) enum NotOpened {
    #[error("memory is wanting")]
    Memory,
    #[error("{0}")]
    File(FileFault),
    #[error("{0}")]
    Journal(OpenFault),
}

/// The log's first key, under the secret of zeros.
fn key(alloc: Global) -> Option<LmsKey> {
    LmsKey::make(alloc, &party_seed(&[0; 32], Role::LogServer, NUMBER), 5, 3).ok()
}

/// A directory of three logs and three authorities, which all have this key.
fn directory(alloc: Global, key: &LmsKey) -> Result<Option<Directory>, AllocError> {
    let logs = [key.public(); 3].to_vec(alloc)?;
    let authorities = [key.public(); 3].to_vec(alloc)?;
    Ok(Directory::new(logs, authorities, 3).ok())
}

/// The log, with its journal on this disk.
fn open_on(
    alloc: Global,
    directory: Directory,
    key: LmsKey,
    disk: FileDisk,
) -> Result<KeptLog<FileDisk>, NotOpened> {
    match KeptLog::open(alloc, NUMBER, directory, key, disk) {
        Ok(kept) => Ok(kept),
        Err((_disk, fault)) => Err(NotOpened::Journal(fault)),
    }
}

/// The log whose journal is this file.
pub(crate) fn open(rt: &HostRuntime, path: &str) -> Result<KeptLog<FileDisk>, NotOpened> {
    let alloc = rt.alloc();
    let disk = match FileDisk::open(rt, path) {
        Ok(disk) => disk,
        Err(fault) => return Err(NotOpened::File(fault)),
    };
    let Some(key) = key(alloc) else {
        return Err(NotOpened::Memory);
    };
    match directory(alloc, &key) {
        Ok(Some(directory)) => open_on(alloc, directory, key, disk),
        _ => Err(NotOpened::Memory),
    }
}

/// What it sends for the order to propose.
fn propose(alloc: Global, kept: &mut KeptLog<FileDisk>) -> Result<Sent, KeptRefusal> {
    kept.step(alloc, &LogInput::Propose)
}

/// What it sends for the order to pass.
fn pass(alloc: Global, kept: &mut KeptLog<FileDisk>) -> Result<Sent, KeptRefusal> {
    kept.step(alloc, &LogInput::Pass)
}

/// What it sends for the order to roll.
fn roll(alloc: Global, kept: &mut KeptLog<FileDisk>) -> Result<Sent, KeptRefusal> {
    let key = kept.next_key(alloc)?;
    kept.step(alloc, &LogInput::Roll(&key))
}

/// What it sends for a message.
fn take(alloc: Global, kept: &mut KeptLog<FileDisk>, bytes: &[u8]) -> Result<Sent, KeptRefusal> {
    kept.step(alloc, &LogInput::Take(bytes))
}

/// Nothing, or why there is no answer. What is sent is let go: there is no network.
fn taken(answer: Result<Sent, KeptRefusal>) -> Result<(), KeptRefusal> {
    match answer {
        Ok(_sent) => Ok(()),
        Err(refusal) => Err(refusal),
    }
}

/// Takes what a line asks; `None` where it asks nothing.
pub(crate) fn ask(
    alloc: Global,
    kept: &mut KeptLog<FileDisk>,
    asked: &Asked,
) -> Option<Result<(), KeptRefusal>> {
    match asked {
        Asked::Propose => Some(taken(propose(alloc, kept))),
        Asked::Pass => Some(taken(pass(alloc, kept))),
        Asked::Roll => Some(taken(roll(alloc, kept))),
        Asked::Take(bytes) => Some(taken(take(alloc, kept, bytes))),
        Asked::Nothing => None,
    }
}

/// How many inputs the file has, and how many statements the log saw and signed.
pub(crate) fn counts(kept: &KeptLog<FileDisk>) -> (u64, usize, usize) {
    let record = kept.record();
    (kept.inputs(), record.seen.len(), record.signed.list().len())
}
