//! What a client trusts and is shown.
use crate::values::{AUTHORITY_KEYS, FIRST, LOG_KEYS, OTHER, SECOND, SECOND_CERTIFICATE};
use ar_cert::Change;
use lms_tree::LmsPublic;
use party_keys::Directory;
use std::alloc::Global;
use std::test::Fail;

/// A confirmation.
#[derive(Clone, Copy, Debug)]
pub(crate) enum Shown {
    /// Of the first certificate of a.example.
    First,
    /// Of its second one.
    Second,
    /// Of that of b.example.
    Other,
}

/// Appends the bytes that hex spells.
fn append_hex(alloc: Global, bytes: &mut Vec<u8>, pieces: &[&str]) -> Result<(), Fail> {
    for piece in pieces {
        match hex::decode(alloc, piece.as_bytes()) {
            Ok(part) => bytes.extend_from_slice(&part)?,
            Err(_) => return Err("no hex".into()),
        }
    }
    Ok(())
}

/// The key that hex spells.
fn key(alloc: Global, word: &str) -> Result<LmsPublic, Fail> {
    let mut bytes = Vec::new(alloc);
    append_hex(alloc, &mut bytes, &[word])?;
    match LmsPublic::read(&bytes) {
        Some(key) => Ok(key),
        None => Err("no key".into()),
    }
}

/// The keys that hex spells.
fn keys(alloc: Global, words: &[&str]) -> Result<Vec<LmsPublic>, Fail> {
    let mut keys = Vec::new(alloc);
    for word in words {
        keys.push(key(alloc, word)?)?;
    }
    Ok(keys)
}

/// The directory that the client trusts.
pub(crate) fn directory(alloc: Global) -> Result<Directory, Fail> {
    let logs = keys(alloc, &LOG_KEYS)?;
    let authorities = keys(alloc, &AUTHORITY_KEYS)?;
    match Directory::new(logs, authorities, 3) {
        Ok(directory) => Ok(directory),
        Err(_) => Err("no directory".into()),
    }
}

/// The signature of generation 0, at leaf 3, that each key was made for.
fn signature() -> [u8; 1296] {
    let mut bytes = [0xa7u8; 1296];
    bytes[..12].copy_from_slice(&[0, 0, 0, 0, 0, 0, 0, 3, 0, 0, 0, 4]);
    bytes[1132..1136].copy_from_slice(&[0, 0, 0, 5]);
    bytes
}

/// Appends the numbers of these parties, each with its signature.
fn sign(bytes: &mut Vec<u8>, parties: &[u8; 3]) -> Result<(), Fail> {
    for party in parties {
        bytes.extend_from_slice(&[0, *party, 5, 16])?;
        bytes.extend_from_slice(&signature())?;
    }
    Ok(())
}

/// What a confirmation says, and who signs it.
fn parts(shown: Shown) -> ([&'static str; 7], [u8; 3]) {
    match shown {
        Shown::First => (FIRST, [0, 0, 1]),
        Shown::Second => (SECOND, [1, 2, 3]),
        Shown::Other => (OTHER, [2, 7, 8]),
    }
}

/// The bytes of a confirmation.
pub(crate) fn confirmation(alloc: Global, shown: Shown) -> Result<Vec<u8>, Fail> {
    let (pieces, signers) = parts(shown);
    let mut bytes = Vec::new(alloc);
    append_hex(alloc, &mut bytes, &pieces)?;
    sign(&mut bytes, &signers)?;
    Ok(bytes)
}

/// The change that leads from the first certificate of a.example to its second one.
pub(crate) fn link(alloc: Global) -> Result<Change, Fail> {
    let mut bytes = Vec::new(alloc);
    bytes.extend_from_slice(&[0, 130])?;
    append_hex(alloc, &mut bytes, &SECOND_CERTIFICATE)?;
    bytes.push(3)?;
    sign(&mut bytes, &[4, 5, 6])?;
    bytes.push(0)?;
    match Change::read(alloc, &bytes) {
        Ok(change) => Ok(change),
        Err(_) => Err("no change".into()),
    }
}
