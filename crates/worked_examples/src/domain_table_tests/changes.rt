//! The changes that are tried.
use super::values::{free, owner_key, owner_seed};
use ar_cert::{Cert, Change};
use domain_table::Table;
use lms_tree::LmsKey;
use std::alloc::Global;
use std::test::Fail;

/// What the key before it says of a certificate beside the endorsements.
#[derive(Clone, Copy)]
pub(crate) enum Says {
    Nothing,
    Objection,
}

/// A change that is tried at an epoch: to the certificate of a.example that may follow what the table has. The
/// answer is the number of the clause by which it is refused, and 0 where it is taken.
#[derive(Clone, Copy)]
pub(crate) struct Tried {
    pub(crate) epoch: u64,
    policy: &'static [u8],
    endorsers: &'static [u8],
    says: Says,
    pub(crate) answer: u8,
}

impl Tried {
    pub(crate) fn new(
        epoch: u64,
        policy: &'static [u8],
        endorsers: &'static [u8],
        says: Says,
        answer: u8,
    ) -> Tried {
        Tried {
            epoch,
            policy,
            endorsers,
            says,
            answer,
        }
    }
}

/// The number of bytes in two bytes.
fn length(bytes: &[u8]) -> [u8; 2] {
    ((bytes.len() % 0x1_0000) as u16).to_be_bytes()
}

/// The parts one behind the other.
fn joined(alloc: Global, parts: &[&[u8]]) -> Result<Vec<u8>, Fail> {
    let mut text = Vec::new(alloc);
    for part in parts {
        text.extend_from_slice(part)?;
    }
    Ok(text)
}

/// The newest change of a.example.
pub(crate) fn newest(table: &Table) -> Option<&Change> {
    table.get(b"a.example")?.last()
}

/// The serial that may follow, and the digest of the certificate before it.
fn behind(table: &Table) -> (u64, [u8; 32]) {
    match newest(table) {
        None => (0, [0; 32]),
        Some(change) => (change.cert.serial.wrapping_add(1), change.cert.digest()),
    }
}

fn digest_of(alloc: Global, cert: &[u8]) -> Result<[u8; 32], Fail> {
    let cert = Cert::read(alloc, cert).ok().ok_or("a certificate")?;
    Ok(cert.digest())
}

/// A signature of the first leaf of a key.
fn signature(alloc: Global, seed: &[u8; 32], statement: &[u8]) -> Result<Vec<u8>, Fail> {
    let key = LmsKey::make(alloc, seed, 5, 3)?;
    let mut signature = vec![in alloc; 0u8; key.signature_len()]?;
    key.sign_at(0, statement, &mut signature);
    Ok(signature)
}

/// What stands behind the endorsements: a flag, and the signature of a statement of this kind about the certificate.
fn signed(
    alloc: Global,
    flag: u8,
    kind: u8,
    seed: &[u8; 32],
    cert: &[u8],
) -> Result<Vec<u8>, Fail> {
    let certificate = digest_of(alloc, cert)?;
    let statement = joined(alloc, &[&[kind, 3, 0, 0][..], &certificate[..]])?;
    let signature = signature(alloc, seed, &statement)?;
    joined(alloc, &[&[flag][..], &length(&signature)[..], &signature])
}

fn said(alloc: Global, says: Says, cert: &[u8]) -> Result<Vec<u8>, Fail> {
    match says {
        Says::Nothing => joined(alloc, &[&[0][..]]),
        Says::Objection => signed(alloc, 2, 11, &owner_seed(), cert),
    }
}

/// The endorsements by these authorities, behind their number. Nobody verifies them here.
fn endorsed(alloc: Global, endorsers: &[u8]) -> Result<Vec<u8>, Fail> {
    let mut text = joined(alloc, &[&length(endorsers)[1..]])?;
    for authority in endorsers {
        text.extend_from_slice(&[0, *authority, 0, 3, b's', b'i', b'g'])?;
    }
    Ok(text)
}

/// The change to a certificate.
fn change(alloc: Global, cert: &[u8], endorsers: &[u8], says: Says) -> Result<Change, Fail> {
    let endorsed = endorsed(alloc, endorsers)?;
    let said = said(alloc, says, cert)?;
    let text = joined(alloc, &[&length(cert)[..], cert, &endorsed, &said])?;
    Ok(Change::read(alloc, &text).ok().ok_or("a change")?)
}

/// The change that is tried.
pub(crate) fn change_of(alloc: Global, table: &Table, tried: &Tried) -> Result<Change, Fail> {
    let (serial, previous) = behind(table);
    let serial = serial.to_be_bytes();
    let name = b"\x01\x09a.example";
    let parts = [
        &name[..],
        &serial[..],
        &previous[..],
        owner_key(),
        tried.policy,
        &[0][..],
    ];
    let cert = joined(alloc, &parts)?;
    change(alloc, &cert, tried.endorsers, tried.says)
}

/// The change that registers another name, of one letter.
pub(crate) fn registering(alloc: Global, letter: u8) -> Result<Change, Fail> {
    let parts = [
        &[1, 1, letter][..],
        &[0; 40][..],
        owner_key(),
        free(),
        &[0][..],
    ];
    let cert = joined(alloc, &parts)?;
    change(alloc, &cert, &[0, 1, 2], Says::Nothing)
}
