//! The examples of crate docs, word by word: `tools/check-examples` compares them. `callers` has the contracts that go with them.
ghost use Rattle.std.specs.Prelude.{◌≡◌, length};
ghost use Rattle.lms_tree.specs.LmsKind.{leaves_of};
ghost use Rattle.lms_tree.specs.Signature.{lms_signature_len_of};

use ar_cert::CertView;
use ar_statement::{Party, Statement, Text};
use client_rule::{Judgement, judge};
use lms_tree::{KeyFault, LmsKey, LmsPublic, Verdict, valid};
use party_keys::Directory;
use sign_book::{BookFault, SignBook, sign};
use std::alloc::Global;

/// Of `lms_tree`. Its errors are those of `LmsKey::make`.
pub fn of_lms_tree(alloc: Global, seed: [u8; 32], message: &[u8]) -> Result<Verdict, KeyFault> {
    let key = LmsKey::make(alloc, &seed, 5, 3)?;
    let mut signature = vec![in alloc; 0u8; key.signature_len()]?;
    key.sign_at(0, message, &mut signature);
    let verdict = valid(&key.public(), message, &signature);
    Ok(verdict)
}

/// Of `ar_cert`.
pub fn of_ar_cert(bytes: &[u8]) -> Option<u64> {
    let serial = CertView::read(bytes).map(|certificate| certificate.serial());
    serial
}

/// Of `party_keys`.
pub fn of_party_keys(
    directory: &Directory,
    party: Party,
    statement: Statement,
    signature: &[u8],
) -> bool {
    let signed = directory
        .verify(party, Text::of(&statement).as_bytes(), signature)
        .is_ok();
    signed
}

/// Of `client_rule`.
pub fn of_client_rule(
    directory: Directory,
    confirmation: &[u8],
    now: u64,
    age: u64,
) -> Option<LmsPublic> {
    match judge(&directory, b"a.example", confirmation, now, age) {
        Judgement::Accepted { certificate, .. } => connect_with(certificate.subject()),
        Judgement::Absent { .. } => no_certificate(),
        Judgement::Refused(number) => refused(number),
    }
}

/// What a client does with the key of a certificate that it accepts.
fn connect_with(key: LmsPublic) -> Option<LmsPublic> {
    Some(key)
}

/// What it does where the name has no certificate.
fn no_certificate() -> Option<LmsPublic> {
    None
}

/// What it does where the check with this number fails.
fn refused(_number: u8) -> Option<LmsPublic> {
    None
}

/// Of `sign_book`. Its errors are those of `SignBook::enter`.
pub fn of_sign_book(
    alloc: Global,
    book: &mut SignBook,
    key: LmsKey,
    certificate: [u8; 32],
    mut signature: Vec<u8>,
) -> Result<Vec<u8>, BookFault>
    requires leaves { book.old.leaves ≡ leaves_of key.lms }
    requires room { length signature.items ≡ lms_signature_len_of key.lms key.ots }
{
    let due = book.enter(alloc, &Statement::Handover { certificate })?;
    sign(&key, due, &mut signature);
    Ok(signature)
}
