//! How the libraries are called: each function is a caller, and is proved.
ghost use Rattle.std.specs.Prelude.{◌≡◌, ℕ, List, length, IfOk, IfSome, OnOk};
ghost use Rattle.std.specs.Option.{option_map};
ghost use Rattle.std.specs.Result.{is_ok, result_ok};
ghost use Rattle.ar_bytes.specs.Reading.{whole};
ghost use Rattle.ar_cert.specs.Certificate.{Certificate, certificate_at};
ghost use Rattle.ar_statement.specs.Claims.{claim_of, handover, text_of};
ghost use Rattle.client_rule.specs.Rule.{judgement};
ghost use Rattle.client_rule.specs.declared.judgement.Judgement.TheVariants.{Accepted};
ghost use Rattle.lms_tree.specs.Key.{signature_of};
ghost use Rattle.lms_tree.specs.LmsKind.{leaves_of};
ghost use Rattle.lms_tree.specs.Signature.{lms_signature_len_of};
ghost use Rattle.lms_tree.specs.declared.validity.Verdict.TheVariants as verdicts;
ghost use Rattle.party_keys.specs.Signatures.{verified};
ghost use Rattle.sign_book.specs.Entry.{due_of};

use ar_cert::CertView;
use ar_statement::{Party, Statement, Text};
use client_rule::{Judgement, judge};
use lms_tree::{KeyFault, LmsKey, LmsPublic, Verdict, valid};
use party_keys::Directory;
use sign_book::{BookFault, SignBook, sign};
use std::alloc::{AllocError, Global};

/// `lms_tree`: the signature of a message by the first leaf of a key.
/// The only error is want of memory.
pub fn signature_by(alloc: Global, key: &LmsKey, message: &[u8]) -> Result<Vec<u8>, AllocError>
    ensures { IfOk result (λ signature. signature.items ≡ signature_of key.now 0 message.now) }
{
    let mut signature = vec![in alloc; 0u8; key.signature_len()]?;
    key.sign_at(0, message, &mut signature);
    Ok(signature)
}

/// `lms_tree`: such a signature is valid under the key's public key.
#[tactic(auto, using(crate::proofs::Signed::signed_is_valid))]
pub fn verdict_on(key: &LmsKey, message: &[u8], signature: &[u8]) -> Verdict
    requires { signature.now ≡ signature_of key.now 0 message.now }
    ensures { result ≡ verdicts.Valid }
{
    valid(&key.public(), message, signature)
}

/// `lms_tree`: signs a message by a new key, and verifies the signature, which is valid.
/// The only error is want of memory.
pub fn sign_and_verify(alloc: Global, seed: &[u8; 32], message: &[u8]) -> Result<Verdict, KeyFault>
    ensures { IfOk result (λ verdict. verdict ≡ verdicts.Valid) }
{
    let key = LmsKey::make(alloc, seed, 5, 3)?;
    let signature = signature_by(alloc, &key, message)?;
    Ok(verdict_on(&key, message, &signature))
}

/// `party_keys`: whether a log or an authority of the directory signed a statement.
pub fn has_signed(
    directory: &Directory,
    party: Party,
    statement: &Statement,
    signature: &[u8],
) -> bool
    ensures { result ≡ is_ok
        (verified directory.now party (text_of (claim_of statement.now)) signature.now) }
{
    directory
        .verify(party, Text::of(statement).as_bytes(), signature)
        .is_ok()
}

/// `client_rule`: the key to go on with, which is that of the certificate that is accepted.
pub fn key_to_trust(
    directory: &Directory,
    name: &[u8],
    confirmation: &[u8],
    now: u64,
    age: u64,
) -> Option<LmsPublic>
    ensures { IfSome result (λ key.
        (certificate : Certificate) × (digest : List ℕ) × (epoch : ℕ) × (root : List ℕ)
        × (judgement (record {
          keys = directory.now;
          name = name.now;
          epoch = now;
          age = age;
        }) confirmation.now ≡ Accepted certificate digest epoch root)
        × (key ≡ certificate.subject)) }
{
    match judge(directory, name, confirmation, now, age) {
        Judgement::Accepted { certificate, .. } => Some(certificate.subject()),
        Judgement::Absent { .. } | Judgement::Refused(_) => None,
    }
}

/// `ar_cert`: the serial number of the certificate that these bytes are, if they are one.
pub fn serial_of(bytes: &[u8]) -> Option<u64>
    ensures { result ≡ option_map (λ c. c.serial) (result_ok (whole certificate_at bytes.now)) }
{
    match CertView::read(bytes) {
        Some(certificate) => Some(certificate.serial()),
        None => None,
    }
}

/// `sign_book`: signs a handover to the certificate with this digest. Asked again, it gives the same bytes.
/// Its errors are those of `SignBook::enter`.
pub fn hand_over(
    alloc: Global,
    book: &mut SignBook,
    key: &LmsKey,
    certificate: &[u8; 32],
    out: &mut [u8],
) -> Result<(), BookFault>
    requires leaves { book.old.leaves ≡ leaves_of key.now.lms }
    requires room { length out.old ≡ lms_signature_len_of key.now.lms key.now.ots }
    ensures { OnOk result (IfOk (due_of book.old (text_of (handover certificate.now))) (λ due.
        out.new ≡ signature_of key.now due.leaf due.text)) }
{
    let statement = Statement::Handover {
        certificate: *certificate,
    };
    let due = book.enter(alloc, &statement)?;
    sign(key, due, out);
    Ok(())
}
