ghost use Rattle.std.specs.Prelude.{◌≡◌, ◌+◌, ◌*◌, ◌≤◌, ◌++◌, length, take, is_some, vec_len, vec_capacity, OnErr, IfSome};
ghost use Rattle.std.specs.List.{flat_map};
ghost use Rattle.std.specs.Option.{option_map};
ghost use Rattle.std.specs.Str.{bytes_eq};
ghost use Rattle.ar_base.specs.Appending.{Appends};
ghost use Rattle.ar_bytes.specs.RoundTrip.{counted_text, number_text};
ghost use Rattle.std.specs.Int.{w8};
ghost use Rattle.ar_bytes.specs.Ascending.{numbers_text};
ghost use Rattle.ar_cert.specs.Certificate.{front_text, rules_text, terms_text, wait_text, certificate_text, certificate_value, digest_of};
ghost use Rattle.ar_cert.specs.Changes.{endorsement_text, consent_text, change_text, IsSignature};

use crate::cert::{Cert, Policy};
use crate::change::{Change, Endorsement};
use crate::parts::ChangeParts;
use ar_base::Items;
use ar_bytes::{write_bytes, write_u8, write_u16, write_u32, write_u64};
use hash_tree::value_digest;
use sha2::{Digest, Sha256};
use std::alloc::{AllocError, Global};

/// The most bytes of a certificate's text.
const TEXT_LEN: usize = 402;
/// The first byte of a text.
pub(crate) const TAG: u8 = 1;
/// The byte before a text whose digest is the certificate's.
pub(crate) const DIGEST_TAG: u8 = 0x10;

// ---- a certificate, in the front of an array

/// All that stands before the terms.
#[tactic(auto, using(ar_names::proofs::Least::short), unfolding(crate::specs::Certificate::front_text))]
fn put_front(out: &mut [u8; TEXT_LEN], cert: &Cert) -> usize
    ensures len { result ≡ 98 + length cert.now.name }
    ensures short { length cert.now.name ≤ 253 }
    ensures front { take result out.new
        ≡ front_text cert.now.name cert.now.serial cert.now.previous cert.now.subject }
{
    let name = cert.name.text();
    let place = write_u8(out, 0, TAG);
    let place = write_u8(out, place, name.len() as u8);
    let place = write_bytes(out, place, name);
    let place = write_u64(out, place, cert.serial);
    let place = write_bytes(out, place, &cert.previous);
    write_bytes(out, place, &cert.subject.bytes())
}

/// The version, and the terms up to the list of authorities.
#[tactic(auto, unfolding(crate::specs::Certificate::rules_text))]
fn put_rules(out: &mut [u8; TEXT_LEN], place: usize, policy: &Policy) -> usize
    requires { place ≤ 351 }
    ensures len { result ≡ place + 15 }
    ensures front { take result out.new ≡ take place out.old
        ++ rules_text (is_some policy.now.wait) policy.now.threshold policy.now.keyed
        policy.now.max_age policy.now.until }
{
    let version = if policy.wait.is_some() { 2 } else { 1 };
    let place = write_u8(out, place, version);
    let place = write_u8(out, place, policy.threshold);
    let place = write_u8(out, place, policy.keyed as u8);
    let place = write_u32(out, place, policy.max_age);
    write_u64(out, place, policy.until)
}

/// Numbers, two bytes for each.
fn put_numbers(out: &mut [u8; TEXT_LEN], place: usize, numbers: &[u16]) -> usize
    requires { place + 2 * length numbers.now ≤ 402 }
    ensures len { result ≡ place + 2 * length numbers.now }
    ensures front { take result out.new ≡ take place out.old ++ numbers_text numbers.now }
{
    let mut end = place;
    for number in numbers {
        end = write_u16(out, end, *number);
    }
    end
}

/// The wait, where there is one.
#[tactic(auto, unfolding(crate::specs::Certificate::wait_text))]
fn put_wait(out: &mut [u8; TEXT_LEN], place: usize, wait: Option<u16>) -> usize
    requires { place ≤ 399 }
    ensures len { result ≤ place + 2 }
    ensures front { take result out.new ≡ take place out.old ++ wait_text wait }
{
    match wait {
        Some(wait) => write_u16(out, place, wait),
        None => place,
    }
}

/// The terms.
fn put_terms(out: &mut [u8; TEXT_LEN], place: usize, policy: &Policy) -> usize
    requires { place ≤ 351 }
    ensures len { result ≤ 401 }
    ensures front { take result out.new ≡ take place out.old ++ terms_text policy.now }
{
    let place = put_rules(out, place, policy);
    let place = write_u8(out, place, policy.trusted.len() as u8);
    let place = put_numbers(out, place, policy.trusted.as_slice());
    put_wait(out, place, policy.wait)
}

impl Cert {
    /// Writes the text into the front of `out`, and tells how many bytes it has.
    #[tactic(auto, unfolding(crate::specs::Certificate::certificate_text))]
    fn put(&self, out: &mut [u8; TEXT_LEN]) -> usize
        ensures len { result ≤ 402 }
        ensures text { take result out.new ≡ certificate_text self.now }
    {
        let place = put_front(out, self);
        let place = put_terms(out, place, &self.policy);
        write_u8(out, place, self.revoked as u8)
    }

    /// SHA-256 (FIPS 180-4) of the byte 0x10 and the certificate's text.
    #[tactic(auto, unfolding(crate::specs::Certificate::digest_of))]
    pub fn digest(&self) -> [u8; 32]
        ensures { result ≡ digest_of self.now }
    {
        let mut text = [0; TEXT_LEN];
        let len = self.put(&mut text);
        let mut hasher = Sha256::new();
        hasher.update(&[DIGEST_TAG]);
        hasher.update(&text[..len]);
        hasher.finalize()
    }

    /// The value in the integrity tree of a name whose newest certificate this is.
    pub fn value(&self) -> [u8; 32]
        ensures { result ≡ certificate_value self.now }
    {
        value_digest(self.serial, &self.digest())
    }

    /// Whether both have one text.
    pub(crate) fn has_text_of(&self, other: &Cert) -> bool
        ensures { result ≡ bytes_eq (certificate_text self.now) (certificate_text other.now) }
    {
        let mut own = [0; TEXT_LEN];
        let own_len = self.put(&mut own);
        let mut others = [0; TEXT_LEN];
        let others_len = other.put(&mut others);
        let text = &own[..own_len];
        let other_text = &others[..others_len];
        text == other_text
    }

    /// Appends the text. The one error is want of memory: it leaves the bytes of `out` as they were, and
    /// does not come where `out` has room for the text.
    pub fn write(&self, _alloc: Global, out: &mut Vec<u8>) -> Result<(), AllocError>
        ensures appends { Appends (certificate_text self.now) out.old out.new result }
        ensures err { OnErr result (out.new.items ≡ out.old.items) }
    {
        let mut text = [0; TEXT_LEN];
        let len = self.put(&mut text);
        out.extend_from_slice(&text[..len])
    }
}

// ---- a change, behind what stands in a vector that has room

/// Appends bytes, for which there is room.
fn append(out: &mut Vec<u8>, bytes: &[u8])
    requires { vec_len out.old + length bytes.now ≤ vec_capacity out.old }
    ensures text { out.new.items ≡ out.old.items ++ bytes.now }
    ensures capacity { vec_capacity out.old ≤ vec_capacity out.new }
{
    match out.extend_from_slice(bytes) {
        Ok(()) => (),
        Err(_) => unreachable!(),
    }
}

/// Bytes behind their count.
#[tactic(auto, unfolding(ar_bytes::specs::RoundTrip::number_text))]
fn append_counted(out: &mut Vec<u8>, bytes: &[u8])
    requires fits { IsSignature bytes.now }
    requires room { vec_len out.old + (2 + length bytes.now) ≤ vec_capacity out.old }
    ensures text { out.new.items ≡ out.old.items ++ counted_text bytes.now }
    ensures capacity { vec_capacity out.old ≤ vec_capacity out.new }
{
    append(out, &(bytes.len() as u16).to_be_bytes());
    append(out, bytes);
}

/// How many bytes the endorsements have.
fn endorsements_len(endorsements: &[Endorsement]) -> usize
    requires { length endorsements.now ≤ 8 }
    ensures len { result ≡ length (flat_map endorsement_text endorsements.now) }
    ensures few { result ≤ 8 * 65539 }
{
    let mut len = 0;
    for endorsement in endorsements {
        len += 4 + endorsement.signature.len();
    }
    len
}

/// Endorsements, one behind the other.
fn append_endorsements(out: &mut Vec<u8>, endorsements: &[Endorsement])
    requires { vec_len out.old + length (flat_map endorsement_text endorsements.now)
        ≤ vec_capacity out.old }
    ensures text { out.new.items ≡ out.old.items ++ flat_map endorsement_text endorsements.now }
    ensures capacity { vec_capacity out.old ≤ vec_capacity out.new }
{
    for endorsement in endorsements {
        append_endorsement(out, endorsement);
    }
}

/// An endorsement.
#[tactic(auto, unfolding(ar_bytes::specs::RoundTrip::number_text))]
fn append_endorsement(out: &mut Vec<u8>, endorsement: &Endorsement)
    requires { vec_len out.old + (4 + length endorsement.now.signature) ≤ vec_capacity out.old }
    ensures text { out.new.items ≡ out.old.items ++ endorsement_text endorsement.now }
    ensures capacity { vec_capacity out.old ≤ vec_capacity out.new }
{
    append(out, &endorsement.authority.to_be_bytes());
    append_counted(out, endorsement.signature.as_slice());
}

/// How many bytes the flag has, and the signature that it tells of.
#[tactic(auto, unfolding(crate::specs::Changes::consent_text, ar_bytes::specs::RoundTrip::number_text))]
fn consent_len(handover: Option<&Items<u8>>, objection: Option<&Items<u8>>) -> usize
    requires handover { IfSome (option_map (λ s. s.now) handover) IsSignature }
    requires objection { IfSome (option_map (λ s. s.now) objection) IsSignature }
    ensures len { result ≡ length (consent_text
        (option_map (λ s. s.now) handover.entry) (option_map (λ s. s.now) objection.entry)) }
    ensures few { result ≤ 65538 }
{
    match (handover, objection) {
        (None, None) => 1,
        (Some(signature), _) => 3 + signature.len(),
        (None, Some(signature)) => 3 + signature.len(),
    }
}

/// The flag, and the signature that it tells of.
#[tactic(auto, unfolding(crate::specs::Changes::consent_text, ar_bytes::specs::RoundTrip::number_text))]
fn append_consent(out: &mut Vec<u8>, handover: Option<&Items<u8>>, objection: Option<&Items<u8>>)
    requires handover { IfSome (option_map (λ s. s.now) handover) IsSignature }
    requires objection { IfSome (option_map (λ s. s.now) objection) IsSignature }
    requires room { vec_len out.old + length (consent_text
        (option_map (λ s. s.now) handover) (option_map (λ s. s.now) objection))
        ≤ vec_capacity out.old }
    ensures text { out.new.items ≡ out.old.items ++ consent_text
        (option_map (λ s. s.now) handover.entry) (option_map (λ s. s.now) objection.entry) }
    ensures capacity { vec_capacity out.old ≤ vec_capacity out.new }
{
    match (handover, objection) {
        (None, None) => append(out, &[0]),
        (Some(signature), _) => {
            append(out, &[1]);
            append_counted(out, signature.as_slice());
        }
        (None, Some(signature)) => {
            append(out, &[2]);
            append_counted(out, signature.as_slice());
        }
    }
}

/// What stands in a change behind its certificate.
#[tactic(auto, unfolding(ar_bytes::specs::RoundTrip::number_text))]
fn append_consents(out: &mut Vec<u8>, parts: &ChangeParts)
    requires { vec_len out.old + (1 + length (flat_map endorsement_text parts.now.endorsements)
        + length (consent_text parts.now.handover parts.now.objection)) ≤ vec_capacity out.old }
    ensures text { out.new.items ≡ out.old.items ++ (number_text w8 (length parts.now.endorsements)
        ++ (flat_map endorsement_text parts.now.endorsements
        ++ consent_text parts.now.handover parts.now.objection)) }
    ensures capacity { vec_capacity out.old ≤ vec_capacity out.new }
{
    append(out, &[parts.endorsements.len() as u8]);
    append_endorsements(out, parts.endorsements);
    append_consent(out, parts.handover, parts.objection);
}

impl Cert {
    /// Appends the text behind the number of its bytes. The one error is want of memory: it leaves the
    /// bytes of `out` as they were, and does not come where `out` has room for both.
    #[tactic(auto, unfolding(ar_bytes::specs::RoundTrip::number_text))]
    pub fn write_counted(&self, _alloc: Global, out: &mut Vec<u8>) -> Result<(), AllocError>
        ensures appends { Appends (counted_text
            (certificate_text self.now)) out.old out.new result }
        ensures err { OnErr result (out.new.items ≡ out.old.items) }
    {
        let mut text = [0; TEXT_LEN];
        let len = self.put(&mut text);
        out.reserve(2 + len)?;
        append_counted(out, &text[..len]);
        Ok(())
    }
}

impl<'a> ChangeParts<'a> {
    // How many bytes the text has, where its certificate's has so many.
    #[tactic(auto, using(crate::proofs::Lengths::change_lengths))]
    fn len_with(&self, cert: usize) -> usize
        requires is { cert ≡ length (certificate_text self.now.cert) }
        requires few { cert ≤ 402 }
        ensures { result ≡ length (change_text self.now) }
    {
        let endorsements = endorsements_len(self.endorsements);
        3 + cert + endorsements + consent_len(self.handover, self.objection)
    }

    /// Appends the text of the change that the parts make. The one error is want of memory: it leaves the bytes of `out` as
    /// they were, and does not come where `out` has room for the text.
    #[tactic(auto, using(crate::proofs::Lengths::change_lengths), unfolding(crate::specs::Changes::change_text))]
    pub fn write(&self, _alloc: Global, out: &mut Vec<u8>) -> Result<(), AllocError>
        ensures appends { Appends (change_text self.now) out.old out.new result }
        ensures err { OnErr result (out.new.items ≡ out.old.items) }
    {
        let mut cert = [0; TEXT_LEN];
        let len = self.cert.put(&mut cert);
        out.reserve(self.len_with(len))?;
        append_counted(out, &cert[..len]);
        append_consents(out, self);
        Ok(())
    }
}

impl Change {
    /// How many bytes the text has.
    pub fn text_len(&self) -> usize
        ensures { result ≡ length (change_text self.now) }
    {
        let mut cert = [0; TEXT_LEN];
        let len = self.cert.put(&mut cert);
        self.parts().len_with(len)
    }

    /// Appends the text. The one error is want of memory: it leaves the bytes of `out` as they were, and
    /// does not come where `out` has room for the text.
    pub fn write(&self, alloc: Global, out: &mut Vec<u8>) -> Result<(), AllocError>
        ensures appends { Appends (change_text self.now) out.old out.new result }
        ensures err { OnErr result (out.new.items ≡ out.old.items) }
    {
        self.parts().write(alloc, out)
    }
}
