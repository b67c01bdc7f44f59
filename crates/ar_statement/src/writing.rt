ghost use Rattle.std.specs.Prelude.{◌≡◌, ◌+◌, ◌≤◌, ◌++◌, length, take, drop};
ghost use Rattle.std.specs.Int.{w32, w64};
ghost use Rattle.ar_bytes.specs.RoundTrip.{number_text};
ghost use Rattle.ar_bytes.specs.Joined.{optional_text};
ghost use Rattle.ar_statement.specs.Claims.{head, log_party, owner_party, name_text, text_of, claim_of, value_text};
ghost use Rattle.ar_statement.specs.declared.party.Role.TheVariants.{LogServer, Owner};

use crate::party::{Party, Role};
use crate::statement::{Statement, TEXT_LEN};
use ar_bytes::{write_bytes, write_u8, write_u16, write_u32, write_u64};
use ar_names::NameView;
use vote_quorum::Value;

/// Begins a text with its kind and its signer.
fn put_head(out: &mut [u8; TEXT_LEN], kind: u8, signer: Party) -> usize
    ensures len { result ≡ 4 }
    ensures front { take result out.new ≡ head kind signer }
    ensures behind { drop result out.new ≡ drop result out.old }
{
    let place = write_u8(out, 0, kind);
    let place = write_u8(out, place, signer.role.number());
    write_u16(out, place, signer.number)
}

/// The text of a statement on one certificate alone, by its kind.
fn put_certificate(
    out: &mut [u8; TEXT_LEN],
    kind: u8,
    signer: Party,
    certificate: &[u8; 32],
) -> usize
    ensures len { result ≡ 36 }
    ensures front { take result out.new ≡ head kind signer ++ certificate.now }
    ensures behind { drop result out.new ≡ drop result out.old }
{
    let place = put_head(out, kind, signer);
    write_bytes(out, place, certificate)
}

/// Begins the text of a statement on an epoch.
fn put_epoch(out: &mut [u8; TEXT_LEN], kind: u8, signer: Party, epoch: u64) -> usize
    ensures len { result ≡ 12 }
    ensures front { take result out.new ≡ head kind signer ++ number_text w64 epoch }
    ensures behind { drop result out.new ≡ drop result out.old }
{
    let place = put_head(out, kind, signer);
    write_u64(out, place, epoch)
}

/// Two digests at a place.
#[tactic(auto, using(crate::proofs::Rooms::same_later))]
fn put_digests(out: &mut [u8; TEXT_LEN], place: usize, first: &[u8; 32], second: &[u8; 32]) -> usize
    requires { place + 64 ≤ 330 }
    ensures len { result ≡ place + 64 }
    ensures front { take result out.new ≡ take place out.old ++ (first.now ++ second.now) }
    ensures behind { drop result out.new ≡ drop result out.old }
{
    let place = write_bytes(out, place, first);
    write_bytes(out, place, second)
}

/// A name behind its length, at a place.
#[tactic(auto, using(crate::proofs::Rooms::same_later))]
fn put_name(out: &mut [u8; TEXT_LEN], place: usize, name: &NameView) -> usize
    requires { place + 254 ≤ 330 }
    ensures len { result ≡ place + 1 + length name.now }
    ensures short { length name.now ≤ 253 }
    ensures front { take result out.new ≡ take place out.old ++ name_text name.now }
    ensures behind { drop result out.new ≡ drop result out.old }
{
    let text = name.text();
    let place = write_u8(out, place, text.len() as u8);
    write_bytes(out, place, text)
}

/// The text of a proposal or a vote, by its kind.
#[tactic(auto, using(crate::proofs::Rooms::same_later))]
fn put_ballot(
    out: &mut [u8; TEXT_LEN],
    kind: u8,
    log: u16,
    epoch: u64,
    base: &[u8; 32],
    root: &[u8; 32],
) -> usize
    ensures len { result ≡ 76 }
    ensures front { take result out.new ≡ head kind (log_party log)
        ++ (number_text w64 epoch ++ (base.now ++ root.now)) }
    ensures behind { drop result out.new ≡ drop result out.old }
{
    let place = put_epoch(out, kind, Role::LogServer.party(log), epoch);
    put_digests(out, place, base, root)
}

/// The text that a name has a certificate.
#[tactic(auto, using(crate::proofs::Rooms::same_later))]
fn put_confirm(
    out: &mut [u8; TEXT_LEN],
    signer: Party,
    epoch: u64,
    name: &NameView,
    certificate: &[u8; 32],
    root: &[u8; 32],
) -> usize
    ensures within { result ≤ 330 }
    ensures front { take result out.new
        ≡ head 6 signer ++ (number_text w64 epoch
        ++ (name_text name.now ++ (certificate.now ++ root.now))) }
    ensures behind { drop result out.new ≡ drop result out.old }
{
    let place = put_epoch(out, 6, signer, epoch);
    let place = put_name(out, place, name);
    put_digests(out, place, certificate, root)
}

/// The text that a name has no certificate.
#[tactic(auto, using(crate::proofs::Rooms::same_later))]
fn put_absent(
    out: &mut [u8; TEXT_LEN],
    signer: Party,
    epoch: u64,
    name: &NameView,
    root: &[u8; 32],
) -> usize
    ensures within { result ≤ 330 }
    ensures front { take result out.new
        ≡ head 7 signer ++ (number_text w64 epoch ++ (name_text name.now ++ root.now)) }
    ensures behind { drop result out.new ≡ drop result out.old }
{
    let place = put_epoch(out, 7, signer, epoch);
    let place = put_name(out, place, name);
    write_bytes(out, place, root)
}

/// The text of an owner's answer to a challenge.
#[tactic(auto, using(crate::proofs::Rooms::same_later))]
fn put_answer(
    out: &mut [u8; TEXT_LEN],
    name: &NameView,
    certificate: &[u8; 32],
    challenge: &[u8; 32],
) -> usize
    ensures within { result ≤ 330 }
    ensures front { take result out.new
        ≡ head 8 (owner_party 0) ++ (name_text name.now ++ (certificate.now ++ challenge.now)) }
    ensures behind { drop result out.new ≡ drop result out.old }
{
    let place = put_head(out, 8, Role::Owner.party(0));
    let place = put_name(out, place, name);
    put_digests(out, place, certificate, challenge)
}

/// The text of what a log did in an epoch.
#[tactic(auto, using(crate::proofs::Rooms::same_later), unfolding(ar_bytes::specs::Joined::optional_text))]
fn put_status(out: &mut [u8; TEXT_LEN], log: u16, epoch: u64, value: &Option<Value>) -> usize
    ensures within { result ≤ 330 }
    ensures front { take result out.new
        ≡ head 9 (log_party log) ++ (number_text w64 epoch ++ optional_text value_text value.now) }
    ensures behind { drop result out.new ≡ drop result out.old }
{
    let place = put_epoch(out, 9, Role::LogServer.party(log), epoch);
    match value {
        None => write_u8(out, place, 0),
        Some(value) => {
            let place = write_u8(out, place, 1);
            put_digests(out, place, &value.base, &value.root)
        }
    }
}

/// The text that announces the next key.
#[tactic(auto, using(crate::proofs::Rooms::same_later))]
fn put_roll(out: &mut [u8; TEXT_LEN], signer: Party, generation: u32, key: &[u8; 56]) -> usize
    ensures len { result ≡ 64 }
    ensures front { take result out.new
        ≡ head 10 signer ++ (number_text w32 generation ++ key.now) }
    ensures behind { drop result out.new ≡ drop result out.old }
{
    let place = put_head(out, 10, signer);
    let place = write_u32(out, place, generation);
    write_bytes(out, place, key)
}

impl Statement<'_> {
    /// Writes the text of the statement into the front of `out`, and tells how many bytes it has. What
    /// is behind it in `out` stays.
    #[tactic(auto, using(crate::proofs::Rooms::rooms), unfolding(crate::specs::Claims::text_of))]
    pub fn write_into(&self, out: &mut [u8; TEXT_LEN]) -> usize
        ensures len { result ≡ length (text_of (claim_of self.now)) }
        ensures text { out.new ≡ text_of (claim_of self.now) ++ drop result out.old }
        ensures within { result ≤ 330 }
    {
        use Role::{Authority, Owner};
        use Statement::*;

        match self {
            Endorse {
                authority,
                certificate,
            } => put_certificate(out, 1, Authority.party(*authority), certificate),
            Handover { certificate } => put_certificate(out, 2, Owner.party(0), certificate),
            Propose {
                log,
                epoch,
                base,
                root,
            } => put_ballot(out, 3, *log, *epoch, base, root),
            Vote {
                log,
                epoch,
                base,
                root,
            } => put_ballot(out, 4, *log, *epoch, base, root),
            Confirm {
                signer,
                epoch,
                name,
                certificate,
                root,
            } => put_confirm(out, *signer, *epoch, name, certificate, root),
            ConfirmAbsent {
                signer,
                epoch,
                name,
                root,
            } => put_absent(out, *signer, *epoch, name, root),
            Answer {
                name,
                certificate,
                challenge,
            } => put_answer(out, name, certificate, challenge),
            Status { log, epoch, value } => put_status(out, *log, *epoch, value),
            Roll {
                signer,
                generation,
                key,
            } => put_roll(out, *signer, *generation, key),
            Object { certificate } => put_certificate(out, 11, Owner.party(0), certificate),
        }
    }
}
