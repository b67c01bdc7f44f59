ghost use Rattle.std.specs.Prelude.{◌≡◌, ◌-◌};
ghost use Rattle.ar_statement.specs.Claims.{text_of};
ghost use Rattle.ar_message.specs.Confirmation.{digest_in};
ghost use Rattle.ar_message.specs.Shown.{is_shown};
ghost use Rattle.client_rule.specs.Rule.{claim_on, confirms, has_parties, is_current, is_live, is_young, refusal_of};
ghost use Rattle.client_rule.specs.Views.{body_shown, HasDigest};

use crate::shown::Shown;
use ar_message::ConfView;
use ar_names::{NameView, name_digest};
use ar_statement::{Party, Role, Text, confirmation_statement};
use hash_tree::value_digest;
use party_keys::Directory;
use tree_proof::{check_absent, check_present};

// Whether the directory has all parties, and the authorities are two.
fn has_parties(directory: &Directory, view: &ConfView) -> bool
    ensures { result ≡ has_parties directory.now view.now }
{
    (view.log() as usize) < directory.logs()
        && (view.first() as usize) < directory.authorities()
        && (view.second() as usize) < directory.authorities()
        && view.first() != view.second()
}

// The digest of the name's certificate, if it has one.
fn digest_in(shown: &Shown) -> Option<[u8; 32]>
    requires { HasDigest shown.now }
    ensures { result ≡ digest_in (body_shown shown.now) }
{
    match shown {
        Shown::Present { digest, .. } => Some(*digest),
        Shown::Absent(_) => None,
    }
}

// The text of what a party signs.
fn text_on(view: &ConfView, shown: &Shown, signer: Party) -> Text
    requires { HasDigest shown.now }
    ensures { result ≡ text_of (claim_on view.now.about (body_shown shown.now) signer) }
{
    let name = NameView::from_name(view.name());
    let statement = confirmation_statement(
        signer,
        view.epoch(),
        name,
        digest_in(shown),
        view.root(),
    );
    Text::of(&statement)
}

// Whether a party signed what the confirmation says.
#[tactic(auto, unfolding(crate::specs::Rule::confirms))]
fn confirms(
    directory: &Directory,
    view: &ConfView,
    shown: &Shown,
    signer: Party,
    signature: &[u8],
) -> bool
    requires { HasDigest shown.now }
    ensures { result ≡ confirms directory.now view.now.about
        (body_shown shown.now) signer signature.now }
{
    let text = text_on(view, shown, signer);
    directory.verify(signer, text.as_bytes(), signature).is_ok()
}

// Whether the table with the root has this for the name.
#[tactic(auto, unfolding(ar_message::specs::Shown::is_shown))]
fn is_shown(view: &ConfView, shown: &Shown) -> bool
    requires { HasDigest shown.now }
    ensures { result ≡ is_shown view.now.about (body_shown shown.now) view.now.steps }
{
    let key = name_digest(view.name());
    match shown {
        Shown::Present {
            certificate,
            digest,
        } => {
            let value = value_digest(certificate.serial(), digest);
            certificate.name() == view.name()
                && check_present(&key, &value, view.steps(), &view.root())
        }
        Shown::Absent(bottom) => check_absent(&key, bottom, view.steps(), &view.root()),
    }
}

// Whether the confirmation is young enough so many epochs after its own.
fn is_young(shown: &Shown, after: u64, age: u64) -> bool
    ensures { result ≡ is_young after age (body_shown shown.now) }
{
    match shown {
        Shown::Present { certificate, .. } => {
            after <= age && after <= certificate.max_age() as u64
        }
        Shown::Absent(_) => after <= age,
    }
}

// Whether the certificate, if there is one, is not revoked.
fn is_live(shown: &Shown) -> bool
    ensures { result ≡ is_live (body_shown shown.now) }
{
    match shown {
        Shown::Present { certificate, .. } => !certificate.revoked(),
        Shown::Absent(_) => true,
    }
}

// Whether the certificate, if there is one, has not expired.
fn is_current(shown: &Shown, now: u64) -> bool
    ensures { result ≡ is_current now (body_shown shown.now) }
{
    match shown {
        Shown::Present { certificate, .. } => now <= certificate.until(),
        Shown::Absent(_) => true,
    }
}

/// The number of the first check that refuses the confirmation.
#[tactic(auto, unfolding(crate::specs::Rule::refusal_of))]
pub(crate) fn refusal(
    directory: &Directory,
    name: &[u8],
    view: &ConfView,
    shown: &Shown,
    now: u64,
    age: u64,
) -> Result<(), u8>
    requires digest { HasDigest shown.now }
    requires body { body_shown shown.now ≡ view.now.body }
    ensures { result ≡ refusal_of (record {
      keys = directory.now;
      name = name.now;
      epoch = now;
      age = age;
    }) view.now }
{
    if view.name() != name {
        return Err(2);
    }
    if !has_parties(directory, view) {
        return Err(3);
    }
    let log = Role::LogServer.party(view.log());
    if !confirms(directory, view, shown, log, view.log_signature()) {
        return Err(4);
    }
    let first = Role::Authority.party(view.first());
    if !confirms(directory, view, shown, first, view.first_signature()) {
        return Err(5);
    }
    let second = Role::Authority.party(view.second());
    if !confirms(directory, view, shown, second, view.second_signature()) {
        return Err(6);
    }
    if !is_shown(view, shown) {
        return Err(7);
    }
    if view.epoch() > now {
        return Err(8);
    }
    if !is_young(shown, now - view.epoch(), age) {
        return Err(9);
    }
    if !is_live(shown) {
        return Err(10);
    }
    if !is_current(shown, now) {
        return Err(11);
    }
    Ok(())
}
