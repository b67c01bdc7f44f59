//! When changes are linked, each behind the one before it.

ghost use Rattle.std.specs.Prelude.{◌≡◌, ◌+◌, ◌<◌, ◌^◌, length};
ghost use Rattle.ar_base.specs.FirstFailing.{first_failing, tests_of};
ghost use Rattle.ar_base.specs.Gives.{Gives};
ghost use Rattle.ar_cert.specs.Certificate.{digest_of};
ghost use Rattle.client_memory.specs.Links.{endorsements_answer, followed, is_endorsed, link_answer, linked};

use crate::LinkFault;
use ar_cert::{Cert, Change, Endorsement, judge_change};
use ar_statement::{Role, Statement, Text};
use cert_policy::PolicyRefusal;
use party_keys::Directory;

/// Whether an authority endorses the certificate.
fn is_endorsed(directory: &Directory, cert: &Cert, endorsement: &Endorsement) -> bool
    ensures { result ≡ is_endorsed directory.now cert.now endorsement.now }
{
    let authority = endorsement.authority;
    let statement = Statement::Endorse {
        authority,
        certificate: cert.digest(),
    };
    let text = Text::of(&statement);
    let signature = endorsement.signature.as_slice();
    directory
        .verify(Role::Authority.party(authority), text.as_bytes(), signature)
        .is_ok()
}

/// Whether each endorses the certificate, or the first that does not.
fn check_endorsements(
    directory: &Directory,
    cert: &Cert,
    endorsements: &[Endorsement],
) -> Result<(), LinkFault>
    ensures { result ≡ endorsements_answer directory.now cert.now endorsements.now }
{
    let [endorsement, rest @ ..] = endorsements else {
        return Ok(());
    };
    if !is_endorsed(directory, cert, endorsement) {
        return Err(LinkFault::Endorsement(endorsement.authority));
    }
    check_endorsements(directory, cert, rest)
}

/// Whether a change is linked behind a certificate, or its fault.
fn check_link(directory: &Directory, old: &Cert, link: &Change) -> Result<(), LinkFault>
    ensures { result ≡ link_answer directory.now old.now link.now }
{
    check_endorsements(directory, &link.cert, link.endorsements.as_slice())?;
    match judge_change(Some(old), link) {
        Ok(()) => Ok(()),
        Err(refusal) => Err(LinkFault::Policy(refusal)),
    }
}

/// The last certificate, where each change is linked behind the one before it, and the first behind `old`; or the first
/// that is not, with its place, where the first has this one.
#[tactic(auto, unfolding(crate::specs::Links::linked))]
pub(crate) fn linked<'a>(
    directory: &Directory,
    place: usize,
    old: &'a Cert,
    links: &'a [Change],
) -> Result<&'a Cert, (usize, LinkFault)>
    requires { place + length links.now < 2 ^ 64 }
    ensures { Gives (λ cert. cert.now) result (linked directory.now place old.now links.now) }
{
    let [link, rest @ ..] = links else {
        return Ok(old);
    };
    match check_link(directory, old, link) {
        Ok(()) => linked(directory, place + 1, &link.cert, rest),
        Err(fault) => Err((place, fault)),
    }
}

/// Whether each change follows the one before it by the policy rule, and the first `old`; or the first that does not,
/// with its place, where the first has this one.
#[tactic(auto, unfolding(crate::specs::Links::followed))]
pub(crate) fn followed(
    place: usize,
    old: &Cert,
    links: &[Change],
) -> Result<(), (usize, PolicyRefusal)>
    requires { place + length links.now < 2 ^ 64 }
    ensures { result ≡ followed place old.now links.now }
{
    let [link, rest @ ..] = links else {
        return Ok(());
    };
    match judge_change(Some(old), link) {
        Ok(()) => followed(place + 1, &link.cert, rest),
        Err(refusal) => Err((place, refusal)),
    }
}
