//! The certificates that an owner makes.

ghost use Rattle.std.specs.Prelude.{◌≡◌, ◌<◌, ◌-◌, ◌^◌, true, false, IfOk};
ghost use Rattle.cert_drafts.specs.Certificates.{first_certificate, next_certificate};
ghost use Rattle.cert_drafts.specs.Policies.{are_authorities, may_wait, terms_of};

use crate::policies::policy;
use ar_cert::Cert;
use ar_names::NameView;
use lms_tree::LmsPublic;
use script_text::PolicyWords;
use std::alloc::{AllocError, Global};

/// The first certificate of a name, with this key. The only error is want of memory.
pub fn first_certificate(
    alloc: Global,
    key: LmsPublic,
    name: &NameView,
    words: &PolicyWords,
) -> Result<Cert, AllocError>
    requires ascend { are_authorities words.now.trusted ≡ true }
    requires wait { may_wait words.now.wait ≡ true }
    ensures { IfOk result (λ cert. cert ≡ first_certificate key name.now (terms_of words.now)) }
{
    let policy = policy(alloc, words)?;
    Ok(Cert {
        name: name.to_name(alloc)?,
        serial: 0,
        previous: [0; 32],
        subject: key,
        policy,
        revoked: false,
    })
}

/// The certificate behind another, whose serial is not the greatest, with this key and the same policy.
/// The only error is want of memory.
pub fn next_certificate(
    alloc: Global,
    key: LmsPublic,
    old: &Cert,
    revoked: bool,
) -> Result<Cert, AllocError>
    requires { old.now.serial < 2 ^ 64 - 1 }
    ensures { IfOk result (λ cert. cert ≡ next_certificate key old.now old.now.policy revoked) }
{
    let mut cert = old.copy(alloc)?;
    cert.serial = old.serial + 1;
    cert.previous = old.digest();
    cert.subject = key;
    cert.revoked = revoked;
    Ok(cert)
}

/// The certificate behind another, whose serial is not the greatest, with this key and the policy that words say.
/// The only error is want of memory.
pub fn updated_certificate(
    alloc: Global,
    key: LmsPublic,
    old: &Cert,
    words: &PolicyWords,
) -> Result<Cert, AllocError>
    requires serial { old.now.serial < 2 ^ 64 - 1 }
    requires ascend { are_authorities words.now.trusted ≡ true }
    requires wait { may_wait words.now.wait ≡ true }
    ensures { IfOk result (λ cert. cert ≡ next_certificate key old.now (terms_of words.now) false) }
{
    let policy = policy(alloc, words)?;
    let mut cert = next_certificate(alloc, key, old, false)?;
    cert.policy = policy;
    Ok(cert)
}
