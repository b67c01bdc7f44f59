ghost use Rattle.std.specs.Prelude.{◌≡◌, ◌≤◌, ◌↔◌, ◌&&◌, ◌∷◌, [], length, map, take, Some, None, IfSome, IsTrue};
ghost use Rattle.std.specs.Option.{option_map};
ghost use Rattle.ar_base.specs.FirstFailing.{first_failing};
ghost use Rattle.ar_statement.specs.Claims.{claim_of, text_of};
ghost use Rattle.ar_statement.specs.Claims as claims;
ghost use Rattle.cert_policy.specs.Clauses.{follow_answer, in_manner, update_answer};
ghost use Rattle.cert_policy.specs.Terms.{cert_terms};
ghost use Rattle.cert_policy.specs.declared.manner.Manner.TheVariants.{Objected};
ghost use Rattle.cert_policy.specs.declared.refusal.PolicyRefusal.TheVariants.{NotPending, Objection};
ghost use Rattle.ar_cert.specs.Certificate.{digest_of};
ghost use Rattle.ar_cert.specs.Judging.{cert_terms_of, endorsers_of, is_handed_over, is_pending, is_signed, change_judgement, update_judgement, with_fourth_failed, EachFollows, IsAccepted, IsChain};

use crate::cert::Cert;
use crate::change::{Change, Endorsement, HandedOver};
use ar_base::Items;
use ar_statement::{Statement, Text};
use cert_policy::{Facts, Manner, PolicyRefusal, follows, meets_common, registrable, update};
use lms_tree::{LmsPublic, Verdict, valid};

/// The numbers of the authorities that endorse, in the front of an array.
fn authorities(endorsements: &[Endorsement]) -> [u16; 8]
    requires { length endorsements.now ≤ 8 }
    ensures { take (length endorsements.now) result ≡ map (λ v. v.authority) endorsements.now }
{
    let mut numbers = [0; 8];
    for (i, endorsement) in endorsements.iter().enumerate() {
        numbers[i] = endorsement.authority;
    }
    numbers
}

/// Whether there is a signature, and it is valid under the key for the statement.
fn is_signed(key: &LmsPublic, statement: &Statement, signature: &Option<Items<u8>>) -> bool
    ensures { result ≡ is_signed key.now (text_of (claim_of statement.now)) signature.now }
{
    let Some(signature) = signature else {
        return false;
    };
    let text = Text::of(statement);
    valid(key, text.as_bytes(), signature.as_slice()) == Verdict::Valid
}

/// Whether both are one key.
fn is_same_key(one: &LmsPublic, other: &LmsPublic) -> bool
    ensures { IsTrue result → one.now ≡ other.now }
{
    *one == *other
}

/// Whether the key hands over to the change's certificate, which has this digest. What was found under this key is not
/// verified again.
fn is_handed_by(key: &LmsPublic, digest: &[u8; 32], change: &Change) -> bool
    requires { digest.now ≡ digest_of change.now.cert }
    ensures { result
        ≡ is_signed key.now (text_of (claims.handover digest.now)) change.now.handover }
{
    if let Some(valid) = change.found_under(key) {
        return valid;
    }
    let statement = Statement::Handover {
        certificate: *digest,
    };
    is_signed(key, &statement, &change.handover)
}

/// Whether the old policy asks for a handover and the change has one under this key. The signature is verified
/// only where it is asked for.
fn hands_over(old: &Facts, new: &Facts, key: &LmsPublic, change: &Change) -> bool
    requires { (cert_terms new.now).digest ≡ digest_of change.now.cert }
    ensures { result ≡ (cert_terms old.now).policy.keyed && is_signed key.now
        (text_of (claims.handover (cert_terms new.now).digest)) change.now.handover }
{
    old.policy.keyed && is_handed_by(key, &new.digest, change)
}

/// Whether the key objects to the certificate with this digest, and that is what is pending; or else the least
/// clause that fails.
fn judge_objection(
    key: &LmsPublic,
    digest: &[u8; 32],
    pending: Option<&[u8; 32]>,
    objection: &Option<Items<u8>>,
) -> Result<Manner, PolicyRefusal>
    ensures { result ≡ in_manner Objected
        (first_failing ((NotPending, is_pending (option_map (λ d. d.now) pending.entry) digest.now)
        ∷ ((Objection, is_signed key.now (text_of (claims.object digest.now)) objection.now)
        ∷ []))) }
{
    match pending {
        Some(waiting) if *waiting == *digest => {}
        _ => return Err(PolicyRefusal::NotPending),
    }
    let statement = Statement::Object {
        certificate: *digest,
    };
    if is_signed(key, &statement, objection) {
        Ok(Manner::Objected)
    } else {
        Err(PolicyRefusal::Objection)
    }
}

/// How a change without an objection is taken, with its handover under the key. The signature is verified only where each
/// clause holds that every update has to meet.
fn judge_plain(
    old: &Facts,
    new: &Facts,
    endorsers: &[u16],
    key: &LmsPublic,
    change: &Change,
    pending: bool,
) -> Result<Manner, PolicyRefusal>
    requires { (cert_terms new.now).digest ≡ digest_of change.now.cert }
    ensures { result ≡ update_answer (cert_terms old.now) (cert_terms new.now) endorsers.now
        ((cert_terms old.now).policy.keyed && is_signed key.now
        (text_of (claims.handover (cert_terms new.now).digest)) change.now.handover) pending }
{
    match meets_common(old, new, endorsers) {
        Ok(()) => {}
        Err(refusal) => return Err(refusal),
    }
    let handover = hands_over(old, new, key, change);
    update(old, new, endorsers, handover, pending)
}

/// How a change behind the certificate `old` is taken, by the digest of the certificate that is pending for the
/// name, if one is; or the first clause of the policy rule that fails.
///
/// A change without an objection is taken as the rule says of an update, with its endorsers and its handover as
/// for `judge_change`. One with an objection is `Objected` where its certificate is what is pending and the
/// objection is valid under the old key. Where a clause of every update fails no handover is verified. It takes no memory.
pub fn judge_update(
    old: &Cert,
    pending: Option<&[u8; 32]>,
    change: &Change,
) -> Result<Manner, PolicyRefusal>
    ensures answer { result ≡ update_judgement old.now
        (option_map (λ d. d.now) pending.entry) change.now }
{
    let before = old.facts();
    let after = change.cert.facts();
    if change.objection.is_some() {
        return judge_objection(&old.subject, &after.digest, pending, &change.objection);
    }
    let numbers = authorities(change.endorsements.as_slice());
    let endorsers = &numbers[..change.endorsements.len()];
    judge_plain(
        &before,
        &after,
        endorsers,
        &old.subject,
        change,
        pending.is_some(),
    )
}

/// Whether a change by these endorsers follows the old certificate, whatever it objects to.
fn judge_follow(old: &Cert, change: &Change, endorsers: &[u16]) -> Result<(), PolicyRefusal>
    requires { endorsers.now ≡ map (λ v. v.authority) change.now.endorsements }
    ensures { result ≡ follow_answer (cert_terms_of old.now) (cert_terms_of change.now.cert)
        (endorsers_of change.now) (is_handed_over old.now change.now) }
{
    let before = old.facts();
    let after = change.cert.facts();
    let handover = hands_over(&before, &after, &old.subject, change);
    follows(&before, &after, endorsers, handover)
}

/// An answer, where the fourth clause counts as failed.
fn with_fourth_failed(answer: Result<(), PolicyRefusal>) -> Result<(), PolicyRefusal>
    ensures { result ≡ with_fourth_failed answer }
{
    match answer {
        Err(refusal) if refusal.number() < 4 => Err(refusal),
        _ => Err(PolicyRefusal::Previous),
    }
}

/// Whether a change registers its name, where `old` is `None`, or else follows the old certificate; or
/// the first clause of the policy rule that fails. For a change with an objection the fourth clause counts as
/// failed.
///
/// The endorsers are the authorities of its endorsements, whose signatures are not looked at. The old
/// key hands over where the change carries a signature that is valid under it (RFC 8554, section 5.4.2)
/// for the statement that hands over to the new certificate; this is verified only where the old policy
/// is keyed. It takes no memory.
pub fn judge_change(old: Option<&Cert>, change: &Change) -> Result<(), PolicyRefusal>
    ensures answer { result ≡ change_judgement
        (option_map (λ cert. cert.now) old.entry) change.now }
{
    let numbers = authorities(change.endorsements.as_slice());
    let endorsers = &numbers[..change.endorsements.len()];
    let answer = match old {
        None => registrable(&change.cert.facts(), endorsers),
        Some(old) => judge_follow(old, change, endorsers),
    };
    if change.objection.is_some() {
        with_fourth_failed(answer)
    } else {
        answer
    }
}

/// Whether a change registers its name.
fn is_first(change: &Change) -> bool
    ensures { IsTrue result ↔ IsAccepted None change.now }
{
    judge_change(None, change).is_ok()
}

/// Whether a change is accepted behind the old certificate, with nothing pending.
fn is_next(old: &Cert, change: &Change) -> bool
    ensures { IsTrue result ↔ IsAccepted (Some old.now) change.now }
{
    judge_update(old, None, change).is_ok()
}

/// Whether each change is accepted behind the one before it.
fn each_follows(chain: &[Change]) -> bool
    ensures { IsTrue result ↔ EachFollows chain.now }
{
    for i in 1..chain.len() {
        let before = &chain[i - 1];
        if !is_next(&before.cert, &chain[i]) {
            return false;
        }
    }
    true
}

/// Whether the changes are the chain of a name, the oldest first: there is one, the first registers the
/// name, and each next one is taken behind the one before it with nothing pending, fully or as a recovery. It
/// takes no memory.
pub fn chain_ok(chain: &[Change]) -> bool
    ensures { IsTrue result ↔ IsChain chain.now }
{
    let Some(first) = chain.first() else {
        return false;
    };
    is_first(first) && each_follows(chain)
}

impl Change {
    /// What was found of the handover under this key.
    fn found_under(&self, key: &LmsPublic) -> Option<bool>
        ensures { IfSome result (λ valid. is_signed key.now
            (text_of (claims.handover (digest_of self.now.cert))) self.now.handover ≡ valid) }
    {
        let Some(handed) = self.handed else {
            return None;
        };
        if is_same_key(&handed.key, key) {
            Some(handed.valid)
        } else {
            None
        }
    }

    /// The verdict on the handover under the key of the certificate before, which has these terms, where its policy asks for
    /// a handover and each clause holds that every update has to meet.
    fn verdict_behind(&self, before: &Facts, key: &LmsPublic) -> Option<bool>
        ensures { IfSome result (λ valid. is_signed key.now
            (text_of (claims.handover (digest_of self.now.cert))) self.now.handover ≡ valid) }
    {
        if self.objection.is_some() || !before.policy.keyed {
            return None;
        }
        let after = self.cert.facts();
        let numbers = authorities(self.endorsements.as_slice());
        let endorsers = &numbers[..self.endorsements.len()];
        match meets_common(before, &after, endorsers) {
            Ok(()) => Some(is_handed_by(key, &after.digest, self)),
            Err(_) => None,
        }
    }

    /// Verifies the handover behind this certificate, where the policy rule would, and keeps what it finds: where the
    /// change, or a copy of it, is judged behind the same key, nothing is verified again. It takes no memory.
    pub fn verify_handover(&mut self, old: &Cert)
        ensures { self.new ≡ self.old }
    {
        if let Some(valid) = self.verdict_behind(&old.facts(), &old.subject) {
            self.handed = Some(HandedOver {
                key: old.subject,
                valid,
            });
        }
    }

    /// What was found of the handover of an equal change.
    fn found_by(&self, other: &Change) -> Option<HandedOver>
        ensures { IfSome result (λ handed. is_signed handed.key
            (text_of (claims.handover (digest_of self.now.cert))) self.now.handover
            ≡ handed.valid) }
    {
        self.told();
        other.told();
        if self.is_same(other) {
            other.handed
        } else {
            None
        }
    }

    /// Keeps what was found of an equal change's handover. It tells whether there was such. It takes no memory.
    pub fn recall(&mut self, other: &Change) -> bool
        ensures { self.new ≡ self.old }
    {
        match self.found_by(other) {
            Some(handed) => {
                self.handed = Some(handed);
                true
            }
            None => false,
        }
    }
}
