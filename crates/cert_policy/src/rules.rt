ghost use Rattle.std.specs.Prelude.{◌≡◌, ◌↔◌, Ok, IsOk};
ghost use Rattle.cert_policy.specs.Clauses.{Follows, Recovers, Registers, common_clauses, follow_answer, is_well_formed, own_clauses, recovery_clauses, registration_answer, update_answer};
ghost use Rattle.ar_base.specs.FirstFailing.{first_failing};
ghost use Rattle.cert_policy.specs.Terms.{cert_terms, policy_terms};
ghost use Rattle.cert_policy.specs.declared.manner.Manner.TheVariants.{Full, Recovery};

use crate::{Facts, Manner, PolicyFacts, PolicyRefusal};
use vote_quorum::{distinct_count, shared_count};

/// The authorities that must endorse each certificate, whatever a policy says.
const LEAST_ENDORSERS: usize = 3;

/// Whether a certificate follows the one before it, or else the least clause that fails.
///
/// `endorsers` are the numbers of the authorities that endorse the new one, in any order and with
/// repeats, which count once. `handover` says whether the key of the old one hands over to it.
pub fn follows(
    old: &Facts,
    new: &Facts,
    endorsers: &[u16],
    handover: bool,
) -> Result<(), PolicyRefusal>
    ensures answer { result ≡ follow_answer (cert_terms old.now)
        (cert_terms new.now) endorsers.now handover }
    ensures ok { IsOk result
        ↔ Follows (cert_terms old.now) (cert_terms new.now) endorsers.now handover }
{
    meets_common(old, new, endorsers)?;
    meets_own(old, endorsers, handover)?;
    if !is_well_formed(&new.policy) {
        return Err(PolicyRefusal::Policy);
    }
    Ok(())
}

/// How a certificate that follows another one is taken, or else the least clause that fails.
///
/// `endorsers` and `handover` are as for `follows`, and `pending` says whether a recovery is pending for the
/// name. Where each clause of `follows` holds, it is a full update. Where the old policy has a wait and the
/// sixth or the seventh clause fails, it is a recovery, for which the new policy must be well formed and
/// nothing pending.
pub fn update(
    old: &Facts,
    new: &Facts,
    endorsers: &[u16],
    handover: bool,
    pending: bool,
) -> Result<Manner, PolicyRefusal>
    ensures answer { result ≡ update_answer (cert_terms old.now)
        (cert_terms new.now) endorsers.now handover pending }
    ensures full { (result ≡ Ok Full)
        ↔ Follows (cert_terms old.now) (cert_terms new.now) endorsers.now handover }
    ensures recovery { (result ≡ Ok Recovery)
        ↔ Recovers (cert_terms old.now) (cert_terms new.now) endorsers.now handover pending }
{
    manner(old, new, endorsers, handover, pending)
}

// How it is taken, or else the least clause that fails.
fn manner(
    old: &Facts,
    new: &Facts,
    endorsers: &[u16],
    handover: bool,
    pending: bool,
) -> Result<Manner, PolicyRefusal>
    ensures { result ≡ update_answer (cert_terms old.now)
        (cert_terms new.now) endorsers.now handover pending }
{
    if old.policy.wait.is_some() && meets_own(old, endorsers, handover).is_err() {
        recovers(old, new, endorsers, pending)?;
        return Ok(Manner::Recovery);
    }
    follows(old, new, endorsers, handover)?;
    Ok(Manner::Full)
}

/// Whether a certificate registers a name that has none, or else the least clause that fails.
///
/// `endorsers` are as for an update. The clauses on names, on the threshold and on the handover do not
/// occur, since there is no old policy.
pub fn registrable(new: &Facts, endorsers: &[u16]) -> Result<(), PolicyRefusal>
    ensures answer { result ≡ registration_answer (cert_terms new.now) endorsers.now }
    ensures ok { IsOk result ↔ Registers (cert_terms new.now) endorsers.now }
{
    if new.revoked {
        return Err(PolicyRefusal::Revoked);
    }
    if new.serial != 0 {
        return Err(PolicyRefusal::Serial);
    }
    if new.previous != [0; 32] {
        return Err(PolicyRefusal::Previous);
    }
    if distinct_count(endorsers) < LEAST_ENDORSERS {
        return Err(PolicyRefusal::Endorsers);
    }
    if !is_well_formed(&new.policy) {
        return Err(PolicyRefusal::Policy);
    }
    Ok(())
}

/// Whether the first five clauses hold, which are of every update, or else the least that fails. An update that fails one
/// of them is refused for it, whatever else it has.
pub fn meets_common(old: &Facts, new: &Facts, endorsers: &[u16]) -> Result<(), PolicyRefusal>
    ensures { result ≡ first_failing
        (common_clauses (cert_terms old.now) (cert_terms new.now) endorsers.now) }
{
    if old.revoked {
        return Err(PolicyRefusal::Revoked);
    }
    if old.name != new.name {
        return Err(PolicyRefusal::Name);
    }
    if old.serial.checked_add(1) != Some(new.serial) {
        return Err(PolicyRefusal::Serial);
    }
    if new.previous != old.digest {
        return Err(PolicyRefusal::Previous);
    }
    if distinct_count(endorsers) < LEAST_ENDORSERS {
        return Err(PolicyRefusal::Endorsers);
    }
    Ok(())
}

// Whether the domain's own two clauses hold, or else the least that fails.
fn meets_own(old: &Facts, endorsers: &[u16], handover: bool) -> Result<(), PolicyRefusal>
    ensures { result ≡ first_failing (own_clauses (cert_terms old.now) endorsers.now handover) }
{
    if shared_count(endorsers, old.policy.trusted) < usize::from(old.policy.threshold) {
        return Err(PolicyRefusal::Threshold);
    }
    if old.policy.keyed && !handover {
        return Err(PolicyRefusal::Handover);
    }
    Ok(())
}

// Whether the clauses of a recovery hold, or else the least that fails.
fn recovers(old: &Facts, new: &Facts, endorsers: &[u16], pending: bool) -> Result<(), PolicyRefusal>
    ensures { result ≡ first_failing
        (recovery_clauses (cert_terms old.now) (cert_terms new.now) endorsers.now pending) }
{
    meets_common(old, new, endorsers)?;
    if !is_well_formed(&new.policy) {
        return Err(PolicyRefusal::Policy);
    }
    if pending {
        return Err(PolicyRefusal::Pending);
    }
    Ok(())
}

// Whether a policy's threshold is 1 to 8, and at most the number of authorities that it trusts.
fn is_well_formed(policy: &PolicyFacts) -> bool
    ensures { result ≡ is_well_formed (policy_terms policy.now) }
{
    (1..=8).contains(&policy.threshold) && usize::from(policy.threshold) <= policy.trusted.len()
}
