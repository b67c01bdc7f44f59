//! What there has to be for a line of an owner, and why the line is refused where there is not.

ghost use Rattle.std.specs.Prelude.{◌≡◌, ◌<◌, true, All, Err, IfErr, OnOk, Some};
ghost use Rattle.std.specs.List.{list_all};
ghost use Rattle.std.specs.Option.{ok_or};
ghost use Rattle.std.specs.Result.{result_map_both};
ghost use Rattle.ar_statement.specs.Claims.{owner_party};
ghost use Rattle.cert_drafts.specs.Policies.{are_authorities, may_wait, policy_of, terms_of};
ghost use Rattle.party_desk.specs.Owners.{can_be_followed, draft_word, has_room, is_among, named_asks, named_draft, names_owner};
ghost use Rattle.party_desk.specs.declared.unread.Cause.TheVariants as causes;

use crate::reading::need_own;
use crate::unread::Cause;
use ar_cert::Cert;
use ar_statement::{Party, Role};
use cert_drafts::{are_authorities, may_wait};
use owner_keeper::{OwnerKeeper, OwnerOrder};
use script_text::PolicyWords;

/// The most certificates that an owner knows.
const MOST_CERTIFICATES: u64 = 4_096;

/// Which party an owner is.
pub(crate) fn who(owner: &OwnerKeeper) -> Party
    ensures { result ≡ owner_party owner.now.owner.number }
{
    Role::Owner.party(owner.number())
}

/// Refuses a line that names another owner.
pub(crate) fn names_owner(owner: &OwnerKeeper, named: u16) -> Result<(), Cause>
    ensures { result ≡ names_owner owner.now named }
{
    need_own(who(owner), Role::Owner.party(named))
}

/// The certificate of the draft that the word of this number names.
pub(crate) fn draft_named(owner: &OwnerKeeper, draft: u64, word: usize) -> Result<&Cert, Cause>
    ensures { result_map_both (λ cert. cert.now) (λ why. why) result
        ≡ named_draft owner.now draft word }
{
    match owner.cert(draft) {
        Some(cert) => Ok(cert),
        None => Err(Cause::Absent(word)),
    }
}

/// Refuses the word of this number, which says a policy, where it says none.
pub(crate) fn need_policy(words: &PolicyWords) -> Result<(), Cause>
    ensures ascend { OnOk result (are_authorities words.now.trusted ≡ true) }
    ensures wait { OnOk result (may_wait words.now.wait ≡ true) }
    ensures known { OnOk result (policy_of words.now ≡ Some (terms_of words.now)) }
    ensures err { IfErr result (λ why.
        ok_or (policy_of words.now) (causes.Absent 3) ≡ Err why) }
{
    if !are_authorities(words.trusted.as_slice()) || !may_wait(words.wait) {
        return Err(Cause::Absent(3));
    }
    Ok(())
}

/// Whether these numbers are of authorities, of which there are so many.
fn are_there(count: usize, numbers: &[u64]) -> bool
    ensures { result ≡ list_all (is_among count) numbers.now }
{
    numbers
        .iter()
        .all(|number| *number < 65_536 && *number < count as u64)
}

/// Refuses the word of this number where it names authorities that are not there.
#[tactic(auto, using(crate::proofs::Asks::two_bytes))]
pub(crate) fn need_asks(owner: &OwnerKeeper, word: usize, asks: &[u64]) -> Result<(), Cause>
    ensures value { result ≡ named_asks owner.now word asks.now }
    ensures below { OnOk result (All (λ number. number < 65536) asks.now) }
{
    if are_there(owner.authorities(), asks) {
        Ok(())
    } else {
        Err(Cause::Absent(word))
    }
}

/// Refuses a line where there is no room for a certificate more.
pub(crate) fn need_room(owner: &OwnerKeeper) -> Result<(), Cause>
    ensures { result ≡ has_room owner.now }
{
    if owner.drafts() < MOST_CERTIFICATES {
        Ok(())
    } else {
        Err(Cause::Limit)
    }
}

/// Refuses a line that goes on from a certificate with the greatest serial.
pub(crate) fn can_be_followed(old: &Cert) -> Result<(), Cause>
    ensures { result ≡ can_be_followed old.now }
{
    if old.serial < u64::MAX {
        Ok(())
    } else {
        Err(Cause::Limit)
    }
}

/// The number of the word by which a line names the draft of an order.
pub(crate) fn draft_word(order: &OwnerOrder) -> usize
    ensures { result ≡ draft_word order.now }
{
    match order {
        OwnerOrder::Handover { .. } | OwnerOrder::Object { .. } => 2,
        _ => 1,
    }
}
