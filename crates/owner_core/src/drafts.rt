ghost use Rattle.std.specs.Prelude.{◌≡◌, ◌<◌, ◌^◌, IfOk, IfErr, OnErr, Ok, Err, Some, None, length, slice_get};
ghost use Rattle.std.specs.List.{list_any};
ghost use Rattle.owner_core.specs.Drafts.{begun_draft, changed_draft, endorsed, handed_over, place_of_draft, is_draft_of};
ghost use Rattle.ar_base.specs.Gives.{StepsUnless};
ghost use Rattle.owner_core.specs.declared.refusal.OwnerRefusal.TheVariants.{Memory};

use crate::draft::Draft;
use crate::refusal::OwnerRefusal;
use ar_cert::{Cert, Endorsement};
use std::alloc::{AllocError, Global};

/// The place of the draft with this digest. It looks at the drafts in order.
pub(crate) fn place_of(drafts: &[Draft], digest: &[u8]) -> Option<usize>
    ensures { result ≡ place_of_draft drafts.now digest.now }
{
    drafts.iter().position(|draft| digest == draft.digest())
}

/// Whether there is a draft with this digest.
fn has_draft(drafts: &[Draft], digest: &[u8]) -> bool
    ensures { result ≡ list_any (is_draft_of digest.now) drafts.now }
{
    drafts.iter().any(|draft| digest == draft.digest())
}

/// Makes the certificate a draft, unless there is one with its digest.
pub(crate) fn begin(alloc: Global, drafts: &mut Vec<Draft>, cert: Cert) -> Result<(), AllocError>
    ensures ok { IfOk result (λ u. drafts.new.items ≡ begun_draft drafts.old.items cert) }
    ensures err { OnErr result (drafts.new.items ≡ drafts.old.items) }
{
    if has_draft(drafts, &cert.digest()) {
        return Ok(());
    }
    drafts.push(Draft::new(alloc, cert))?;
    Ok(())
}

/// Lets the draft with this digest take an endorsement.
#[tactic(auto, using(crate::proofs::Spots::spots))]
pub(crate) fn endorse(
    drafts: &mut [Draft],
    digest: &[u8; 32],
    endorsement: Endorsement,
) -> Result<(), OwnerRefusal>
    ensures { StepsUnless Memory (λ drafts _. drafts) result drafts.old drafts.new
        (changed_draft drafts.old digest.now (endorsed endorsement)) }
{
    let Some(place) = place_of(drafts, digest) else {
        return Err(OwnerRefusal::NoDraft);
    };
    drafts[place].endorse(endorsement)
}

/// Lets the draft with this digest take a handover in place of the one that it has.
#[tactic(auto, using(crate::proofs::Spots::spots))]
pub(crate) fn attach(
    drafts: &mut [Draft],
    digest: &[u8; 32],
    handover: Vec<u8>,
) -> Result<(), OwnerRefusal>
    requires { length handover.items < 2 ^ 16 }
    ensures ok { IfOk result (λ u.
        changed_draft drafts.old digest.now (handed_over handover.items) ≡ Ok drafts.new) }
    ensures err { IfErr result (λ e.
        (drafts.new ≡ drafts.old)
        × (changed_draft drafts.old digest.now (handed_over handover.items) ≡ Err e)) }
{
    let Some(place) = place_of(drafts, digest) else {
        return Err(OwnerRefusal::NoDraft);
    };
    drafts[place].attach(handover);
    Ok(())
}
