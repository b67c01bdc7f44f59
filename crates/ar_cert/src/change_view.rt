ghost use Rattle.std.specs.Prelude.{◌≡◌, ◌≤◌, length, map, IfOk};
ghost use Rattle.ar_bytes.specs.Reading.{Tells};
ghost use Rattle.ar_cert.specs.Changes.{consent_at, counted_endorsements_at, endorsement_from, IsEndorsement, IsSignature};
ghost use Rattle.ar_bytes.specs.Ascending.{Ascend};
ghost use Rattle.ar_cert.specs.Views.{consent_of, endorsement_of, endorsements_of};

use crate::change::{Change, Endorsement, MOST_ENDORSEMENTS};
use crate::view::CertView;
use ar_base::Items;
use ar_bytes::{Fields, are_bytes};
use std::alloc::{AllocError, Global};
use std::marker::Model;

/// An endorsement that is read in place.
#[derive(Clone, Copy, Debug)]
pub(crate) struct EndorsementView<'a> {
    authority: u16,
    signature: &'a [u8],
}

/// At most 8 endorsements that are read in place.
#[derive(Clone, Copy, Debug)]
pub(crate) struct EndorsementsView<'a> {
    /// The first of these, as many as `count` says.
    list: [EndorsementView<'a>; MOST_ENDORSEMENTS],
    count: u8,
}

/// What the key of the certificate before says, in place.
#[derive(Clone, Copy, Debug)]
pub(crate) enum ConsentView<'a> {
    /// Nothing.
    Silent,
    /// It agrees, by this signature.
    Handover(&'a [u8]),
    /// It objects, by this signature.
    Objection(&'a [u8]),
}

/// A change that is read in place: its certificate and its signatures are borrowed from the bytes that it
/// was read from.
#[derive(Debug, Drop)]
pub struct ChangeView<'a> {
    cert: CertView<'a>,
    endorsements: EndorsementsView<'a>,
    consent: ConsentView<'a>,
}

// Clauses see the change.
impl<'a> Model for ChangeView<'a> {
    ghost use Rattle.ar_cert.specs.Changes.{Change};
    ghost use Rattle.ar_cert.specs.Views.{change_of, IsChangeView};

    ghost Value = { Change };

    ghost view = { change_of };

    ghost invariant = { IsChangeView };
}

/// An endorsement by an authority whose number is not below `least`.
#[tactic(auto, unfolding(crate::specs::Changes::endorsement_from))]
fn endorsement<'a>(fields: &mut Fields<'a>, least: u32) -> Result<EndorsementView<'a>, usize>
    ensures { Tells endorsement_of result fields.new (endorsement_from least fields.old) }
{
    let authority = fields.take_number_from(least)?;
    let signature = fields.take_counted()?;
    Ok(EndorsementView {
        authority,
        signature,
    })
}

/// At most 8 endorsements by authorities whose numbers ascend strictly, behind their count.
#[tactic(auto, using(ar_bytes::proofs::Ascending::list_steps), unfolding(ar_bytes::specs::Lists::counted_list_at))]
fn endorsements<'a>(fields: &mut Fields<'a>) -> Result<EndorsementsView<'a>, usize>
    ensures tells { Tells endorsements_of result fields.new (counted_endorsements_at fields.old) }
    ensures few { IfOk result (λ endorsements. endorsements.count ≤ 8) }
    ensures len { IfOk result (λ endorsements.
        length (endorsements_of endorsements) ≡ endorsements.count) }
{
    let count = fields.take_count(MOST_ENDORSEMENTS as u8)?;
    let mut list = [EndorsementView {
        authority: 0,
        signature: &[],
    }; MOST_ENDORSEMENTS];
    let mut least = 0;
    for i in 0..count as usize {
        let next = endorsement(fields, least)?;
        least = next.authority as u32 + 1;
        list[i] = next;
    }
    Ok(EndorsementsView { list, count })
}

/// Behind so many endorsements, what the key of the certificate before says.
#[tactic(auto, unfolding(crate::specs::Changes::consent_at))]
fn consent<'a>(fields: &mut Fields<'a>, endorsed: u8) -> Result<ConsentView<'a>, usize>
    ensures { Tells consent_of result fields.new (consent_at endorsed fields.old) }
{
    let most = if endorsed == 0 { 2 } else { 1 };
    let flag = fields.take_count(most)?;
    if flag == 0 {
        return Ok(ConsentView::Silent);
    }
    let signature = fields.take_counted()?;
    if flag == 1 {
        Ok(ConsentView::Handover(signature))
    } else {
        Ok(ConsentView::Objection(signature))
    }
}

/// An endorsement as a value of its own.
fn to_endorsement(alloc: Global, endorsement: &EndorsementView) -> Result<Endorsement, AllocError>
    requires { IsSignature endorsement.now.signature.now }
    ensures { IfOk result (λ value. value ≡ endorsement_of endorsement.now) }
{
    Ok(Endorsement {
        authority: endorsement.authority,
        signature: Items::from_vec(Vec::from_slice(alloc, endorsement.signature)?),
    })
}

/// The endorsements as values of their own.
fn to_endorsements(
    alloc: Global,
    endorsements: &[EndorsementView],
) -> Result<Vec<Endorsement>, AllocError>
    requires { Ascend (λ v. v.authority) IsEndorsement 0 (map endorsement_of endorsements.now) }
    ensures { IfOk result (λ list. list.items ≡ map endorsement_of endorsements.now) }
{
    let mut list = Vec::with_capacity(alloc, endorsements.len())?;
    for endorsement in endorsements {
        list.push(to_endorsement(alloc, endorsement)?)?;
    }
    Ok(list)
}

/// A handover and an objection, as values of their own.
type Consent = (Option<Items<u8>>, Option<Items<u8>>);

/// What the key of the certificate before says, as values of their own.
fn to_consent(alloc: Global, consent: ConsentView) -> Result<Consent, AllocError>
    ensures { IfOk result (λ values. values ≡ consent_of consent.entry) }
{
    match consent {
        ConsentView::Silent => Ok((None, None)),
        ConsentView::Handover(signature) => {
            let signature = Vec::from_slice(alloc, signature)?;
            Ok((Some(Items::from_vec(signature)), None))
        }
        ConsentView::Objection(signature) => {
            let signature = Vec::from_slice(alloc, signature)?;
            Ok((None, Some(Items::from_vec(signature))))
        }
    }
}

impl<'a> ChangeView<'a> {
    ghost use Rattle.std.specs.Prelude.{◌≡◌, IfOk};
    ghost use Rattle.ar_bytes.specs.Reading.{Tells};
    ghost use Rattle.ar_cert.specs.Changes.{change_at};

    /// The change that stands next, or the place in the whole input of the field that fails. After a
    /// fault the reader is of no further use.
    #[tactic(auto, unfolding(crate::specs::Changes::change_at))]
    pub fn take(fields: &mut Fields<'a>) -> Result<ChangeView<'a>, usize>
        ensures { Tells (λ view. view) result fields.new (change_at fields.old) }
    {
        are_bytes(fields.left());
        let cert = CertView::take_counted(fields)?;
        let endorsements = endorsements(fields)?;
        let consent = consent(fields, endorsements.count)?;
        Ok(ChangeView {
            cert,
            endorsements,
            consent,
        })
    }

    /// The change as a value of its own. The one error is want of memory.
    pub fn to_change(&self, alloc: Global) -> Result<Change, AllocError>
        ensures { IfOk result (λ change. change ≡ self.now) }
    {
        let cert = self.cert.to_cert(alloc)?;
        let endorsements = &self.endorsements;
        let endorsements = to_endorsements(
            alloc,
            &endorsements.list[..endorsements.count as usize],
        )?;
        let (handover, objection) = to_consent(alloc, self.consent)?;
        Ok(Change {
            cert,
            endorsements: Items::from_vec(endorsements),
            handover,
            objection,
            handed: None,
        })
    }
}
