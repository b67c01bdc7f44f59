ghost use Rattle.std.specs.Prelude.{◌≡◌, ◌+◌, ◌*◌, ◌/◌, length, IfOk};
ghost use Rattle.ar_bytes.specs.Reading.{Tells};
ghost use Rattle.ar_message.specs.Confirmation.{AreSteps, body_at, bottom_at, entry_at, form_at, path_at, signed_at, steps_at, subject_at};
ghost use Rattle.ar_cert.specs.Changes.{IsSignature};
ghost use Rattle.ar_names.specs.Names.{IsName};
ghost use Rattle.ar_message.specs.Views.{body_of, signed_of, subject_of};

use ar_bytes::Fields;
use ar_cert::CertView;
use ar_statement::fields::{digest, epoch, name};
use tree_proof::Bottom;

/// The bytes of a step.
const STEP_LEN: usize = 32;
/// The most steps of a path.
const MOST_STEPS: u16 = 256;

/// What a confirmation that is read in place is about.
#[derive(Clone, Copy, Debug)]
pub(crate) struct SubjectView<'a> {
    pub(crate) client: u16,
    pub(crate) epoch: u64,
    pub(crate) name: &'a [u8],
    pub(crate) root: [u8; 32],
}

/// What the table has for the name, in place.
#[derive(Debug, Drop)]
pub enum BodyView<'a> {
    /// This certificate.
    Present(CertView<'a>),
    /// None: this stands at the foot of the name's path.
    Absent(Bottom),
}

impl<'a> BodyView<'a> {
    /// The same once more; the certificate stays in the bytes that it was read from.
    pub(crate) fn copy(&self) -> BodyView<'a>
        ensures { result ≡ self.now }
    {
        match self {
            BodyView::Present(certificate) => BodyView::Present(certificate.copy()),
            BodyView::Absent(bottom) => BodyView::Absent(*bottom),
        }
    }
}

/// The number of a party, and its signature in place.
#[derive(Clone, Copy, Debug)]
pub(crate) struct SignedView<'a> {
    pub(crate) number: u16,
    pub(crate) signature: &'a [u8],
}

/// The form of a confirmation, 1 or 2: whether the name is present.
#[tactic(auto, unfolding(crate::specs::Confirmation::form_at, ar_bytes::specs::Reading::such_that))]
pub(crate) fn form(fields: &mut Fields) -> Result<bool, usize>
    ensures { Tells (λ is_present. is_present) result fields.new (form_at fields.old) }
{
    let place = fields.place();
    match fields.take_u8()? {
        1 => Ok(true),
        2 => Ok(false),
        _ => Err(place),
    }
}

/// What a confirmation is about.
#[tactic(auto, unfolding(crate::specs::Confirmation::subject_at))]
pub(crate) fn subject<'a>(fields: &mut Fields<'a>) -> Result<SubjectView<'a>, usize>
    ensures tells { Tells subject_of result fields.new (subject_at fields.old) }
    ensures name { IfOk result (λ subject. IsName subject.name.now) }
{
    let client = fields.take_u16()?;
    let epoch = epoch(fields)?;
    let name = name(fields)?.text();
    let root = digest(fields)?;
    Ok(SubjectView {
        client,
        epoch,
        name,
        root,
    })
}

/// The key and the value of an entry.
#[tactic(auto, unfolding(crate::specs::Confirmation::entry_at))]
fn entry(fields: &mut Fields) -> Result<Bottom, usize>
    ensures { Tells (λ bottom. bottom) result fields.new (entry_at fields.old) }
{
    let key = digest(fields)?;
    let value = digest(fields)?;
    Ok(Bottom::Other { key, value })
}

/// A flag, and for 1 the entry of another key.
#[tactic(auto, unfolding(crate::specs::Confirmation::bottom_at))]
fn bottom(fields: &mut Fields) -> Result<Bottom, usize>
    ensures { Tells (λ bottom. bottom) result fields.new (bottom_at fields.old) }
{
    if fields.take_flag()? {
        entry(fields)
    } else {
        Ok(Bottom::Empty)
    }
}

/// What the table has for the name.
#[tactic(auto, unfolding(crate::specs::Confirmation::body_at))]
pub(crate) fn body<'a>(fields: &mut Fields<'a>, is_present: bool) -> Result<BodyView<'a>, usize>
    ensures { Tells body_of result fields.new (body_at is_present fields.old) }
{
    if is_present {
        let certificate = CertView::take_counted(fields)?;
        Ok(BodyView::Present(certificate))
    } else {
        let bottom = bottom(fields)?;
        Ok(BodyView::Absent(bottom))
    }
}

/// The place of the first step for which too few bytes are left.
#[tactic(auto, using(crate::proofs::StepPlaces::step_moves))]
fn cut_step(fields: &mut Fields) -> usize
    ensures { result ≡ fields.old.place + 32 * (length fields.old.ahead / 32) }
{
    while fields.bytes(STEP_LEN).is_some() {}
    fields.place()
}

/// So many steps.
#[tactic(auto, unfolding(crate::specs::Confirmation::steps_at, ar_bytes::specs::Reading::bytes_at))]
fn steps<'a>(fields: &mut Fields<'a>, count: u16) -> Result<&'a [u8], usize>
    ensures tells { Tells (λ steps. steps.now) result fields.new (steps_at count fields.old) }
    ensures len { IfOk result (λ steps. length steps.now ≡ 32 * count) }
{
    match fields.bytes(STEP_LEN * count as usize) {
        Some(steps) => Ok(steps),
        None => Err(cut_step(fields)),
    }
}

/// At most 256 steps behind their count.
#[tactic(auto, unfolding(crate::specs::Confirmation::path_at, ar_bytes::specs::Reading::such_that))]
pub(crate) fn path<'a>(fields: &mut Fields<'a>) -> Result<&'a [u8], usize>
    ensures tells { Tells (λ steps. steps.now) result fields.new (path_at fields.old) }
    ensures steps { IfOk result (λ steps. AreSteps steps.now) }
{
    let place = fields.place();
    let count = fields.take_u16()?;
    if count > MOST_STEPS {
        return Err(place);
    }
    steps(fields, count)
}

/// A party's number and its signature.
#[tactic(auto, unfolding(crate::specs::Confirmation::signed_at))]
pub(crate) fn signed<'a>(fields: &mut Fields<'a>) -> Result<SignedView<'a>, usize>
    ensures tells { Tells signed_of result fields.new (signed_at fields.old) }
    ensures few { IfOk result (λ signed. IsSignature signed.signature.now) }
{
    let number = fields.take_u16()?;
    let signature = fields.take_counted()?;
    Ok(SignedView { number, signature })
}
