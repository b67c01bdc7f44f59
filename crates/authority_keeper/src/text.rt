//! The text of an input, as a journal has it.

ghost use Rattle.std.specs.Prelude.{◌≡◌, ◌≤◌, length, IfOk};
ghost use Rattle.ar_message.specs.Messages.{longest};
ghost use Rattle.authority_keeper.specs.Inputs.{input_in, input_text, lesson_in, retires, rolled_in, rolls, takes};
ghost use Rattle.authority_keeper.specs.Said.{IsSaid, lesson_input};

use ar_bytes::Fields;
use ar_message::LONGEST;
use ar_names::{Name, NameView};
use kept_party::KeptText;
use lms_tree::LmsPublic;
use std::alloc::{AllocError, Global};

/// What the check of an authority is told of a name and a key.
#[derive(Clone, Copy, Debug, PartialEq, Eq)]
pub(crate) enum Lesson {
    /// The name has the key.
    Learn,
    /// It has it no longer.
    Forget,
}

/// The record of a message; of one that is too long for an authority, that of its front.
pub(crate) fn record_of_message(alloc: Global, bytes: &[u8]) -> Result<KeptText, AllocError>
    ensures { IfOk result (λ made. length bytes.now ≤ longest
        → made ≡ input_text (takes bytes.now)) }
{
    KeptText::of(alloc, 1, &bytes[..bytes.len().min(LONGEST)])
}

/// The record of a roll to this key.
pub(crate) fn record_of_roll(alloc: Global, key: &LmsPublic) -> Result<KeptText, AllocError>
    ensures { IfOk result (λ made. made ≡ input_text (rolls key.now)) }
{
    KeptText::of(alloc, 2, &key.bytes())
}

/// The record of a lesson.
pub(crate) fn record_of_lesson(
    alloc: Global,
    lesson: Lesson,
    name: &Name,
    key: &[u8; 56],
) -> Result<KeptText, AllocError>
    ensures { IfOk result (λ made. made ≡ input_text (lesson_input lesson name.now key.now)) }
{
    let mut body = Vec::new(alloc);
    body.extend_from_slice(key)?;
    body.extend_from_slice(name.view().text())?;
    match lesson {
        Lesson::Learn => KeptText::of(alloc, 3, &body),
        Lesson::Forget => KeptText::of(alloc, 4, &body),
    }
}

/// The record of a retirement.
pub(crate) fn record_of_retirement(alloc: Global) -> Result<KeptText, AllocError>
    ensures { IfOk result (λ made. made ≡ input_text retires) }
{
    KeptText::of(alloc, 5, &[])
}

/// What a text of a journal says.
#[derive(Clone, Copy)]
pub(crate) enum Said<'a> {
    /// To take a message.
    Take(&'a [u8]),
    /// To go on to this key.
    Roll(LmsPublic),
    /// A lesson on a name and the text of a key.
    Lesson(Lesson, &'a [u8], &'a [u8; 56]),
    /// To retire.
    Retire,
    /// Nothing.
    Nothing,
}

/// What a text says of a lesson, behind its kind.
#[tactic(auto, unfolding(ar_bytes::specs::Reading::bytes_at))]
fn read_lesson<'a>(lesson: Lesson, bytes: &'a [u8]) -> Said<'a>
    ensures { IsSaid result (lesson_in (lesson_input lesson) bytes.now) }
{
    let mut fields = Fields::new(bytes);
    let Some(key) = fields.array::<56>() else {
        return Said::Nothing;
    };
    match NameView::of(fields.left()) {
        Some(name) => Said::Lesson(lesson, name.text(), key),
        None => Said::Nothing,
    }
}

/// What a text says of a roll, behind its kind.
fn read_roll<'a>(bytes: &'a [u8]) -> Said<'a>
    ensures { IsSaid result (rolled_in bytes.now) }
{
    match LmsPublic::read(bytes) {
        Some(key) => Said::Roll(key),
        None => Said::Nothing,
    }
}

/// What a text says.
pub(crate) fn read_text<'a>(text: &'a [u8]) -> Said<'a>
    ensures { IsSaid result (input_in text.now) }
{
    match text {
        [1, bytes @ ..] => Said::Take(bytes),
        [2, bytes @ ..] => read_roll(bytes),
        [3, bytes @ ..] => read_lesson(Lesson::Learn, bytes),
        [4, bytes @ ..] => read_lesson(Lesson::Forget, bytes),
        [5] => Said::Retire,
        _ => Said::Nothing,
    }
}
