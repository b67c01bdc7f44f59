//! The text of an input, as a journal has it.

ghost use Rattle.std.specs.Prelude.{◌≡◌, IfOk};
ghost use Rattle.log_core.specs.Inputs.{input_of};
ghost use Rattle.log_journal.specs.Inputs.{IsShortInput, IsWhole, input_in, input_text};
ghost use Rattle.log_journal.specs.Said.{IsSaid};

use ar_council::key_told;
use kept_journal::KeptText;
use lms_tree::LmsPublic;
use log_core::LogInput;
use std::alloc::{AllocError, Global};

/// The most bytes of a message that a log takes.
const LONGEST: usize = 4_194_304;

/// The record of an input; of a message that is too long for a log, that of its front.
pub fn record_of_input(alloc: Global, input: &LogInput) -> Result<KeptText, AllocError>
    ensures { IfOk result (λ made.
        IsShortInput (input_of input.now) → made ≡ input_text (input_of input.now)) }
{
    match input {
        LogInput::Take(bytes) => KeptText::of(alloc, 1, &bytes[..bytes.len().min(LONGEST)]),
        LogInput::Propose => KeptText::of(alloc, 2, &[]),
        LogInput::Pass => KeptText::of(alloc, 3, &[]),
        LogInput::Roll(key) => KeptText::of(alloc, 4, &key.bytes()),
    }
}

/// Tells a proof that an input is one that a program has. It does nothing.
pub fn input_told(input: &LogInput)
    ensures { IsWhole (input_of input.now) }
{
    match input {
        LogInput::Roll(key) => key_told(key),
        _ => {}
    }
}

/// What a text of a journal says: an input, but for the key of a roll.
#[derive(Clone, Copy)]
pub enum Said<'a> {
    /// To take a message, to propose, or to state what the log did.
    Plain(LogInput<'a>),
    /// To go on to this key.
    Roll(LmsPublic),
    /// Nothing.
    Nothing,
}

/// What a text says.
pub fn read_text<'a>(text: &'a [u8]) -> Said<'a>
    ensures { IsSaid result (input_in text.now) }
{
    match text {
        [1, bytes @ ..] => Said::Plain(LogInput::Take(bytes)),
        [2] => Said::Plain(LogInput::Propose),
        [3] => Said::Plain(LogInput::Pass),
        [4, key @ ..] => match LmsPublic::read(key) {
            Some(key) => Said::Roll(key),
            None => Said::Nothing,
        },
        _ => Said::Nothing,
    }
}
