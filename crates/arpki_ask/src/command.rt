ghost use Rattle.std.specs.Prelude.{◌≡◌};

use crate::verdicts::refuse_long;
use crate::{inquiry, question};
use ar_run::{Answer, Respond};
use std::alloc::{AllocError, Global};

/// What the program is asked to do with its input.
#[derive(Clone, Copy, Debug, PartialEq, Eq)]
pub enum Command {
    /// `sig`: judge one signature.
    Sig,
    /// `check`: judge one confirmation, as a client.
    Check,
}

impl Command {
    ghost use Rattle.arpki_ask.specs.Commands.{command_named};

    /// The command of this name.
    pub fn of(word: &str) -> Option<Command>
        ensures { result ≡ command_named word.now }
    {
        match word {
            "sig" => Some(Command::Sig),
            "check" => Some(Command::Check),
            _ => None,
        }
    }
}

impl Respond for Command {
    ghost use Rattle.arpki_ask.specs.Answers.{answer_to};

    ghost answer_to = { answer_to };

    fn answer(&self, alloc: Global, input: &[u8]) -> Result<Answer, AllocError> {
        match self {
            Command::Sig => question::answer(alloc, input),
            Command::Check => inquiry::answer(alloc, input),
        }
    }

    fn refuse(&self, alloc: Global) -> Result<Answer, AllocError> {
        refuse_long(alloc)
    }
}
