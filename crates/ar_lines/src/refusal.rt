ghost use Rattle.std.specs.Prelude.{◌≡◌, Some};
ghost use Rattle.ar_lines.specs.Refusals.{reason_text, refusal_text};
ghost use Rattle.ar_lines.specs.declared.refusal.LineFault.TheVariants as line_fault;

use std::alloc::{AllocError, AllocFailed};
use std::fmt;
use thiserror::Error;

/// Why a line is refused.
#[derive(Clone, Copy, Debug, PartialEq, Eq)]
pub enum Reason {
    /// The input is longer than it may be, or this line is one more than it may have, of all or of its kind.
    Limit,
    /// A byte of the line is none of 0x20 to 0x7e.
    Text,
    /// The line does not begin with the word that has to stand there; or, in `check`, it is one too many.
    Word,
    /// The line is missing, or has too few words or too many; or, in `sig`, it is one too many.
    Words,
    /// The word of this number, from 0, is not of its form or range.
    Field(usize),
}

impl fmt::Display for Reason {
    ghost output = { λ reason. Some (reason_text reason) };

    fn fmt<W: fmt::Write>(&self, f: &mut fmt::Formatter<W>) -> fmt::Result {
        match self {
            Reason::Limit => write!(f, "limit"),
            Reason::Text => write!(f, "text"),
            Reason::Word => write!(f, "word"),
            Reason::Words => write!(f, "words"),
            Reason::Field(k) => write!(f, "field {k}"),
        }
    }
}

/// A line that is refused.
#[derive(Clone, Copy, Debug, PartialEq, Eq)]
pub struct Refusal {
    /// Its number, from 1; 0 stands for the whole input.
    pub line: u64,
    /// The first reason that holds against the line.
    pub reason: Reason,
}

impl Refusal {
    /// The refusal of the line with this number.
    pub fn new(line: u64, reason: Reason) -> Refusal
        ensures { result ≡ record { line = line; reason = reason } }
    {
        Refusal { line, reason }
    }
}

impl fmt::Display for Refusal {
    ghost output = { λ refusal. Some (refusal_text refusal) };

    fn fmt<W: fmt::Write>(&self, f: &mut fmt::Formatter<W>) -> fmt::Result {
        write!(f, "line {}: {}", self.line, self.reason)
    }
}

/// Why an input is not read.
#[derive(Clone, Copy, Debug, PartialEq, Eq, Error)]
pub enum LineFault {
    /// A line is refused, the first one that is.
    #[error("{0}")]
    Refused(Refusal),
    /// Memory ran out.
    #[error("memory ran out")]
    Memory,
}

impl From<Refusal> for LineFault {
    ghost from_gives = { λ refusal e. e ≡ line_fault.Refused refusal };

    fn from(refusal: Refusal) -> LineFault {
        LineFault::Refused(refusal)
    }
}

impl From<AllocError> for LineFault {
    ghost from_gives = { λ _ e. e ≡ line_fault.Memory };

    fn from(_error: AllocError) -> LineFault {
        LineFault::Memory
    }
}

impl<T: Drop> From<AllocFailed<T>> for LineFault {
    ghost from_gives = { λ _ e. e ≡ line_fault.Memory };

    fn from(_error: AllocFailed<T>) -> LineFault {
        LineFault::Memory
    }
}
