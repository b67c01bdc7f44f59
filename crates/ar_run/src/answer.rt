ghost use Rattle.std.specs.Prelude.{◌≡◌, ◌<◌, IfOk, map};
ghost use Rattle.ar_run.specs.Answers.{bytes_of, one_line};

use std::alloc::{AllocError, Global};
use std::marker::Model;

/// What a command answers, where nothing fails: the lines that are written, and a status from 0 to 3.
#[derive(Debug, Drop)]
pub struct Answer {
    lines: Vec<Vec<u8>>,
    status: u8,
}

// Clauses see the bytes of the lines, each with its newline, and the status.
impl Model for Answer {
    ghost use Rattle.std.specs.Prelude.{◌<◌, map};
    ghost use Rattle.ar_run.specs.Answers.{Answer as Spec, bytes_of};

    ghost Value = { Spec };

    ghost view = { λ a. record { lines = map bytes_of a.lines.items; status = a.status } };

    ghost invariant = { λ a. a.status < 4 };
}

impl Answer {
    /// The answer of one line, which is given without its newline.
    /// The only error is want of memory.
    pub fn one_line(alloc: Global, text: Vec<u8>, status: u8) -> Result<Answer, AllocError>
        requires { status < 4 }
        ensures { IfOk result (λ answer. answer ≡ one_line text.items status) }
    {
        let mut line = text;
        line.push(b'\n')?;
        let mut lines = Vec::new(alloc);
        lines.push(line)?;
        Ok(Answer { lines, status })
    }

    /// The answer of these lines, each of which is given with its newline. It takes no memory.
    pub fn of(lines: Vec<Vec<u8>>, status: u8) -> Answer
        requires { status < 4 }
        ensures { result ≡ record { lines = map bytes_of lines.items; status = status } }
    {
        Answer { lines, status }
    }

    /// The lines that are written, each with its newline.
    pub fn lines(&self) -> &[Vec<u8>]
        ensures { map bytes_of result.now ≡ self.now.lines }
    {
        self.lines.as_slice()
    }

    /// The status.
    pub fn status(&self) -> u8
        ensures status { result ≡ self.now.status }
        ensures bound { result < 4 }
    {
        self.status
    }
}
