ghost use Rattle.std.specs.Prelude.{◌≡◌, ◌<◌, IfOk};
ghost use Rattle.ar_run.specs.Answers.{one_line};
ghost use Rattle.arpki_ask.specs.Answers.{said_status};
ghost use Rattle.report_text.specs.Lines.{said_text};

use ar_run::Answer;
use report_text::{Said, say};
use std::alloc::{AllocError, Global};

/// The status.
fn status(said: &Said) -> u8
    ensures status { result ≡ said_status said.now }
    ensures bound { result < 4 }
{
    match said {
        Said::Accepted { .. } | Said::Absent { .. } => 0,
        Said::Refused(_) => 1,
    }
}

/// The answer that tells it.
pub fn tell_judgement(alloc: Global, said: &Said) -> Result<Answer, AllocError>
    ensures { IfOk result (λ answer.
        answer ≡ one_line (said_text said.now) (said_status said.now)) }
{
    let mut line = Vec::new(alloc);
    say(alloc, said, &mut line)?;
    Answer::one_line(alloc, line, status(said))
}
