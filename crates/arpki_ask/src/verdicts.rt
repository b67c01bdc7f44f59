ghost use Rattle.std.specs.Prelude.{◌≡◌, IfOk};
ghost use Rattle.ar_run.specs.Answers.{one_line};
ghost use Rattle.arpki_ask.specs.Answers.{refused_line, too_long, verdict_status, verdict_text};

use ar_lines::{Reason, Refusal};
use ar_run::Answer;
use lms_tree::Verdict;
use std::alloc::{AllocError, Global};

/// The answer that tells a verdict on a signature.
pub fn tell_verdict(alloc: Global, verdict: Verdict) -> Result<Answer, AllocError>
    ensures { IfOk result (λ answer.
        answer ≡ one_line (verdict_text verdict) (verdict_status verdict)) }
{
    match verdict {
        Verdict::Valid => Answer::one_line(alloc, b"valid".to_vec(alloc)?, 0),
        Verdict::Invalid(condition) => {
            let line = format!(in alloc; "invalid {condition}")?;
            Answer::one_line(alloc, line.into_bytes(), 1)
        }
    }
}

/// The answer that refuses a line.
pub fn refuse(alloc: Global, refusal: Refusal) -> Result<Answer, AllocError>
    ensures { IfOk result (λ answer. answer ≡ refused_line refusal) }
{
    let line = format!(in alloc; "{refusal}")?;
    Answer::one_line(alloc, line.into_bytes(), 3)
}

/// The answer to an input that is too long.
pub fn refuse_long(alloc: Global) -> Result<Answer, AllocError>
    ensures { IfOk result (λ answer. answer ≡ refused_line too_long) }
{
    let refusal = Refusal {
        line: 0,
        reason: Reason::Limit,
    };
    refuse(alloc, refusal)
}
