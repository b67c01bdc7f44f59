ghost use Rattle.std.specs.Prelude.{◌≡◌, ℕ, List, IfOk, string_bytes};
ghost use Rattle.lms_tree.specs.Key.{public_of};
ghost use Rattle.serve_run.specs.Answers.{key_line, reply_line, served};
ghost use Rattle.serve_run.specs.Reading.{Service};
ghost use Rattle.serve_run.specs.Serving.{serving_key};

use crate::reply::Reply;
use ar_run::Answer;
use lms_tree::LmsPublic;
use std::alloc::{AllocError, Global};

/// The line of the public key.
fn key_line(alloc: Global, key: &LmsPublic) -> Result<String, AllocError>
    ensures { (secret : List ℕ) → key.now ≡ public_of (serving_key secret)
        → IfOk result (λ line. string_bytes line ≡ key_line secret) }
{
    let text = hex::encode(alloc, key.bytes().as_slice())?;
    format!(in alloc; "key {text}\n")
}

/// The line of a reply to the challenge of this number.
fn reply_line(alloc: Global, number: usize, reply: &Reply) -> Result<String, AllocError>
    ensures { IfOk result (λ line. string_bytes line ≡ reply_line number reply.now) }
{
    match reply {
        Reply::Signed { leaf, digest } => {
            let digest = hex::encode(alloc, digest.as_slice())?;
            format!(in alloc; "answer {number} leaf {leaf} {digest}\n")
        }
        Reply::Exhausted => format!(in alloc; "answer {number} exhausted\n"),
    }
}

/// The answer: the line of the key, and those of the replies in order.
#[tactic(auto, using(crate::proofs::Printed::lines_next, crate::proofs::Printed::lines_all))]
pub(crate) fn answer(
    alloc: Global,
    key: &LmsPublic,
    replies: &[Reply],
) -> Result<Answer, AllocError>
    ensures { (service : Service) → key.now ≡ public_of (serving_key service.secret)
        → IfOk result (λ answer. answer ≡ served service replies.now) }
{
    let mut lines = Vec::new(alloc);
    lines.push(key_line(alloc, key)?.into_bytes())?;
    for number in 0..replies.len() {
        let line = reply_line(alloc, number, &replies[number])?;
        lines.push(line.into_bytes())?;
    }
    Ok(Answer::of(lines, 0))
}
