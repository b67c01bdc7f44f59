ghost use Rattle.std.specs.Prelude.{◌≡◌, IfOk};
ghost use Rattle.arpki_ask.specs.Answers.{judged, unless_refused};
ghost use Rattle.arpki_ask.specs.Questions.{question_at};
ghost use Rattle.ar_lines.specs.Forms.{bytes_of_hex, key_of_hex};
ghost use Rattle.ar_lines.specs.Readings.{Follows, FollowsUnless, ReadsUnless, start_of_lines, word_at};

use crate::verdicts::{refuse, tell_verdict};
use ar_lines::{LineFault, Lines, Refusal};
use ar_run::Answer;
use lms_tree::{LmsPublic, valid};
use std::alloc::{AllocError, Global};
use std::marker::Model;

/// What `sig` is asked: whether the signature of the message is valid under the key.
#[derive(Debug, Drop)]
pub struct Question {
    key: LmsPublic,
    message: Vec<u8>,
    signature: Vec<u8>,
}

// Clauses see the fields.
impl Model for Question {
    ghost use Rattle.arpki_ask.specs.Questions.{Question as Spec};

    ghost Value = { Spec };

    ghost view = { λ q. record {
      key = q.key;
      message = q.message.items;
      signature = q.signature.items;
    } };
}

/// A line with a public key.
#[tactic(auto, unfolding(ar_lines::specs::Readings::word_at))]
fn key(lines: &mut Lines) -> Result<LmsPublic, Refusal>
    ensures { Follows (λ key. key) result lines.new (word_at key_of_hex lines.old) }
{
    let word = lines.line()?;
    word.key()
}

/// A line with the hex of some bytes.
#[tactic(auto, unfolding(ar_lines::specs::Readings::word_at))]
fn bytes(alloc: Global, lines: &mut Lines) -> Result<Vec<u8>, LineFault>
    ensures { FollowsUnless (λ bytes.
        bytes.items) result lines.new (word_at bytes_of_hex lines.old) }
{
    let word = lines.line()?;
    word.bytes(alloc)
}

/// The three lines of an input.
#[tactic(auto, unfolding(crate::specs::Questions::question_at))]
fn read(alloc: Global, input: &[u8]) -> Result<Question, LineFault>
    ensures { ReadsUnless (λ question. question) result (question_at (start_of_lines input.now)) }
{
    let mut lines = Lines::new(input);
    let key = key(&mut lines)?;
    let message = bytes(alloc, &mut lines)?;
    let signature = bytes(alloc, &mut lines)?;
    lines.no_line()?;
    Ok(Question {
        key,
        message,
        signature,
    })
}

/// The answer to an input that is not too long.
pub fn answer(alloc: Global, input: &[u8]) -> Result<Answer, AllocError>
    ensures { IfOk result (λ answer.
        answer ≡ unless_refused judged (question_at (start_of_lines input.now))) }
{
    match read(alloc, input) {
        Ok(question) => {
            let verdict = valid(&question.key, &question.message, &question.signature);
            tell_verdict(alloc, verdict)
        }
        Err(LineFault::Refused(refusal)) => refuse(alloc, refusal),
        Err(LineFault::Memory) => Err(AllocError),
    }
}
