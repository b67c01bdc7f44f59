ghost use Rattle.std.specs.Prelude.{◌≡◌, ◌⊎◌};
ghost use Rattle.arpki_c.specs.Given.{directory_given};
ghost use Rattle.arpki_c.specs.Told.{IsUnlessMemory, connection_told, judgement_told, stapled_told};

use crate::answers::CallAnswer;
use crate::keys::{Keys, directory_of};
use crate::questions::CallQuestion;
use client_rule::judge;
use possession::{connect, connect_stapled};
use std::alloc::Global;

/// What is told of a confirmation.
fn judged(alloc: Global, keys: &Keys, question: &CallQuestion) -> CallAnswer
    ensures { IsUnlessMemory result (judgement_told (directory_given keys.now) question.now) }
{
    match directory_of(alloc, keys) {
        Ok(directory) => CallAnswer::of_judgement(&judge(
            &directory,
            question.name,
            question.confirmation,
            question.epoch,
            question.age,
        )),
        Err(fault) => CallAnswer::of_fault(fault),
    }
}

/// Judges the bytes of a confirmation of a name, in an epoch, for a client that accepts what is at most `age` epochs
/// old: writes the answer, all of it, and returns its outcome.
#[unsafe(no_mangle)]
pub extern "C" fn arpki_judge(
    alloc: Global,
    keys: &Keys,
    question: &CallQuestion,
    answer: &mut CallAnswer,
) -> u32
    ensures told { IsUnlessMemory answer.new
        (judgement_told (directory_given keys.now) question.now) }
    ensures outcome { result ≡ answer.new.outcome }
{
    *answer = judged(alloc, keys, question);
    answer.outcome
}

/// What is told of a server.
fn connected(
    alloc: Global,
    keys: &Keys,
    question: &CallQuestion,
    challenge: &[u8; 32],
    response: &[u8],
) -> CallAnswer
    ensures { IsUnlessMemory result
        (connection_told (directory_given keys.now) question.now challenge.now response.now) }
{
    match directory_of(alloc, keys) {
        Ok(directory) => CallAnswer::of_connection(&connect(
            &directory,
            question.name,
            question.confirmation,
            question.epoch,
            question.age,
            challenge,
            response,
        )),
        Err(fault) => CallAnswer::of_fault(fault),
    }
}

/// Judges a server that claims to serve a name: the confirmation that it shows, as `arpki_judge` does, and then its
/// response to the challenge. It writes the answer, all of it, and returns its outcome.
#[unsafe(no_mangle)]
pub extern "C" fn arpki_connect(
    alloc: Global,
    keys: &Keys,
    question: &CallQuestion,
    challenge: &[u8; 32],
    response: &[u8],
    answer: &mut CallAnswer,
) -> u32
    ensures told { IsUnlessMemory answer.new
        (connection_told (directory_given keys.now) question.now challenge.now response.now) }
    ensures outcome { result ≡ answer.new.outcome }
{
    *answer = connected(alloc, keys, question, challenge, response);
    answer.outcome
}

/// What is told of a server that shows a staple.
fn stapled(
    alloc: Global,
    keys: &Keys,
    question: &CallQuestion,
    channel: &[u8; 32],
    staple: &[u8],
) -> CallAnswer
    ensures { IsUnlessMemory result
        (stapled_told (directory_given keys.now) question.now channel.now staple.now) }
{
    match directory_of(alloc, keys) {
        Ok(directory) => CallAnswer::of_connection(&connect_stapled(
            &directory,
            question.name,
            question.confirmation,
            question.epoch,
            question.age,
            channel,
            staple,
        )),
        Err(fault) => CallAnswer::of_fault(fault),
    }
}

/// Judges a server that claims to serve a name: the confirmation that it shows, as `arpki_judge` does, and then its staple for the
/// TLS key of the connection. It writes the answer, all of it, and returns its outcome.
#[unsafe(no_mangle)]
pub extern "C" fn arpki_staple(
    alloc: Global,
    keys: &Keys,
    question: &CallQuestion,
    channel: &[u8; 32],
    staple: &[u8],
    answer: &mut CallAnswer,
) -> u32
    ensures told { IsUnlessMemory answer.new
        (stapled_told (directory_given keys.now) question.now channel.now staple.now) }
    ensures outcome { result ≡ answer.new.outcome }
{
    *answer = stapled(alloc, keys, question, channel, staple);
    answer.outcome
}
