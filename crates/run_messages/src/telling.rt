//! What is written of a script that was played.

ghost use Rattle.std.specs.Prelude.{◌≡◌, ◌++◌, IfOk, OnOk, map};
ghost use Rattle.ar_run.specs.Answers.{bytes_of};
ghost use Rattle.script_play.specs.ar_world.Records.{bytes_at};
ghost use Rattle.script_play.specs.ar_world.Run.{refused_lines};
ghost use Rattle.run_messages.specs.Telling.{IsScriptStatus, line_at, message_lines, told_of};

use crate::known::put_known;
use crate::lines::{message_line, put_line};
use ar_run::Answer;
use owner_check::OwnerCheck;
use script_play::{Cause, Played, World, refusal_line};
use std::alloc::{AllocError, Global};

/// Puts the line of the message with this number behind the others, where there is one. The only error is want of memory.
fn put_message<C: OwnerCheck>(
    alloc: Global,
    world: &World<C>,
    number: u64,
    lines: &mut Vec<Vec<u8>>,
) -> Result<(), AllocError>
    ensures { OnOk result (map bytes_of lines.new.items ≡ map bytes_of lines.old.items
        ++ line_at number (bytes_at world.now number)) }
{
    match world.message(number) {
        Some(bytes) => put_line(lines, message_line(alloc, number, bytes)?),
        None => Ok(()),
    }
}

/// Puts the lines of all messages behind the others. The only error is want of memory.
#[tactic(auto, using(crate::proofs::Behind::message_laws))]
fn put_messages<C: OwnerCheck>(
    alloc: Global,
    world: &World<C>,
    lines: &mut Vec<Vec<u8>>,
) -> Result<(), AllocError>
    ensures { OnOk result (map bytes_of lines.new.items ≡ map bytes_of lines.old.items
        ++ message_lines 1 world.now.pool) }
{
    for place in 0..world.messages() {
        put_message(alloc, world, place + 1, lines)?;
    }
    Ok(())
}

/// Puts the line that tells which line was refused behind the others, where one was. The only error is want of memory.
fn put_refusal(
    alloc: Global,
    refused: Option<(u64, Cause)>,
    lines: &mut Vec<Vec<u8>>,
) -> Result<(), AllocError>
    ensures { OnOk result (map bytes_of lines.new.items ≡ map bytes_of lines.old.items
        ++ refused_lines refused) }
{
    match refused {
        Some((number, cause)) => put_line(lines, refusal_line(alloc, number, cause)?),
        None => Ok(()),
    }
}

/// What is written of a script that was played: the keys, the messages, and the line that was refused, if one was. The only
/// error is want of memory.
#[tactic(auto, using(crate::proofs::Behind::behind_laws))]
pub(crate) fn told<C: OwnerCheck>(alloc: Global, played: &Played<C>) -> Result<Answer, AllocError>
    ensures told { IfOk result (λ answer. answer ≡ told_of played.now) }
    ensures script { IfOk result (λ answer. IsScriptStatus answer.status) }
{
    let mut lines = Vec::new(alloc);
    put_known(alloc, &played.world, &mut lines)?;
    put_messages(alloc, &played.world, &mut lines)?;
    put_refusal(alloc, played.refused, &mut lines)?;
    Ok(Answer::of(lines, played.status()))
}
