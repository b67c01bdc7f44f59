//! The line that tells which line of a script is refused, and why.

ghost use Rattle.std.specs.Prelude.{◌≡◌, ◌<◌, IfOk};
ghost use Rattle.ar_world.specs.Run.{refused_text};
ghost use Rattle.script_play.specs.Played.{RefusesLong};
ghost use Rattle.script_play.specs.Playing.{WritesUpTo, refusal_told};

use crate::telling::tell_line;
use ar_io::Sink;
use ar_run::{Fault, write_answer};
use ar_world::Cause;
use arpki_ask::refuse_long;
use std::alloc::{AllocError, Global};

/// The line that tells that the line with this number is refused, and why, with its newline.
pub fn refusal_line(alloc: Global, number: u64, cause: Cause) -> Result<Vec<u8>, AllocError>
    ensures { IfOk result (λ line. line.items ≡ refused_text (number, cause)) }
{
    let line = format!(in alloc; "line {number}: {cause}\n")?;
    Ok(line.into_bytes())
}

/// Writes which line is refused, and why, where one is.
#[tactic(auto, using(crate::proofs::Written::written_laws))]
pub fn tell_refusal<K: Sink>(
    alloc: Global,
    sink: &mut K,
    refusal: Option<(u64, Cause)>,
) -> Result<(), Fault>
    ensures { WritesUpTo K.faults K.wrote sink.old sink.new (refusal_told refusal) result }
{
    match refusal {
        Some((number, cause)) => {
            let line = refusal_line(alloc, number, cause)?;
            tell_line(sink, &line)
        }
        None => Ok(()),
    }
}

/// Writes that an input is too long, and returns the status.
#[tactic(auto, using(crate::proofs::Inputs::refusing_laws))]
pub fn tell_too_long<K: Sink>(alloc: Global, sink: &mut K) -> Result<u8, Fault>
    ensures long { RefusesLong K.faults K.wrote sink.old sink.new result }
    ensures bound { IfOk result (λ status. status < 4) }
{
    let answer = refuse_long(alloc)?;
    write_answer(sink, &answer)?;
    Ok(3)
}
