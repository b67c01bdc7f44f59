//! The lines that are written.

ghost use Rattle.std.specs.Prelude.{◌≡◌, ◌<◌, ◌∷◌, [], None, Some, IfOk};
ghost use Rattle.script_play.specs.ar_world.declared.cause.Cause.TheVariants.{Untaken};
ghost use Rattle.run_restart.specs.Answers.{refusing, restart_line};

use crate::Restart;
use crate::ended::Ended;
use ar_run::Answer;
use ar_text::{Part, append};
use log_restart::{Disks, RestartReport};
use script_play::{Cause, WorldFault, refusal_line};
use std::alloc::{AllocError, Global};

/// `restart L<log> after <calls> recovered <many> of <inputs> signed <statements> <digest>`. The only error is want of memory.
fn restart_line(
    alloc: Global,
    restart: Restart,
    told: &RestartReport,
) -> Result<Vec<u8>, AllocError>
    ensures { IfOk result (λ line. line.items ≡ restart_line restart told.now) }
{
    let parts = [
        Part::Bytes(b"restart L"),
        Part::Number(u64::from(restart.log)),
        Part::Bytes(b" after "),
        Part::Number(restart.calls),
        Part::Bytes(b" recovered "),
        Part::Number(told.recovered),
        Part::Bytes(b" of "),
        Part::Number(told.inputs),
        Part::Bytes(b" signed "),
        Part::Number(told.signed),
        Part::Bytes(b" "),
        Part::Digest(&told.digest),
        Part::Bytes(b"\n"),
    ];
    let mut line = Vec::new(alloc);
    append(alloc, &mut line, &parts)?;
    Ok(line)
}

/// The answer of one line. The only error is want of memory.
fn one_line(alloc: Global, line: Vec<u8>, status: u8) -> Result<Answer, AllocError>
    requires { status < 4 }
    ensures { IfOk result (λ answer. answer ≡ record { lines = line.items ∷ []; status = status }) }
{
    let mut lines = Vec::new(alloc);
    lines.push(line)?;
    Ok(Answer::of(lines, status))
}

/// What comes of two runs of which this is told. The only error is want of memory.
pub(crate) fn tell(
    alloc: Global,
    restart: Restart,
    told: &RestartReport,
    disks: Disks,
) -> Result<Ended, AllocError>
    ensures answer { IfOk result (λ ended.
        ended.answer ≡ record { lines = restart_line restart told.now ∷ []; status = 0 }) }
    ensures disks { IfOk result (λ ended. ended.disks ≡ Some disks) }
{
    let line = restart_line(alloc, restart, told)?;
    Ok(Ended {
        answer: one_line(alloc, line, 0)?,
        disks: Some(disks),
    })
}

/// What comes of a line that is refused: no disk is made. The only error is want of memory.
pub(crate) fn refuse(alloc: Global, number: u64, cause: Cause) -> Result<Ended, AllocError>
    ensures answer { IfOk result (λ ended. ended.answer ≡ refusing (number, cause)) }
    ensures disks { IfOk result (λ ended. ended.disks ≡ None) }
{
    let line = refusal_line(alloc, number, cause)?;
    Ok(Ended {
        answer: one_line(alloc, line, 3)?,
        disks: None,
    })
}

/// The same, where a world does not take it.
pub(crate) fn refuse_by(alloc: Global, number: u64, fault: WorldFault) -> Result<Ended, AllocError>
    ensures answer { IfOk result (λ ended. ended.answer ≡ refusing (number, Untaken fault)) }
    ensures disks { IfOk result (λ ended. ended.disks ≡ None) }
{
    refuse(alloc, number, Cause::Untaken(fault))
}
