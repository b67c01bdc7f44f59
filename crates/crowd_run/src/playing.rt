//! A script with bursts, from its first line to its last.

ghost use Rattle.std.specs.Prelude.{◌≡◌, ◌<◌, ◌≤◌, None};
ghost use Rattle.ar_lines.specs.Lines.{lines_of};
ghost use Rattle.script_play.specs.ar_nodes.Parties.{checks_told};
ghost use Rattle.script_play.specs.ar_world.State.{World};
ghost use Rattle.crowd_run.specs.Scripts.{crowd_from, crowd_with, script_end};
ghost use Rattle.script_play.specs.Played.{Plays};
ghost use Rattle.script_play.specs.Playing.{PlaysAll, PlaysSome};

use crate::lines::{OpenBurst, take_read};
use ar_io::Sink;
use ar_lines::Lines;
use ar_run::Fault;
use node_crowd::Gate;
use owner_check::OwnerCheck;
use script_play::{Cause, Played, Stage, WorldFault, read_line, tell_refusal};
use std::alloc::Global;
use std::sync::Wait;
use std::thread::Threads;

/// Behind the last line no burst may be open.
fn script_end(number: u64, burst: &OpenBurst) -> Option<(u64, Cause)>
    ensures { (w : World) → result ≡ (script_end number w burst.now).refused }
{
    match burst {
        Some(_) => Some((number, Cause::Untaken(WorldFault::Order))),
        None => None,
    }
}

/// Takes the lines, one after the other, until one is refused: its number, and why.
fn take_lines<C: OwnerCheck + Send, R: Threads + Wait + Sync, K: Sink, G: Gate>(
    rt: &R,
    alloc: Global,
    gate: &G,
    workers: u16,
    sink: &mut K,
    stage: &mut Stage<C>,
    lines: &mut Lines,
) -> Result<Option<(u64, Cause)>, Fault>
    requires workers { (0 < workers) × (workers ≤ 16) }
    ensures { PlaysSome K.faults K.wrote sink.old sink.new stage.old stage.new
        (crowd_from workers lines.old.next stage.old.world None lines.old.ahead) result }
{
    let mut burst = None;
    loop {
        let line = match lines.line() {
            Ok(line) => line,
            Err(refusal) => return Ok(script_end(refusal.line, &burst)),
        };
        let number = line.line();
        let read = read_line(number, line.text());
        if let Some(cause) = take_read(rt, alloc, gate, workers, sink, stage, &mut burst, read)? {
            return Ok(Some((number, cause)));
        }
    }
}

/// Takes the lines of an input, and tells which is refused, and why, if one is.
fn take_all<C: OwnerCheck + Send, R: Threads + Wait + Sync, K: Sink, G: Gate>(
    rt: &R,
    alloc: Global,
    gate: &G,
    workers: u16,
    sink: &mut K,
    stage: &mut Stage<C>,
    input: &[u8],
) -> Result<Option<(u64, Cause)>, Fault>
    requires workers { (0 < workers) × (workers ≤ 16) }
    ensures { PlaysAll K.faults K.wrote sink.old sink.new stage.old stage.new
        (crowd_from workers 1 stage.old.world None (lines_of input.now)) result }
{
    let refusal = take_lines(
        rt,
        alloc,
        gate,
        workers,
        sink,
        stage,
        &mut Lines::new(input),
    )?;
    tell_refusal(alloc, sink, refusal)?;
    Ok(refusal)
}

/// Plays a script with bursts, which so many workers bring.
pub(crate) fn play<C: OwnerCheck + Send, R: Threads + Wait + Sync, K: Sink, G: Gate>(
    rt: &R,
    alloc: Global,
    gate: &G,
    workers: u16,
    checks: Vec<C>,
    input: &[u8],
    sink: &mut K,
) -> Result<Played<C>, Fault>
    requires workers { (0 < workers) × (workers ≤ 16) }
    ensures { Plays (crowd_with workers (checks_told C.told C.answers checks.items))
        K.faults K.wrote sink.old sink.new input.now result }
{
    let mut stage = Stage::begin(alloc, checks);
    match take_all(rt, alloc, gate, workers, sink, &mut stage, input) {
        Ok(refused) => {
            let Stage { world, counts } = stage;
            Ok(Played {
                world,
                counts,
                refused,
            })
        }
        Err(fault) => Err(fault),
    }
}
