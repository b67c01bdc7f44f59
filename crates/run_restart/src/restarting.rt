//! A log of a world restarts.

ghost use Rattle.std.specs.Prelude.{◌≡◌, ◌≤◌, ◌∷◌, [], length, IfOk};
ghost use Rattle.script_play.specs.ar_world.Finding.{log_at};
ghost use Rattle.script_play.specs.ar_world.Records.{HasParties};
ghost use Rattle.kept_journal.specs.Replays.{ReachesBy};
ghost use Rattle.run_replays.specs.log_journal.Steps.{LogStanding, takes};
ghost use Rattle.log_restart.specs.Inputs.{most_input_bytes, texts_of, total_len};
ghost use Rattle.log_restart.specs.Restarted.{AreRestarted, recovered_of, told_of};
ghost use Rattle.run_replays.specs.Inputs.{first_key_of};
ghost use Rattle.run_replays.specs.Replayed.{first_standing};
ghost use Rattle.run_restart.specs.Answers.{telling, telling_few, telling_log};
ghost use Rattle.run_restart.specs.Asking.{texts_in};
ghost use Rattle.run_restart.specs.Ending.{DidSo, EachReplayed, IsEnded};

use crate::Restart;
use crate::asking::{all_asked, inputs_of};
use crate::ended::Ended;
use crate::telling::{refuse_by, tell};
use ar_founding::make_key;
use ar_statement::Role;
use key_roll::KeyRing;
use log_core::LogInput;
use log_restart::{Beginning, Disks, RestartReport, restart, total_len};
use owner_check::OwnerCheck;
use script_play::{LogEvent, World, WorldFault};
use std::alloc::{AllocError, Global};

/// What the log with this number began with. It takes as long as a key does. The only error is want of memory.
fn beginning<C: OwnerCheck>(
    alloc: Global,
    world: &World<C>,
    log: u16,
) -> Result<Beginning, AllocError>
    requires { HasParties world.now }
    ensures directory { IfOk result (λ begins. begins.directory ≡ world.now.genesis) }
    ensures key { IfOk result (λ begins. begins.key ≡ first_key_of world.now log) }
{
    Ok(Beginning {
        directory: world.genesis().copy(alloc)?,
        key: make_key(alloc, world.setup(), Role::LogServer, log)?,
    })
}

/// A ring with the first key of the log with this number. The only error is want of memory.
fn first_ring<C: OwnerCheck>(
    alloc: Global,
    world: &World<C>,
    log: u16,
) -> Result<KeyRing, AllocError>
    ensures { IfOk result (λ ring. ring.keys ≡ first_key_of world.now log ∷ []) }
{
    let key = make_key(alloc, world.setup(), Role::LogServer, log)?;
    match KeyRing::new(alloc, key) {
        Ok(ring) => Ok(ring),
        Err((_key, error)) => Err(error),
    }
}

/// Runs the log twice, and gives what is told of it, with the disks. The only error is want of memory.
fn run_twice<C: OwnerCheck>(
    alloc: Global,
    world: &World<C>,
    asked: Restart,
    inputs: &[LogInput],
) -> Result<(RestartReport, Disks), AllocError>
    requires late { HasParties world.now }
    requires small { total_len (texts_of inputs.now) ≤ most_input_bytes }
    requires replays { (last : LogStanding)
        × ReachesBy takes (first_standing world.now asked.log) (texts_of inputs.now) last }
    ensures told { (last : LogStanding)
        → ReachesBy takes (first_standing world.now asked.log) (texts_of inputs.now) last
        → IfOk result (λ ended. ended.0
        ≡ told_of (recovered_of (length inputs.now) asked.calls)
        (length inputs.now) last.core.log.past.signed) }
    ensures disks { IfOk result (λ ended.
        AreRestarted (texts_of inputs.now) asked.calls ended.1.before ended.1.after) }
{
    let first = beginning(alloc, world, asked.log)?;
    let again = beginning(alloc, world, asked.log)?;
    let mut disks = Disks::empty(alloc);
    let told = restart(
        alloc,
        asked.log,
        first,
        again,
        inputs,
        asked.calls,
        &mut disks,
    )?;
    Ok((told, disks))
}

/// Runs the log twice through these inputs, and tells of it. The only error is want of memory.
fn restart_few<C: OwnerCheck>(
    alloc: Global,
    world: &World<C>,
    asked: Restart,
    inputs: &[LogInput],
) -> Result<Ended, AllocError>
    requires late { HasParties world.now }
    requires small { total_len (texts_of inputs.now) ≤ most_input_bytes }
    requires replays { (last : LogStanding)
        × ReachesBy takes (first_standing world.now asked.log) (texts_of inputs.now) last }
    ensures { (last : LogStanding)
        → ReachesBy takes (first_standing world.now asked.log) (texts_of inputs.now) last
        → IfOk result (IsEnded (telling asked (texts_of inputs.now) last.core.log.past.signed)
        (texts_of inputs.now) asked.calls) }
{
    let (told, disks) = run_twice(alloc, world, asked, inputs)?;
    tell(alloc, asked, &told, disks)
}

/// Runs the log twice through these inputs, unless they have too many bytes, and tells of it. The only error is want of memory.
#[tactic(auto, using(crate::proofs::Endings::few_laws))]
fn restart_by<C: OwnerCheck>(
    alloc: Global,
    world: &World<C>,
    asked: Restart,
    inputs: &[LogInput],
    behind: u64,
) -> Result<Ended, AllocError>
    requires late { HasParties world.now }
    requires replays { (last : LogStanding)
        × ReachesBy takes (first_standing world.now asked.log) (texts_of inputs.now) last }
    ensures { (last : LogStanding)
        → ReachesBy takes (first_standing world.now asked.log) (texts_of inputs.now) last
        → IfOk result (IsEnded
        (telling_few asked behind (texts_of inputs.now) last.core.log.past.signed)
        (texts_of inputs.now) asked.calls) }
{
    match total_len(inputs) {
        Some(_) => restart_few(alloc, world, asked, inputs),
        None => refuse_by(alloc, behind, WorldFault::Limit),
    }
}

/// Runs the log twice that did these things in the world, unless its inputs have too many bytes, and tells of it. The only error
/// is want of memory.
#[tactic(auto, using(crate::proofs::Endings::log_laws))]
fn restart_log<C: OwnerCheck>(
    alloc: Global,
    world: &World<C>,
    asked: Restart,
    taken: &[LogEvent],
    behind: u64,
) -> Result<Ended, AllocError>
    requires { DidSo world.now asked.log taken.now }
    ensures { IfOk result (IsEnded (telling_log asked behind world.now (log_at world.now asked.log))
        (texts_in world.now asked.log) asked.calls) }
{
    let mut ring = first_ring(alloc, world, asked.log)?;
    let all = all_asked(alloc, &mut ring, taken)?;
    let inputs = inputs_of(alloc, world, &all)?;
    restart_by(alloc, world, asked, &inputs, behind)
}

/// Runs a log of the world twice, and tells of it; one that is not there, and one with too many inputs, is refused in the line
/// with this number. The only error is want of memory.
#[tactic(auto, using(crate::proofs::Endings::there_laws))]
pub(crate) fn restart_in<C: OwnerCheck>(
    alloc: Global,
    world: &World<C>,
    asked: Restart,
    behind: u64,
) -> Result<Ended, AllocError>
    requires { EachReplayed world.now asked.log }
    ensures { IfOk result (IsEnded (telling_log asked behind world.now (log_at world.now asked.log))
        (texts_in world.now asked.log) asked.calls) }
{
    match world.taken(asked.log) {
        Some(taken) => restart_log(alloc, world, asked, taken, behind),
        None => refuse_by(alloc, behind, WorldFault::Absent(1)),
    }
}
