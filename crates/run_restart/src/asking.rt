//! What a log of a world was asked, to be asked again.

ghost use Rattle.std.specs.Prelude.{◌≡◌, map, IfOk};
ghost use Rattle.script_play.specs.ar_nodes.Acting.{bytes_of};
ghost use Rattle.script_play.specs.ar_nodes.Pool.{numbered};
ghost use Rattle.key_roll.specs.Ring.{next_key};
ghost use Rattle.lms_tree.specs.Key.{public_of};
ghost use Rattle.lms_tree.specs.KeyParts.{KeyParts};
ghost use Rattle.log_core.specs.Inputs.{input_of};
ghost use Rattle.run_replays.specs.Inputs.{newest_behind};
ghost use Rattle.run_replays.specs.Replayed.{IsNewestKey};
ghost use Rattle.run_restart.specs.Asking.{asked_from, asked_of, input_in};

use key_roll::KeyRing;
use lms_tree::LmsPublic;
use log_core::LogInput;
use owner_check::OwnerCheck;
use script_play::{LogEvent, World};
use std::alloc::{AllocError, Global};

/// What a log was asked, with the keys to which it went on.
#[derive(Clone, Copy, Debug, PartialEq, Eq)]
pub(crate) enum Asked {
    /// To take the message with this number.
    Take(u64),
    /// To propose.
    Propose,
    /// To state what it did in the epoch.
    Pass,
    /// To go on to this key.
    Roll(LmsPublic),
}

/// Makes the next key of a ring, and adds it. It takes as long as a key does. The only error is want of memory.
#[tactic(auto, using(crate::proofs::Inputs::key_laws))]
fn go_on(alloc: Global, ring: &mut KeyRing) -> Result<LmsPublic, AllocError>
    ensures { IfOk result (λ public. (newest : KeyParts) → IsNewestKey ring.old.keys newest
        → (public ≡ public_of (next_key newest)) × IsNewestKey ring.new.keys (next_key newest)) }
{
    let key = ring.next(alloc)?;
    let public = key.public();
    match ring.add(alloc, key) {
        Ok(()) => Ok(public),
        Err((_key, error)) => Err(error),
    }
}

/// What a log with these keys was asked where this happened; its keys are then those behind it. The only error is want of
/// memory.
fn asked_of(alloc: Global, ring: &mut KeyRing, event: LogEvent) -> Result<Asked, AllocError>
    ensures { IfOk result (λ asked. (newest : KeyParts) → IsNewestKey ring.old.keys newest
        → (asked ≡ asked_of newest event)
        × IsNewestKey ring.new.keys (newest_behind newest event)) }
{
    match event {
        LogEvent::Take(message) => Ok(Asked::Take(message)),
        LogEvent::Propose => Ok(Asked::Propose),
        LogEvent::Pass => Ok(Asked::Pass),
        LogEvent::Roll => Ok(Asked::Roll(go_on(alloc, ring)?)),
    }
}

/// What a log that began with the key of this ring was asked where these things happened, in order. The only error is want of
/// memory.
#[tactic(auto, using(crate::proofs::Inputs::asked_laws))]
pub(crate) fn all_asked(
    alloc: Global,
    ring: &mut KeyRing,
    events: &[LogEvent],
) -> Result<Vec<Asked>, AllocError>
    ensures { IfOk result (λ asked. (newest : KeyParts) → IsNewestKey ring.old.keys newest
        → asked.items ≡ asked_from newest events.now) }
{
    let mut asked = Vec::new(alloc);
    for event in events {
        let one = asked_of(alloc, ring, *event)?;
        asked.push(one)?;
    }
    Ok(asked)
}

/// The bytes of a message of a world's pool, of which the first has the number 1; none where there is no such message.
fn bytes_of<C: OwnerCheck>(world: &World<C>, number: u64) -> &[u8]
    ensures { result.now ≡ bytes_of (numbered world.now.pool number) }
{
    match world.message(number) {
        Some(bytes) => bytes,
        None => &[],
    }
}

/// The same as an input of a log.
fn input_of<'a, C: OwnerCheck>(world: &'a World<C>, asked: &'a Asked) -> LogInput<'a>
    ensures { input_of result ≡ input_in world.now.pool asked.now }
{
    match asked {
        Asked::Take(message) => LogInput::Take(bytes_of(world, *message)),
        Asked::Propose => LogInput::Propose,
        Asked::Pass => LogInput::Pass,
        Asked::Roll(key) => LogInput::Roll(key),
    }
}

/// The same of all of them. The only error is want of memory.
pub(crate) fn inputs_of<'a, C: OwnerCheck>(
    alloc: Global,
    world: &'a World<C>,
    asked: &'a [Asked],
) -> Result<Vec<LogInput<'a>>, AllocError>
    ensures { IfOk result (λ inputs.
        map input_of inputs.items ≡ map (input_in world.now.pool) asked.now) }
{
    let mut inputs = Vec::new(alloc);
    for one in asked {
        let input = input_of(world, one);
        inputs.push(input)?;
    }
    Ok(inputs)
}
