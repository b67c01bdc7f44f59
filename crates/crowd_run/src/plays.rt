//! The command `crowd`.

ghost use Rattle.std.specs.Prelude.{◌≡◌, ◌≢◌, ◌<◌, ◌≤◌, ◌+◌, ℕ, List, Err, Some, IfOk, length};
ghost use Rattle.ar_base.specs.Faults.{HasRisen};
ghost use Rattle.ar_io.specs.Wrote.{Unchanged};
ghost use Rattle.script_play.specs.ar_nodes.Parties.{checks_told};
ghost use Rattle.ar_run.specs.Runs.{IsInput, TakesAtMost, most_read_bytes};
ghost use Rattle.crowd_run.specs.Program.{Stops};
ghost use Rattle.crowd_run.specs.Scripts.{crowd_with};
ghost use Rattle.crowd_run.specs.declared.request.Request.TheVariants.{Crowd};
ghost use Rattle.run_safety.specs.Headline.{IsSafeRun};
ghost use Rattle.script_play.specs.Played.{IsPlayed, PlaysFront, PlaysWhole};

use crate::playing::play;
use ar_io::{Sink, Source};
use ar_run::{Fault, read_input};
use node_crowd::Gate;
use owner_check::OwnerCheck;
use script_play::tell_too_long;
use std::alloc::Global;
use std::sync::Wait;
use std::thread::Threads;

/// Plays a script that is not too long, and writes what happens.
#[tactic(auto, using(script_play::proofs::Inputs::short_laws))]
fn play_short<C: OwnerCheck + Send, R: Threads + Wait + Sync, K: Sink, G: Gate>(
    rt: &R,
    alloc: Global,
    gate: &G,
    workers: u16,
    checks: Vec<C>,
    script: &[u8],
    sink: &mut K,
) -> Result<u8, Fault>
    requires workers { (0 < workers) × (workers ≤ 16) }
    ensures played { length script.now ≤ most_read_bytes
        → IsPlayed (crowd_with workers (checks_told C.told C.answers checks.items)) K.faults
        K.wrote sink.old sink.new script.now result }
    ensures bound { IfOk result (λ status. status < 4) }
{
    match play(rt, alloc, gate, workers, checks, script, sink) {
        Ok(played) => Ok(played.status()),
        Err(fault) => Err(fault),
    }
}

/// Plays what is there of an input, and writes what happens, or that it is too long.
#[tactic(auto, using(crate::proofs::Inputs::script_laws))]
fn play_script<C: OwnerCheck + Send, R: Threads + Wait + Sync, K: Sink, G: Gate>(
    rt: &R,
    alloc: Global,
    gate: &G,
    workers: u16,
    checks: Vec<C>,
    script: Option<Vec<u8>>,
    sink: &mut K,
) -> Result<u8, Fault>
    requires workers { (0 < workers) × (workers ≤ 16) }
    ensures played { (input : List ℕ) → IsInput script input
        → IsPlayed (crowd_with workers (checks_told C.told C.answers checks.items)) K.faults
        K.wrote sink.old sink.new input result }
    ensures bound { IfOk result (λ status. status < 4) }
{
    match script {
        Some(script) => play_short(rt, alloc, gate, workers, checks, &script, sink),
        None => tell_too_long(alloc, sink),
    }
}

/// Plays the input, whose bursts so many workers bring, and writes what happens.
#[tactic(auto, using(crate::proofs::Inputs::input_laws))]
pub(crate) fn play_input<
    C: OwnerCheck + Send,
    R: Threads + Wait + Sync,
    S: Source,
    K: Sink,
    G: Gate,
>(
    rt: &R,
    alloc: Global,
    gate: &G,
    workers: u16,
    checks: Vec<C>,
    source: &mut S,
    sink: &mut K,
) -> Result<u8, Fault>
    requires workers { (0 < workers) × (workers ≤ 16) }
    ensures ok { IfOk result (λ status.
        PlaysWhole (crowd_with workers (checks_told C.told C.answers checks.items)) IsSafeRun
        (S.left source.old) (S.left source.new) K.wrote sink.old sink.new status) }
    ensures bound { IfOk result (λ status. status < 4) }
    ensures source { result ≡ Err Fault.Source
        → HasRisen (S.faults source.old) (S.faults source.new)
        × Unchanged K.wrote sink.old sink.new }
    ensures sink { result ≡ Err Fault.Sink → HasRisen (K.faults sink.old) (K.faults sink.new)
        × PlaysFront (crowd_with workers (checks_told C.told C.answers checks.items)) IsSafeRun
        (S.left source.old) (S.left source.new) K.wrote sink.old sink.new }
    ensures memory { result ≡ Err Fault.Memory
        → Stops (checks_told C.told C.answers checks.items) (Some (Crowd workers))
        (S.left source.old) (S.left source.new) K.wrote sink.old sink.new }
    ensures source_uncounted { result ≢ Err Fault.Source
        → S.faults source.new ≡ S.faults source.old }
    ensures sink_uncounted { result ≢ Err Fault.Sink → K.faults sink.new ≡ K.faults sink.old }
    ensures source_taken { result ≡ Err Fault.Source
        → TakesAtMost most_read_bytes (S.left source.old) (S.left source.new) }
    ensures memory_taken { result ≡ Err Fault.Memory
        → TakesAtMost (most_read_bytes + 1) (S.left source.old) (S.left source.new) }
    ensures source_faults { S.faults source.old ≤ S.faults source.new }
    ensures sink_faults { K.faults sink.old ≤ K.faults sink.new }
{
    match read_input(alloc, source) {
        Ok(script) => play_script(rt, alloc, gate, workers, checks, script, sink),
        Err(fault) => Err(fault),
    }
}
