//! The commands that play a script.

ghost use Rattle.std.specs.Prelude.{◌≡◌, ◌≢◌, ◌<◌, ◌≤◌, ◌+◌, [], ◌∷◌, ℕ, List, Err, Some, IfOk, length};
ghost use Rattle.ar_base.specs.Faults.{HasRisen};
ghost use Rattle.ar_io.specs.Wrote.{Unchanged};
ghost use Rattle.ar_run.specs.Runs.{IsInput, TakesAtMost, most_read_bytes};
ghost use Rattle.script_play.specs.ar_nodes.Parties.{checks_told};
ghost use Rattle.run_restart.specs.run_safety.Headline.{IsSafeRun};
ghost use Rattle.script_make.specs.Script.{script};
ghost use Rattle.script_play.specs.Played.{IsPlayed, PlaysFront, PlaysWhole, run_with};
ghost use Rattle.arpki_play.specs.Made.{summary_line, summed};
ghost use Rattle.arpki_play.specs.Program.{RunsFront, RunsWhole, Stops, Sums};
ghost use Rattle.arpki_play.specs.declared.request.Request.TheVariants.{Play};

use crate::request::Domains;
use ar_io::{QuietSink, Sink, Source};
use ar_run::{Fault, read_input, write_line};
use ar_text::{Part, append};
use owner_check::OwnerCheck;
use script_make::last_script_epoch;
use script_play::{Counts, Played, play, refusal_line, tell_too_long};
use std::alloc::{AllocError, Global};

/// Plays a script that is not too long, and writes what happens.
#[tactic(auto, using(script_play::proofs::Inputs::short_laws))]
fn play_short<C: OwnerCheck, K: Sink>(
    alloc: Global,
    checks: Vec<C>,
    script: &[u8],
    sink: &mut K,
) -> Result<u8, Fault>
    ensures played { length script.now ≤ most_read_bytes
        → IsPlayed (run_with
        (checks_told C.told C.answers checks.items)) K.faults K.wrote sink.old sink.new
        script.now result }
    ensures bound { IfOk result (λ status. status < 4) }
{
    match play(alloc, checks, script, sink) {
        Ok(played) => Ok(played.status()),
        Err(fault) => Err(fault),
    }
}

/// Plays what is there of an input, and writes what happens, or that it is too long.
#[tactic(auto, using(crate::proofs::Played::script_laws))]
fn play_script<C: OwnerCheck, K: Sink>(
    alloc: Global,
    checks: Vec<C>,
    script: Option<Vec<u8>>,
    sink: &mut K,
) -> Result<u8, Fault>
    ensures played { (input : List ℕ) → IsInput script input
        → IsPlayed (run_with
        (checks_told C.told C.answers checks.items)) K.faults K.wrote sink.old sink.new input
        result }
    ensures bound { IfOk result (λ status. status < 4) }
{
    match script {
        Some(script) => play_short(alloc, checks, &script, sink),
        None => tell_too_long(alloc, sink),
    }
}

/// Plays the input, and writes what happens.
#[tactic(auto, using(crate::proofs::Played::input_laws))]
pub(crate) fn play_input<C: OwnerCheck, S: Source, K: Sink>(
    alloc: Global,
    checks: Vec<C>,
    source: &mut S,
    sink: &mut K,
) -> Result<u8, Fault>
    ensures ok { IfOk result (λ status.
        PlaysWhole (run_with (checks_told C.told C.answers checks.items)) IsSafeRun
        (S.left source.old) (S.left source.new) K.wrote sink.old sink.new status) }
    ensures bound { IfOk result (λ status. status < 4) }
    ensures source { result ≡ Err Fault.Source
        → HasRisen (S.faults source.old) (S.faults source.new)
        × Unchanged K.wrote sink.old sink.new }
    ensures sink { result ≡ Err Fault.Sink → HasRisen (K.faults sink.old) (K.faults sink.new)
        × PlaysFront (run_with (checks_told C.told C.answers checks.items)) IsSafeRun
        (S.left source.old) (S.left source.new)
        K.wrote sink.old sink.new }
    ensures memory { result ≡ Err Fault.Memory
        → Stops (checks_told C.told C.answers checks.items) (Some Play)
        (S.left source.old) (S.left source.new) K.wrote sink.old sink.new }
    ensures source_uncounted { result ≢ Err Fault.Source
        → S.faults source.new ≡ S.faults source.old }
    ensures sink_uncounted { result ≢ Err Fault.Sink → K.faults sink.new ≡ K.faults sink.old }
    ensures source_taken { result ≡ Err Fault.Source
        → TakesAtMost most_read_bytes (S.left source.old) (S.left source.new) }
    ensures memory_taken { result ≡ Err Fault.Memory
        → TakesAtMost (most_read_bytes + 1) (S.left source.old) (S.left source.new) }
    ensures source_faults { S.faults source.old ≤ S.faults source.new }
    ensures sink_faults { K.faults sink.old ≤ K.faults sink.new }
{
    match read_input(alloc, source) {
        Ok(script) => play_script(alloc, checks, script, sink),
        Err(fault) => Err(fault),
    }
}

/// The summary of a script for so many domains that was played to its end: how many messages there are, the judgements, and the
/// digest of all that was written of it.
fn summary_line(
    alloc: Global,
    domains: &Domains,
    messages: u64,
    counts: &Counts,
    output: &[u8; 32],
) -> Result<Vec<u8>, AllocError>
    ensures { IfOk result (λ line.
        line.items ≡ summary_line domains.now messages counts.now output.now) }
{
    let number = domains.number();
    let parts = [
        Part::Bytes(b"domains "),
        Part::Number(u64::from(number)),
        Part::Bytes(b" messages "),
        Part::Number(messages),
        Part::Bytes(b" epochs "),
        Part::Number(u64::from(last_script_epoch(number))),
        Part::Bytes(b" accepted "),
        Part::Number(counts.accepted),
        Part::Bytes(b" absent "),
        Part::Number(counts.absent),
        Part::Bytes(b" refused "),
        Part::Number(counts.refused),
        Part::Bytes(b" output "),
        Part::Digest(output),
        Part::Bytes(b"\n"),
    ];
    let mut line = Vec::new(alloc);
    append(alloc, &mut line, &parts)?;
    Ok(line)
}

/// The line that is written of a script for so many domains that was played, with the digest of all that was written of it,
/// and the status.
fn sum_up<C: OwnerCheck>(
    alloc: Global,
    domains: &Domains,
    played: &Played<C>,
    output: &[u8; 32],
) -> Result<(Vec<u8>, u8), AllocError>
    ensures told { IfOk result (λ told. summed domains.now played.now output.now played.now.refused
        ≡ record { lines = told.0.items ∷ []; status = told.1 }) }
    ensures bound { IfOk result (λ told. told.1 < 4) }
{
    match played.refused {
        Some((number, cause)) => Ok((refusal_line(alloc, number, cause)?, 3)),
        None => {
            let messages = played.world.messages();
            let line = summary_line(alloc, domains, messages, &played.counts, output)?;
            Ok((line, 0))
        }
    }
}

/// Plays a script for so many domains: the line that is written of it, and the status.
fn play_quietly<C: OwnerCheck>(
    alloc: Global,
    domains: &Domains,
    checks: Vec<C>,
    text: &[u8],
) -> Result<(Vec<u8>, u8), AllocError>
    ensures told { IfOk result
        (Sums (checks_told C.told C.answers checks.items) domains.now text.now) }
    ensures bound { IfOk result (λ told. told.1 < 4) }
{
    let mut quiet = QuietSink::new();
    match play(alloc, checks, text, &mut quiet) {
        Ok(played) => sum_up(alloc, domains, &played, &quiet.into_digest()),
        // No write to the sink failed.
        Err(_) => Err(AllocError),
    }
}

/// Plays the script for so many domains: the line that is written of it, and the status.
fn make_and_play<C: OwnerCheck>(
    alloc: Global,
    domains: &Domains,
    checks: Vec<C>,
) -> Result<(Vec<u8>, u8), AllocError>
    ensures told { IfOk result
        (Sums (checks_told C.told C.answers checks.items) domains.now (script domains.now)) }
    ensures bound { IfOk result (λ told. told.1 < 4) }
{
    let text = domains.script(alloc)?;
    play_quietly(alloc, domains, checks, &text)
}

/// Plays the script for so many domains, and writes a summary.
#[tactic(auto, using(crate::proofs::Played::made_laws))]
pub(crate) fn run_made<C: OwnerCheck, K: Sink>(
    alloc: Global,
    domains: &Domains,
    checks: Vec<C>,
    sink: &mut K,
) -> Result<u8, Fault>
    ensures ok { IfOk result (λ status.
        RunsWhole (checks_told C.told C.answers checks.items) domains.now K.wrote sink.old
        sink.new status) }
    ensures bound { IfOk result (λ status. status < 4) }
    ensures sink { result ≡ Err Fault.Sink → HasRisen (K.faults sink.old) (K.faults sink.new)
        × RunsFront (checks_told C.told C.answers checks.items) domains.now K.wrote sink.old
        sink.new }
    ensures memory { result ≡ Err Fault.Memory → Unchanged K.wrote sink.old sink.new }
    ensures no_source { result ≢ Err Fault.Source }
    ensures uncounted { result ≢ Err Fault.Sink → K.faults sink.new ≡ K.faults sink.old }
    ensures faults { K.faults sink.old ≤ K.faults sink.new }
{
    let (line, status) = make_and_play(alloc, domains, checks)?;
    write_line(sink, &line)?;
    Ok(status)
}
