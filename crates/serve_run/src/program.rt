ghost use Rattle.std.specs.Prelude.{◌≡◌, ◌≢◌, ◌+◌, ◌<◌, ◌≤◌, ℕ, List, Err, IfOk};
ghost use Rattle.ar_base.specs.Faults.{HasRisen};
ghost use Rattle.ar_io.specs.Wrote.{Unchanged};
ghost use Rattle.ar_lines.specs.Readings.{start_of_lines};
ghost use Rattle.ar_run.specs.Runs.{IsInput, TakesAtMost, most_read_bytes};
ghost use Rattle.serve_run.specs.Answers.{IsAnswer, IsAnswerTo, ServesFront, ServesWhole};
ghost use Rattle.serve_run.specs.Reading.{service_at};

use crate::reading::Service;
use crate::serving::served;
use ar_io::{Sink, Source};
use ar_lines::LineFault;
use ar_run::{Answer, Fault, read_input, write_answer};
use arpki_ask::{refuse, refuse_long};
use node_crowd::Gate;
use std::alloc::{AllocError, Global};
use std::thread::Threads;

/// The answer of so many workers to an input that is not too long.
fn answered<R: Threads + Sync, G: Gate>(
    rt: &R,
    alloc: Global,
    gate: &G,
    workers: usize,
    input: &[u8],
) -> Result<Answer, AllocError>
    requires some { 0 < workers }
    ensures { IfOk result (λ answer.
        IsAnswerTo workers (service_at (start_of_lines input.now)) answer) }
{
    match Service::read(alloc, input) {
        Ok(service) => served(rt, alloc, gate, &service, workers),
        Err(LineFault::Refused(refusal)) => refuse(alloc, refusal),
        Err(LineFault::Memory) => Err(AllocError),
    }
}

/// The answer of so many workers to what is there of an input.
fn answer<R: Threads + Sync, G: Gate>(
    rt: &R,
    alloc: Global,
    gate: &G,
    workers: usize,
    input: Option<Vec<u8>>,
) -> Result<Answer, AllocError>
    requires some { 0 < workers }
    ensures { IfOk result (λ answer.
        (all : List ℕ) → IsInput input all → IsAnswer workers all answer) }
{
    match input {
        Some(input) => answered(rt, alloc, gate, workers, &input),
        None => refuse_long(alloc),
    }
}

/// The command `serve`: it reads its input from `source`, writes an answer of so many workers to it, each a thread where one can be
/// made, and returns the status: 0, or 3 where a line of the input is refused, or the input is too long. `gate` is passed before each
/// answer. After an error no more than a front of the answer was written.
pub fn serve<R: Threads + Sync, S: Source, K: Sink, G: Gate>(
    rt: &R,
    alloc: Global,
    gate: &G,
    workers: usize,
    source: &mut S,
    sink: &mut K,
) -> Result<u8, Fault>
    requires some { 0 < workers }
    ensures ok { IfOk result (λ status.
        ServesWhole workers (S.left source.old)
        (S.left source.new) K.wrote sink.old sink.new status) }
    ensures bound { IfOk result (λ status. status < 4) }
    ensures source { result ≡ Err Fault.Source
        → HasRisen (S.faults source.old) (S.faults source.new)
        × Unchanged K.wrote sink.old sink.new }
    ensures sink { result ≡ Err Fault.Sink → HasRisen (K.faults sink.old) (K.faults sink.new)
        × ServesFront workers (S.left source.old) (S.left source.new) K.wrote sink.old sink.new }
    ensures memory { result ≡ Err Fault.Memory → Unchanged K.wrote sink.old sink.new }
    ensures source_uncounted { result ≢ Err Fault.Source
        → S.faults source.new ≡ S.faults source.old }
    ensures sink_uncounted { result ≢ Err Fault.Sink → K.faults sink.new ≡ K.faults sink.old }
    ensures source_taken { result ≡ Err Fault.Source
        → TakesAtMost most_read_bytes (S.left source.old) (S.left source.new) }
    ensures memory_taken { result ≡ Err Fault.Memory
        → TakesAtMost (most_read_bytes + 1) (S.left source.old) (S.left source.new) }
    ensures source_faults { S.faults source.old ≤ S.faults source.new }
    ensures sink_faults { K.faults sink.old ≤ K.faults sink.new }
{
    let input = read_input(alloc, source)?;
    let answer = answer(rt, alloc, gate, workers, input)?;
    write_answer(sink, &answer)?;
    Ok(answer.status())
}
