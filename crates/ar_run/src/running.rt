ghost use Rattle.std.specs.Prelude.{◌≡◌, ◌≢◌, ◌+◌, ◌<◌, ◌≤◌, ◌++◌, length, ℕ, List, IfOk, OnErr};
ghost use Rattle.ar_base.specs.Faults.{HasRisen};
ghost use Rattle.ar_io.specs.Wrote.{Unchanged};
ghost use Rattle.ar_run.specs.Answers.{written_of};
ghost use Rattle.ar_run.specs.Runs.{Answers, BreaksOff, TakesAll, TakesAtMost, most_read_bytes};
ghost use Rattle.ar_run.specs.Writing.{Writes};

use crate::input::read_input;
use crate::{Answer, Fault, Respond};
use ar_base::position_of;
use ar_io::{Sink, Source, write_all};
use std::alloc::Global;

/// The answer of a command to all that the source has left.
/// `Source` comes where a read failed, `Memory` where memory ran out, and `Sink` never.
fn answer_from<S: Source, C: Respond>(
    alloc: Global,
    command: &C,
    source: &mut S,
) -> Result<Answer, Fault>
    ensures ok { IfOk result (λ answer.
        (input : List ℕ) × TakesAll (S.left source.old) (S.left source.new) input
        × (answer ≡ C.answer_to command.now input)) }
    ensures source { result ≡ Err Fault.Source
        → HasRisen (S.faults source.old) (S.faults source.new) }
    ensures sink { result ≢ Err Fault.Sink }
    ensures source_taken { result ≡ Err Fault.Source
        → TakesAtMost most_read_bytes (S.left source.old) (S.left source.new) }
    ensures taken { OnErr result
        (TakesAtMost (most_read_bytes + 1) (S.left source.old) (S.left source.new)) }
    ensures uncounted { result ≢ Err Fault.Source → S.faults source.new ≡ S.faults source.old }
    ensures faults { S.faults source.old ≤ S.faults source.new }
{
    let answer = match read_input(alloc, source)? {
        Some(input) => command.answer(alloc, &input)?,
        None => command.refuse(alloc)?,
    };
    Ok(answer)
}

/// Writes a line as one piece. It takes no memory.
/// The only error is `Sink`, where a write failed.
pub fn write_line<K: Sink>(sink: &mut K, line: &[u8]) -> Result<(), Fault>
    ensures { Writes K.faults K.wrote sink.old sink.new line.now result }
{
    write_all(sink, line).map_err(|_| Fault::Sink)
}

/// The first line of a text that has one, with its newline, and what stands behind it.
fn first_line(text: &[u8]) -> (&[u8], &[u8])
    requires { 0 < length text.now }
    ensures cut { text.now ≡ result.0.now ++ result.1.now }
    ensures shorter { length result.1.now < length text.now }
{
    match position_of(text, b'\n') {
        Some(newline) => text.split_at(newline + 1),
        None => (text, &[]),
    }
}

/// Writes the lines of a text, each as one piece. It takes no memory.
/// The only error is `Sink`, where a write failed.
pub fn write_text<K: Sink>(sink: &mut K, text: &[u8]) -> Result<(), Fault>
    ensures { Writes K.faults K.wrote sink.old sink.new text.now result }
{
    let mut rest = text;
    while !rest.is_empty() {
        let (line, behind) = first_line(rest);
        write_line(sink, line)?;
        rest = behind;
    }
    Ok(())
}

/// Writes the lines of an answer, each as one piece. It takes no memory.
/// The only error is `Sink`, where a write failed.
pub fn write_answer<K: Sink>(sink: &mut K, answer: &Answer) -> Result<(), Fault>
    ensures { Writes K.faults K.wrote sink.old sink.new (written_of answer.now) result }
{
    for line in answer.lines() {
        write_line(sink, line.as_slice())?;
    }
    Ok(())
}

/// Runs a command that reads an input: reads all of it, and writes the answer. It returns the status of
/// the answer.
/// `Source` comes where a read failed, `Sink` where a write did, and `Memory` where memory ran out.
pub fn run<S: Source, K: Sink, C: Respond>(
    alloc: Global,
    command: &C,
    source: &mut S,
    sink: &mut K,
) -> Result<u8, Fault>
    // The whole answer to the input was written, and the status is the answer's.
    ensures ok { IfOk result (λ status.
        Answers (C.answer_to command.now) (S.left source.old) (S.left source.new)
        K.wrote sink.old sink.new status) }
    ensures bound { IfOk result (λ status. status < 4) }

    // A fault has its cause in a count of faults, and none is hidden. Before it no more than a front of
    // the answer was written.
    ensures source { result ≡ Err Fault.Source
        → HasRisen (S.faults source.old) (S.faults source.new)
        × Unchanged K.wrote sink.old sink.new }
    ensures sink { result ≡ Err Fault.Sink → HasRisen (K.faults sink.old) (K.faults sink.new)
        × BreaksOff (C.answer_to command.now) (S.left source.old)
        (S.left source.new) K.wrote sink.old sink.new }
    ensures memory { result ≡ Err Fault.Memory → Unchanged K.wrote sink.old sink.new }
    ensures source_uncounted { result ≢ Err Fault.Source
        → S.faults source.new ≡ S.faults source.old }
    ensures sink_uncounted { result ≢ Err Fault.Sink → K.faults sink.new ≡ K.faults sink.old }

    // What was taken before a fault.
    ensures source_taken { result ≡ Err Fault.Source
        → TakesAtMost most_read_bytes (S.left source.old) (S.left source.new) }
    ensures memory_taken { result ≡ Err Fault.Memory
        → TakesAtMost (most_read_bytes + 1) (S.left source.old) (S.left source.new) }
    ensures source_faults { S.faults source.old ≤ S.faults source.new }
    ensures sink_faults { K.faults sink.old ≤ K.faults sink.new }
{
    let answer = answer_from(alloc, command, source)?;
    match write_answer(sink, &answer) {
        Ok(()) => Ok(answer.status()),
        Err(fault) => Err(fault),
    }
}

/// The status of a run, which tells whether it ended in a fault and in which: 0 to 3 of an answer, 4 to 6
/// of a fault.
pub fn status(ending: Result<u8, Fault>) -> u8
    requires { IfOk ending (λ status. status < 4) }
    ensures bound { result ≤ 6 }
    ensures answered { result < 4 → ending ≡ Ok result }
    ensures source { (result ≡ 4 → ending ≡ Err Fault.Source)
        × (ending ≡ Err Fault.Source → result ≡ 4) }
    ensures sink { (result ≡ 5 → ending ≡ Err Fault.Sink) × (ending ≡ Err Fault.Sink → result ≡ 5) }
    ensures memory { result ≡ 6 → ending ≡ Err Fault.Memory }
{
    match ending {
        Ok(status) => status,
        Err(fault) => fault.status(),
    }
}
