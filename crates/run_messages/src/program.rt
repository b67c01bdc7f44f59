ghost use Rattle.std.specs.Prelude.{◌≡◌, ◌≢◌, ◌+◌, ◌<◌, ◌≤◌, ◌⊎◌, ℕ, List, Err, false, true, IfOk};
ghost use Rattle.ar_base.specs.Faults.{HasRisen};
ghost use Rattle.ar_io.specs.Wrote.{Unchanged};
ghost use Rattle.script_play.specs.ar_nodes.Parties.{checks_told};
ghost use Rattle.ar_run.specs.Answers.{written_of};
ghost use Rattle.ar_run.specs.Runs.{IsInput, TakesAtMost, most_read_bytes};
ghost use Rattle.ar_run.specs.Writing.{Writes};
ghost use Rattle.run_messages.specs.Telling.{IsScriptStatus};
ghost use Rattle.run_messages.specs.Answers.{Answers, BreaksOff, IsAnswer, IsToldOf, TellsFront, TellsWhole, is_form, usage};

use crate::telling::told;
use ar_io::{QuietSink, Sink, Source};
use ar_run::{Answer, Fault, read_input, status, write_answer, write_line};
use arpki_ask::refuse_long;
use owner_check::OwnerCheck;
use script_play::play;
use std::alloc::{AllocError, Global};

/// The usage line.
const USAGE: &[u8] = b"usage: arpki_messages\n";

/// Whether the words are of form: there are none.
fn is_form(words: &[String]) -> bool
    ensures { result ≡ is_form words.now }
{
    match words {
        [] => true,
        _ => false,
    }
}

/// What is told of a script that is played.
#[tactic(auto, using(crate::proofs::Played::played_laws))]
fn play_script<C: OwnerCheck>(
    alloc: Global,
    checks: Vec<C>,
    script: &[u8],
) -> Result<Answer, AllocError>
    ensures told { IfOk result (IsToldOf (checks_told C.told C.answers checks.items) script.now) }
    ensures script { IfOk result (λ answer. IsScriptStatus answer.status) }
{
    let mut quiet = QuietSink::new();
    match play(alloc, checks, script, &mut quiet) {
        Ok(played) => told(alloc, &played),
        // No write to the sink failed.
        Err(_) => Err(AllocError),
    }
}

/// The answer to what is there of an input.
fn answer<C: OwnerCheck>(
    alloc: Global,
    checks: Vec<C>,
    input: Option<Vec<u8>>,
) -> Result<Answer, AllocError>
    ensures told { IfOk result (λ answer.
        (all : List ℕ) → IsInput input all
        → IsAnswer (checks_told C.told C.answers checks.items) all answer) }
    ensures script { IfOk result (λ answer. IsScriptStatus answer.status) }
{
    match input {
        Some(script) => play_script(alloc, checks, &script),
        None => refuse_long(alloc),
    }
}

/// Reads a script, plays it, writes what is told of its run, and returns the status.
fn tell<C: OwnerCheck, S: Source, K: Sink>(
    alloc: Global,
    checks: Vec<C>,
    source: &mut S,
    sink: &mut K,
) -> Result<u8, Fault>
    ensures ok { IfOk result (λ status.
        TellsWhole (checks_told C.told C.answers checks.items) (S.left source.old)
        (S.left source.new)
        K.wrote sink.old sink.new status) }
    ensures bound { IfOk result (λ status. status < 4) }
    ensures script { IfOk result IsScriptStatus }
    ensures source { result ≡ Err Fault.Source
        → HasRisen (S.faults source.old) (S.faults source.new)
        × Unchanged K.wrote sink.old sink.new }
    ensures sink { result ≡ Err Fault.Sink → HasRisen (K.faults sink.old) (K.faults sink.new)
        × TellsFront (checks_told C.told C.answers checks.items) (S.left source.old)
        (S.left source.new) K.wrote sink.old sink.new }
    ensures memory { result ≡ Err Fault.Memory → Unchanged K.wrote sink.old sink.new }
    ensures source_uncounted { result ≢ Err Fault.Source
        → S.faults source.new ≡ S.faults source.old }
    ensures sink_uncounted { result ≢ Err Fault.Sink → K.faults sink.new ≡ K.faults sink.old }
    ensures source_taken { result ≡ Err Fault.Source
        → TakesAtMost most_read_bytes (S.left source.old) (S.left source.new) }
    ensures memory_taken { result ≡ Err Fault.Memory
        → TakesAtMost (most_read_bytes + 1) (S.left source.old) (S.left source.new) }
    ensures source_faults { S.faults source.old ≤ S.faults source.new }
    ensures sink_faults { K.faults sink.old ≤ K.faults sink.new }
{
    let input = read_input(alloc, source)?;
    let answer = answer(alloc, checks, input)?;
    write_answer(sink, &answer)?;
    Ok(answer.status())
}

/// Writes the usage line, and returns its status. It takes no memory.
fn show_usage<K: Sink>(sink: &mut K) -> Result<u8, Fault>
    ensures ok { IfOk result (λ status. status ≡ usage.status) }
    ensures written { Writes K.faults K.wrote sink.old sink.new (written_of usage) result }
{
    write_line(sink, USAGE)?;
    Ok(2)
}

/// The program `arpki_messages`: it plays the script that it reads from `source`, and writes to `sink` the first keys of its
/// parties and its messages by number. It takes no words, and returns the exit status.
///
/// | status | comes |
/// |---|---|
/// | 0 | each line of the script is taken |
/// | 2 | there are words: the usage line |
/// | 3 | a line of the script is refused, or the input is too long |
/// | 4 | a read failed |
/// | 5 | a write failed |
/// | 6 | memory ran out |
///
/// Each of 2 and 3 comes exactly where its row says, unless one of 4 to 6 comes first. Where a line is refused, what is written
/// is of the run before it, and the line that tells so is the last.
///
/// The authority with the number 0 has the first of the checks, and so on; the others are dropped.
pub fn messages_main<C: OwnerCheck, S: Source, K: Sink>(
    alloc: Global,
    words: &[String],
    source: &mut S,
    sink: &mut K,
    checks: Vec<C>,
) -> u8
    ensures statuses { result ≤ 6 }

    // At 0 to 3 the whole answer was written, and the status is the answer's.
    ensures answered { result < 4
        → Answers (is_form words.now) (checks_told C.told C.answers checks.items)
        (S.left source.old) (S.left source.new) K.wrote sink.old sink.new result }

    // Words are answered by the usage line, and nothing is read.
    ensures usage { result ≡ 2 → is_form words.now ≡ false }
    ensures no_form { is_form words.now ≡ false
        → (source.new ≡ source.old) × ((result ≡ 2) ⊎ (result ≡ 5)) }

    // A fault has its cause in a count of faults, and none is hidden: at each other status the count stays. Before a fault no more
    // than a front of the answer was written.
    ensures source_fault { result ≡ 4 → HasRisen (S.faults source.old) (S.faults source.new)
        × Unchanged K.wrote sink.old sink.new }
    ensures sink_fault { result ≡ 5 → HasRisen (K.faults sink.old) (K.faults sink.new)
        × BreaksOff (is_form words.now) (checks_told C.told C.answers checks.items)
        (S.left source.old) (S.left source.new) K.wrote sink.old sink.new }
    ensures memory { result ≡ 6 → Unchanged K.wrote sink.old sink.new }

    // What was taken before a fault: no more than an input may have, and than one byte more for want of memory.
    ensures source_taken { result ≡ 4
        → TakesAtMost most_read_bytes (S.left source.old) (S.left source.new) }
    ensures memory_taken { result ≡ 6
        → TakesAtMost (most_read_bytes + 1) (S.left source.old) (S.left source.new) }

    ensures source_uncounted { result ≢ 4 → S.faults source.new ≡ S.faults source.old }
    ensures sink_uncounted { result ≢ 5 → K.faults sink.new ≡ K.faults sink.old }

    // The counts of faults never fall.
    ensures source_faults { S.faults source.old ≤ S.faults source.new }
    ensures sink_faults { K.faults sink.old ≤ K.faults sink.new }
{
    if is_form(words) {
        status(tell(alloc, checks, source, sink))
    } else {
        status(show_usage(sink))
    }
}
