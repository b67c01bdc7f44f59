//! The commands `sig` and `check` of the program `arpki`, as a program of its own. It makes the call that `arpki_main` makes for
//! them and stands on those crates alone which they need, so that it is built sooner than `arpki`: where that is not proved
//! yet, the script `./arpki` runs this one without its proofs.
//!
//! What it answers is in the contract of `answer`, with `specs/Answers.antt`, and in the definition `answer_to`, in the crate
//! `arpki_ask`.
#![tactic(auto)]

ghost use Rattle.std.specs.Prelude.{◌≡◌, ◌≢◌, ◌+◌, ◌<◌, ◌≤◌, ◌⊎◌, None, IfOk};
ghost use Rattle.ar_base.specs.Faults.{HasRisen};
ghost use Rattle.ar_io.specs.Wrote.{Unchanged};
ghost use Rattle.ar_run.specs.Answers.{written_of};
ghost use Rattle.ar_run.specs.Runs.{TakesAtMost, most_read_bytes};
ghost use Rattle.ar_run.specs.Writing.{Writes};
ghost use Rattle.arpki_answer.specs.Answers.{Answers, BreaksOff, command_of, texts, usage};

use ar_io::{Sink, Source, StdSink, StdSource, words};
use ar_run::{Fault, run, status, write_line};
use arpki_ask::Command;
use std::alloc::Global;
use std::process::ExitCode;

/// The usage line.
const USAGE: &[u8] = b"usage: arpki_answer check | sig\n";

/// The status where there is no memory for the words.
const OUT_OF_MEMORY: u8 = 6;

/// The command that the words name, if they are of this form.
fn asked(words: &[String]) -> Option<Command>
    ensures { result ≡ command_of (texts words.now) }
{
    match words {
        [word] => Command::of(word.as_str()),
        _ => None,
    }
}

/// Writes the usage line, and returns its status. It takes no memory.
fn show_usage<K: Sink>(sink: &mut K) -> Result<u8, Fault>
    ensures ok { IfOk result (λ status. status ≡ usage.status) }
    ensures written { Writes K.faults K.wrote sink.old sink.new (written_of usage) result }
{
    write_line(sink, USAGE)?;
    Ok(2)
}

/// Answers the words, and returns the status: that of the answer, from 0 to 3, or 4 where a read failed, 5 where a write did, and 6
/// where memory ran out. Words of no form are answered by the usage line, and nothing is read.
fn answer<S: Source, K: Sink>(alloc: Global, words: &[String], source: &mut S, sink: &mut K) -> u8
    ensures statuses { result ≤ 6 }

    // At 0 to 3 the whole answer to the input was written, and the status is the answer's.
    ensures answered { result < 4
        → Answers (command_of (texts words.now)) (S.left source.old) (S.left source.new)
        K.wrote sink.old sink.new result }
    ensures usage { result ≡ 2 → command_of (texts words.now) ≡ None }
    ensures no_form { command_of (texts words.now) ≡ None
        → (source.new ≡ source.old) × ((result ≡ 2) ⊎ (result ≡ 5)) }

    // A fault has its cause in a count of faults, and none is hidden. Before it no more than a front of the answer was written.
    ensures source_fault { result ≡ 4 → HasRisen (S.faults source.old) (S.faults source.new)
        × Unchanged K.wrote sink.old sink.new }
    ensures sink_fault { result ≡ 5 → HasRisen (K.faults sink.old) (K.faults sink.new)
        × BreaksOff (command_of (texts words.now)) (S.left source.old)
        (S.left source.new) K.wrote sink.old sink.new }
    ensures memory { result ≡ 6 → Unchanged K.wrote sink.old sink.new }
    ensures source_taken { result ≡ 4
        → TakesAtMost most_read_bytes (S.left source.old) (S.left source.new) }
    ensures memory_taken { result ≡ 6
        → TakesAtMost (most_read_bytes + 1) (S.left source.old) (S.left source.new) }
    ensures source_uncounted { result ≢ 4 → S.faults source.new ≡ S.faults source.old }
    ensures sink_uncounted { result ≢ 5 → K.faults sink.new ≡ K.faults sink.old }
{
    match asked(words) {
        Some(command) => status(run(alloc, &command, source, sink)),
        None => status(show_usage(sink)),
    }
}

fn main(rt: HostRuntime) -> ExitCode {
    let Ok(words) = words(&rt) else {
        return ExitCode::from(OUT_OF_MEMORY);
    };
    let mut source = StdSource::new(rt.stdin());
    let mut sink = StdSink::new(rt.stdout());
    ExitCode::from(answer(rt.alloc(), &words, &mut source, &mut sink))
}
