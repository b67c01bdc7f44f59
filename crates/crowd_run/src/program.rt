ghost use Rattle.std.specs.Prelude.{◌≡◌, ◌≢◌, ◌+◌, ◌<◌, ◌≤◌, ◌⊎◌, None, IfOk};
ghost use Rattle.ar_base.specs.Faults.{HasRisen};
ghost use Rattle.ar_io.specs.Wrote.{Unchanged};
ghost use Rattle.script_play.specs.ar_nodes.Parties.{checks_told};
ghost use Rattle.ar_run.specs.Answers.{written_of};
ghost use Rattle.ar_run.specs.Runs.{TakesAtMost, most_read_bytes};
ghost use Rattle.ar_run.specs.Writing.{Writes};
ghost use Rattle.crowd_run.specs.Program.{Answers, BreaksOff, Stops, request_of, texts, usage};

use crate::plays::play_input;
use crate::request::Request;
use ar_io::{Sink, Source};
use ar_run::{Fault, status, write_line};
use node_crowd::Gate;
use owner_check::OwnerCheck;
use serve_run::serve;
use std::alloc::Global;
use std::sync::Wait;
use std::thread::Threads;

/// The usage line.
const USAGE: &[u8] = b"usage: arpki_crowd crowd|serve <workers>\n";

/// Writes the usage line, and returns its status. It takes no memory.
fn show_usage<K: Sink>(sink: &mut K) -> Result<u8, Fault>
    ensures ok { IfOk result (λ status. status ≡ usage.status) }
    ensures written { Writes K.faults K.wrote sink.old sink.new (written_of usage) result }
{
    write_line(sink, USAGE)?;
    Ok(2)
}

/// The program `arpki_crowd`: it answers the words that follow its name, reads its input from `source` and writes its output to
/// `sink`. It returns the exit status. `crowd <workers>`, for 1 to 16 workers, plays a script whose bursts so many workers bring, and
/// `serve <workers>` answers the challenges of its input by so many; each worker is a thread where one can be made. `gate` is passed
/// before each delivery of a burst, which is told its place after that, and before each answer of `serve`.
///
/// | status | comes |
/// |---|---|
/// | 0 | `crowd` takes each line of the script, `serve` answers the challenges, or tells that no leaf was left |
/// | 2 | the words are of no form: the usage line |
/// | 3 | a line of the input is refused, or the input is too long |
/// | 4 | a read failed |
/// | 5 | a write failed |
/// | 6 | memory ran out |
///
/// 2 and 3 come exactly where their row says, unless one of 4 to 6 comes first.
///
/// The checks are those of the authorities of a script, in their order; the others are dropped. `crowd` waits for the locks of logs and
/// authorities, and returns if it gets them.
pub fn crowd_main<C: OwnerCheck + Send, R: Threads + Wait + Sync, S: Source, K: Sink, G: Gate>(
    rt: &R,
    alloc: Global,
    words: &[String],
    source: &mut S,
    sink: &mut K,
    checks: Vec<C>,
    gate: &G,
) -> u8
    ensures statuses { result ≤ 6 }

    // At 0 to 3 the whole answer was written, and the status is the answer's.
    ensures answered { result < 4
        → Answers (checks_told C.told C.answers checks.items) (request_of (texts words.now))
        (S.left source.old) (S.left source.new) K.wrote sink.old sink.new result }

    // Words of no form are answered by the usage line, and nothing is read.
    ensures usage { result ≡ 2 → request_of (texts words.now) ≡ None }
    ensures no_form { request_of (texts words.now) ≡ None
        → (source.new ≡ source.old) × ((result ≡ 2) ⊎ (result ≡ 5)) }

    // A fault has its cause in a count of faults, and none is hidden: at each other status the count stays. Before a fault no more
    // than a front of the answer was written; of what `crowd` answers, perhaps all.
    ensures source_fault { result ≡ 4 → HasRisen (S.faults source.old) (S.faults source.new)
        × Unchanged K.wrote sink.old sink.new }
    ensures sink_fault { result ≡ 5 → HasRisen (K.faults sink.old) (K.faults sink.new)
        × BreaksOff (checks_told C.told C.answers checks.items) (request_of (texts words.now))
        (S.left source.old) (S.left source.new) K.wrote sink.old sink.new }
    ensures memory { result ≡ 6
        → Stops (checks_told C.told C.answers checks.items) (request_of (texts words.now))
        (S.left source.old) (S.left source.new) K.wrote sink.old sink.new }

    // What was taken before a fault: no more than an input may have, and than one byte more for want of memory.
    ensures source_taken { result ≡ 4
        → TakesAtMost most_read_bytes (S.left source.old) (S.left source.new) }
    ensures memory_taken { result ≡ 6
        → TakesAtMost (most_read_bytes + 1) (S.left source.old) (S.left source.new) }

    ensures source_uncounted { result ≢ 4 → S.faults source.new ≡ S.faults source.old }
    ensures sink_uncounted { result ≢ 5 → K.faults sink.new ≡ K.faults sink.old }

    // The counts of faults never fall.
    ensures source_faults { S.faults source.old ≤ S.faults source.new }
    ensures sink_faults { K.faults sink.old ≤ K.faults sink.new }
{
    match Request::read(words) {
        Some(Request::Crowd(workers)) => {
            status(play_input(rt, alloc, gate, workers, checks, source, sink))
        }
        Some(Request::Serve(workers)) => {
            status(serve(rt, alloc, gate, usize::from(workers), source, sink))
        }
        None => status(show_usage(sink)),
    }
}
