ghost use Rattle.std.specs.Prelude.{◌≡◌, ◌≢◌, ◌+◌, ◌<◌, ◌≤◌, ◌⊎◌, ℕ, None, Some, IfOk, OnOk};
ghost use Rattle.ar_base.specs.Faults.{HasRisen};
ghost use Rattle.ar_io.specs.Wrote.{Appended, AppendedFront, Unchanged};
ghost use Rattle.ar_run.specs.Answers.{written_of};
ghost use Rattle.ar_run.specs.Runs.{TakesAtMost, most_read_bytes};
ghost use Rattle.ar_run.specs.Writing.{Writes};
ghost use Rattle.script_play.specs.ar_nodes.Parties.{checks_told};
ghost use Rattle.arpki_play.specs.Program.{Answers, BreaksOff, Stops};
ghost use Rattle.script_make.specs.Script.{script};
ghost use Rattle.arpki_play.specs.declared.request.Request.TheVariants.{Make, Restart, Run};
ghost use Rattle.run_restart.specs.declared.command.Restart.{Restart as Asked};
ghost use Rattle.arpki_play.specs.Words.{request_of, texts, usage};

use crate::plays::{play_input, run_made};
use crate::request::{Domains, Request};
use ar_io::{Sink, Source};
use ar_run::{Fault, run, status, write_line, write_text};
use log_restart::Disks;
use owner_check::OwnerCheck;
use run_restart::restart_input;
use std::alloc::Global;

/// The usage line.
const USAGE: &[u8] =
    b"usage: arpki play | check | sig | make <number> [run] | restart <log> <k> | audit | follow\n";

/// The program `arpki`: it answers the words that follow its name, reads its input from `source` and
/// writes its output to `sink`. It returns the exit status.
///
/// | status | comes |
/// |---|---|
/// | 0 | `sig` finds the signature valid, `check` accepts the confirmation, of a certificate or of none, `audit` writes its report, `follow` answers each group of lines, `play` and `make <number> run` take each line of the script, `make <number>` writes it, `restart` takes each line and tells of the log |
/// | 1 | `sig` finds the signature not valid, `check` refuses the confirmation |
/// | 2 | the words are of no form: the usage line |
/// | 3 | a line of the input, or of the script that is played, is refused, the input is too long, or the log of `restart` is not honest, not there, or was asked too much |
/// | 4 | a read failed |
/// | 5 | a write failed |
/// | 6 | memory ran out |
///
/// Each of 1 to 3 comes exactly where its row says, unless one of 4 to 6 comes first.
///
/// Where a script is played, the authority with the number 0 has the first of the checks, and so on; the others are dropped.
///
/// `restart` puts the disks of its log's two runs in place of `disks`, which are else as they were.
pub fn arpki_main<C: OwnerCheck, S: Source, K: Sink>(
    alloc: Global,
    words: &[String],
    source: &mut S,
    sink: &mut K,
    checks: Vec<C>,
    disks: &mut Disks,
) -> u8
    ensures statuses { result ≤ 6 }

    // At 0 to 3 the whole answer to the input was written, and the status is the answer's.
    ensures answered { result < 4
        → Answers (checks_told C.told C.answers checks.items) (request_of (texts words.now))
        (S.left source.old) (S.left source.new) K.wrote sink.old sink.new disks.old disks.new
        result }

    // Words of no form are answered by the usage line, and nothing is read.
    ensures usage { result ≡ 2 → request_of (texts words.now) ≡ None }
    ensures no_form { request_of (texts words.now) ≡ None
        → (source.new ≡ source.old) × ((result ≡ 2) ⊎ (result ≡ 5)) }

    // A script is made, or made and played, without an input: nothing is read.
    ensures make { (domains : ℕ) → request_of (texts words.now) ≡ Some (Make domains)
        → (source.new ≡ source.old) × ((result ≡ 0) ⊎ (result ≡ 5) ⊎ (result ≡ 6)) }
    ensures run { (domains : ℕ) → request_of (texts words.now) ≡ Some (Run domains)
        → (source.new ≡ source.old) × ((result ≡ 0) ⊎ (result ≡ 3) ⊎ (result ≡ 5) ⊎ (result ≡ 6)) }

    // A fault has its cause in a count of faults, and none is hidden: at each other status the count stays.
    // Before a fault no more than a front of the answer was written; of what `play` answers, perhaps all.
    ensures source_fault { result ≡ 4 → HasRisen (S.faults source.old) (S.faults source.new)
        × Unchanged K.wrote sink.old sink.new }
    ensures sink_fault { result ≡ 5 → HasRisen (K.faults sink.old) (K.faults sink.new)
        × BreaksOff (checks_told C.told C.answers checks.items) (request_of (texts words.now))
        (S.left source.old) (S.left source.new) K.wrote sink.old sink.new disks.old disks.new }
    ensures memory { result ≡ 6
        → Stops (checks_told C.told C.answers checks.items) (request_of (texts words.now))
        (S.left source.old) (S.left source.new) K.wrote sink.old sink.new }

    // The two disks are as they were, but where a log restarted: at 0, and where its line could not be written.
    ensures disks { result ≢ 0 → result ≢ 5 → disks.new ≡ disks.old }
    ensures other_disks { ((asked : Asked) → request_of (texts words.now) ≢ Some (Restart asked))
        → disks.new ≡ disks.old }

    // What was taken before a fault: no more than an input may have, and than one byte more for want of memory.
    ensures source_taken { result ≡ 4
        → TakesAtMost most_read_bytes (S.left source.old) (S.left source.new) }
    ensures memory_taken { result ≡ 6
        → TakesAtMost (most_read_bytes + 1) (S.left source.old) (S.left source.new) }

    ensures source_uncounted { result ≢ 4 → S.faults source.new ≡ S.faults source.old }
    ensures sink_uncounted { result ≢ 5 → K.faults sink.new ≡ K.faults sink.old }

    // The counts of faults never fall.
    ensures source_faults { S.faults source.old ≤ S.faults source.new }
    ensures sink_faults { K.faults sink.old ≤ K.faults sink.new }
{
    match Request::read(words) {
        Some(Request::Answer(command)) => status(run(alloc, &command, source, sink)),
        Some(Request::Make(domains)) => status(show_script(alloc, &domains, sink)),
        Some(Request::Play) => status(play_input(alloc, checks, source, sink)),
        Some(Request::Restart(asked)) => {
            status(restart_input(alloc, checks, asked, source, sink, disks))
        }
        Some(Request::Review(review)) => status(run(alloc, &review, source, sink)),
        Some(Request::Run(domains)) => status(run_made(alloc, &domains, checks, sink)),
        None => status(show_usage(sink)),
    }
}

/// Writes the usage line, and returns its status. It takes no memory.
fn show_usage<K: Sink>(sink: &mut K) -> Result<u8, Fault>
    ensures ok { IfOk result (λ status. status ≡ usage.status) }
    ensures written { Writes K.faults K.wrote sink.old sink.new (written_of usage) result }
{
    write_line(sink, USAGE)?;
    Ok(2)
}

/// Writes the script for so many domains, each line as one piece, and returns its status. All memory is taken
/// before the first line is written.
fn show_script<K: Sink>(alloc: Global, domains: &Domains, sink: &mut K) -> Result<u8, Fault>
    ensures ok { IfOk result (λ status. status ≡ 0) }
    ensures written { OnOk result (Appended K.wrote sink.old sink.new (script domains.now)) }
    ensures sink { result ≡ Err Fault.Sink → HasRisen (K.faults sink.old) (K.faults sink.new)
        × AppendedFront K.wrote sink.old sink.new (script domains.now) }
    ensures memory { result ≡ Err Fault.Memory → Unchanged K.wrote sink.old sink.new }
    ensures no_source { result ≢ Err Fault.Source }
    ensures uncounted { result ≢ Err Fault.Sink → K.faults sink.new ≡ K.faults sink.old }
    ensures faults { K.faults sink.old ≤ K.faults sink.new }
{
    let script = domains.script(alloc)?;
    write_text(sink, &script)?;
    Ok(0)
}
