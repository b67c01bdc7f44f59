//! A run of the command.

ghost use Rattle.std.specs.Prelude.{◌≡◌, ◌≢◌, ◌+◌, ◌<◌, ◌≤◌, Err, IfOk, MatchOption};
ghost use Rattle.ar_base.specs.Faults.{HasRisen};
ghost use Rattle.ar_io.specs.Wrote.{Unchanged};
ghost use Rattle.script_play.specs.ar_nodes.Parties.{checks_told};
ghost use Rattle.ar_run.specs.Runs.{TakesAtMost, most_read_bytes};
ghost use Rattle.run_restart.specs.Answers.{RestartFront, RestartWhole};

use crate::Restart;
use crate::answering::restart_read;
use crate::ended::Ended;
use ar_io::{Sink, Source};
use ar_run::{Fault, read_input, write_answer};
use log_restart::Disks;
use owner_check::OwnerCheck;
use std::alloc::Global;

/// Puts the disks of the two runs in place of others, where they were made.
fn put_disks(disks: &mut Disks, made: Option<Disks>)
    ensures { MatchOption made (disks.new ≡ disks.old) (λ ours. disks.new ≡ ours) }
{
    if let Some(made) = made {
        *disks = made;
    }
}

/// Plays the input without a word, restarts one of its logs, and tells of it in one line, or of the line that is refused. It
/// returns the status, 0 or 3.
///
/// The disks of the log's two runs are put in place of those that are handed in, before the line is written; nothing else changes
/// these. The authority with the number 0 has the first of the checks, and so on; the others are dropped.
///
/// `Source` comes where a read failed, `Sink` where the write did, and `Memory` where memory ran out.
#[tactic(auto, using(crate::proofs::Played::run_laws))]
pub fn restart_input<C: OwnerCheck, S: Source, K: Sink>(
    alloc: Global,
    checks: Vec<C>,
    asked: Restart,
    source: &mut S,
    sink: &mut K,
    disks: &mut Disks,
) -> Result<u8, Fault>
    ensures ok { IfOk result (λ status.
        RestartWhole (checks_told C.told C.answers checks.items) asked
        (S.left source.old) (S.left source.new) K.wrote sink.old sink.new disks.old disks.new
        status) }
    ensures bound { IfOk result (λ status. status < 4) }
    ensures source { result ≡ Err Fault.Source
        → HasRisen (S.faults source.old) (S.faults source.new)
        × Unchanged K.wrote sink.old sink.new }
    ensures sink { result ≡ Err Fault.Sink → HasRisen (K.faults sink.old) (K.faults sink.new)
        × RestartFront (checks_told C.told C.answers checks.items) asked (S.left source.old)
        (S.left source.new)
        K.wrote sink.old sink.new disks.old disks.new }
    ensures memory { result ≡ Err Fault.Memory → Unchanged K.wrote sink.old sink.new }
    // The disks change where the status is 0, and with the sink's fault perhaps.
    ensures kept { IfOk result (λ status. status ≢ 0 → disks.new ≡ disks.old) }
    ensures source_kept { result ≡ Err Fault.Source → disks.new ≡ disks.old }
    ensures memory_kept { result ≡ Err Fault.Memory → disks.new ≡ disks.old }
    ensures source_uncounted { result ≢ Err Fault.Source
        → S.faults source.new ≡ S.faults source.old }
    ensures sink_uncounted { result ≢ Err Fault.Sink → K.faults sink.new ≡ K.faults sink.old }
    ensures source_taken { result ≡ Err Fault.Source
        → TakesAtMost most_read_bytes (S.left source.old) (S.left source.new) }
    ensures memory_taken { result ≡ Err Fault.Memory
        → TakesAtMost (most_read_bytes + 1) (S.left source.old) (S.left source.new) }
    ensures source_faults { S.faults source.old ≤ S.faults source.new }
    ensures sink_faults { K.faults sink.old ≤ K.faults sink.new }
{
    let input = read_input(alloc, source)?;
    let Ended {
        answer,
        disks: made,
    } = restart_read(alloc, checks, input, asked)?;
    put_disks(disks, made);
    write_answer(sink, &answer)?;
    Ok(answer.status())
}
