//! A party is opened by its journal, and answers lines.

ghost use Rattle.std.specs.Prelude.{◌≡◌, ◌≢◌, ◌⊎◌, ℕ, List, Err, IfOk, IfErr, OnErr, false};
ghost use Rattle.ar_base.specs.Faults.{HasRisen};
ghost use Rattle.desk_run.specs.Answers.{AnswersLine};
ghost use Rattle.desk_run.specs.Opened.{HasCause, HasRun, LeavesRun};
ghost use Rattle.kept_disk.specs.Moments.{LeavesOnly};
ghost use Rattle.kept_journal.specs.Journal.{IsAsBefore, IsNoJournal, Stands};
ghost use Rattle.kept_journal.specs.Replays.{IsBad};
ghost use Rattle.kept_party.specs.Taking.{Becomes};

use crate::serving::answer_all;
use crate::stop::Stop;
use ar_io::{Sink, Source};
use kept_disk::Disk;
use kept_party::{KeptParty, OpenFault};
use party_desk::LineParty;
use std::alloc::Global;

/// Tells a proof what a crash leaves of a party whose run ended so. It does nothing.
fn told<D: LineParty, K: Disk>(kept: &KeptParty<D, K>, ended: Result<(), Stop>)
    requires { ended ≢ Err Stop.Disk → kept.now.journal.stopped ≡ false }
    ensures { ended ≢ Err Stop.Disk → (c : List ℕ) → K.may_leave kept.now.journal.disk c
        → Stands kept.now.journal.mark kept.now.journal.texts c }
{
    match ended {
        Err(Stop::Disk) => {}
        _ => kept.told(),
    }
}

/// Opens a party that has done nothing yet by the journal on a disk, which belongs to this mark, and has it answer the lines of a
/// source until they end (`answer_all`): the party, and why it stopped, where it did.
///
/// Where the journal is not opened, nothing is read or written, and the disk comes back with the reason.
pub fn open_and_answer<D: LineParty, K: Disk, S: Source, W: Sink>(
    alloc: Global,
    mark: &[u8; 8],
    party: D,
    disk: K,
    source: &mut S,
    sink: &mut W,
) -> Result<(KeptParty<D, K>, Result<(), Stop>), (K, OpenFault)>
    // The file stood for its texts, so it is neither of `not_journal` nor of `bad`, and the party is what they make of the new
    // one. What was written is what it had replied to the last of them and the answer to each line, in order, and its journal has
    // behind those texts what the lines asked; where it stops, a front of the lines was answered.
    ensures run { IfOk result (λ run. HasRun D.takes
        (AnswersLine D.asked D.says D.takes D.tells D.refuses D.sent_text D.told_text
        D.refused_text) D.sent_text W.wrote K.held mark.now (K.seen disk) party run.0 run.1
        (S.left source.old) (S.left source.new) sink.old sink.new) }
    // What its file is then.
    ensures durable { IfOk result (λ run. run.1 ≢ Err Stop.Disk
        → (c : List ℕ) → K.may_leave run.0.journal.disk c
        → Stands mark.now run.0.journal.texts c) }
    // A crash at any moment leaves what a crash before might have left, or a file that stands for the texts from before and
    // those of a front of the lines, perhaps with that of the next.
    ensures any_moment { IfOk result (λ run.
        LeavesOnly K.moment K.left_since disk run.0.journal.disk
        (λ c. K.may_leave disk c ⊎ LeavesRun D.takes
        (AnswersLine D.asked D.says D.takes D.tells D.refuses D.sent_text D.told_text
        D.refused_text) D.asked D.says mark.now (K.seen disk) party (S.left source.old)
        (S.left source.new) c)) }
    // When each stop comes, and that nothing else failed.
    ensures cause { IfOk result (λ run. HasCause run.1
        (record { disk = K.faults disk; source = S.faults source.old; sink = W.faults sink.old })
        (record { disk = K.faults run.0.journal.disk; source = S.faults source.new; sink = W.faults sink.new })
        (S.left source.old) (S.left source.new)) }
    // A file that is not opened: when each reason comes, that nothing was read or written, and what is left of it.
    ensures not_journal { IfErr result (λ e.
        e.1 ≡ OpenFault.NotJournal → IsNoJournal mark.now (K.seen disk)) }
    ensures bad { IfErr result (λ e. (place : ℕ) → e.1 ≡ OpenFault.BadRecord place
        → IsBad (Becomes D.takes) mark.now party (K.seen disk) place) }
    ensures fault { IfErr result (λ e.
        e.1 ≡ OpenFault.DiskFault → HasRisen (K.faults disk) (K.faults e.0)) }
    ensures silent { OnErr result ((source.new ≡ source.old) × (sink.new ≡ sink.old)) }
    ensures kept { IfErr result (λ e. e.1 ≢ OpenFault.DiskFault
        → (K.seen e.0 ≡ K.seen disk) × (K.faults e.0 ≡ K.faults disk)) }
    ensures any_moment_err { IfErr result (λ e. LeavesOnly K.moment K.left_since disk e.0
        (IsAsBefore (K.may_leave disk) mark.now (K.seen disk))) }
{
    let (mut kept, again) = match KeptParty::open(alloc, mark, party, disk) {
        Ok(opened) => opened,
        Err(refused) => return Err(refused),
    };
    let ended = answer_all(alloc, &mut kept, again, source, sink);
    told(&kept, ended);
    Ok((kept, ended))
}
