//! A party that is made of its parts, from the file of its journal on.

ghost use Rattle.std.specs.Prelude.{◌≡◌, ◌≢◌, ◌⊎◌, ℕ, List, Err, IfOk, IfErr, OnErr};
ghost use Rattle.ar_base.specs.Faults.{HasRisen};
ghost use Rattle.arpki_party.specs.Refused.{IsRefused};
ghost use Rattle.arpki_party.specs.declared.not_opened.NotOpened.TheVariants.{Text};
ghost use Rattle.authority_keeper.specs.Keeping as authority;
ghost use Rattle.desk_run.specs.Answers.{AnswersLine};
ghost use Rattle.desk_run.specs.Opened.{HasCause, HasRun, LeavesRun};
ghost use Rattle.kept_disk.specs.Moments.{LeavesOnly};
ghost use Rattle.kept_journal.specs.Journal.{IsAsBefore, Stands};
ghost use Rattle.lms_tree.specs.KeyParts.{KeyParts};
ghost use Rattle.log_journal.specs.Steps as log;
ghost use Rattle.owner_keeper.specs.Keeping as owner;
ghost use Rattle.party_keys.specs.Directory.{Directory};

use crate::not_opened::NotOpened;
use crate::opening::Parts;
use ar_io::{Sink, Source};
use authority_keeper::AuthorityKeeper;
use desk_run::{Stop, open_and_answer};
use kept_disk::Disk;
use kept_party::{KeptParty, OpenFault};
use log_keeper::LogKeeper;
use owner_keeper::OwnerKeeper;
use party_desk::LineParty;
use std::alloc::{AllocError, Global};

/// A party that is made of parts.
pub(crate) trait OfParts: LineParty {
    /// Where it stands that has done nothing yet, by its number, its directory and its first key.
    ghost at_first: { ℕ → Directory → KeyParts → Self };

    /// It, where it has done nothing yet. The only error is want of memory.
    fn of(alloc: Global, parts: Parts) -> Result<Self, AllocError>
        ensures { IfOk result (λ made.
            made ≡ at_first parts.number parts.directory parts.key) };
}

impl OfParts for LogKeeper {
    ghost at_first = { log.new_standing };

    fn of(alloc: Global, parts: Parts) -> Result<LogKeeper, AllocError> {
        LogKeeper::new(alloc, parts.number, parts.directory, parts.key)
    }
}

impl OfParts for AuthorityKeeper {
    ghost at_first = { authority.new_standing };

    fn of(alloc: Global, parts: Parts) -> Result<AuthorityKeeper, AllocError> {
        AuthorityKeeper::new(alloc, parts.number, parts.directory, parts.key)
    }
}

impl OfParts for OwnerKeeper {
    ghost at_first = { owner.new_standing };

    fn of(alloc: Global, parts: Parts) -> Result<OwnerKeeper, AllocError> {
        OwnerKeeper::new(alloc, parts.number, parts.directory, parts.key)
    }
}

/// Makes a party of these parts, opens it by the journal on a disk, which has their mark, and has it answer the lines of a source
/// until they end: the party, and why it stopped, where it did.
///
/// Where there is no such party, nothing is read or written, and the disk comes back with the reason.
pub(crate) fn go_on<D: OfParts, K: Disk, S: Source, W: Sink>(
    alloc: Global,
    parts: Parts,
    disk: K,
    source: &mut S,
    sink: &mut W,
) -> Result<(KeptParty<D, K>, Result<(), Stop>), (K, NotOpened)>
    // What `open_and_answer` says of a run, of this party, this mark and the file as it was found.
    ensures run { IfOk result (λ run. HasRun D.takes
        (AnswersLine D.asked D.says D.takes D.tells D.refuses D.sent_text D.told_text
        D.refused_text) D.sent_text W.wrote K.held parts.mark (K.seen disk)
        (D.at_first parts.number parts.directory parts.key) run.0 run.1
        (S.left source.old) (S.left source.new) sink.old sink.new) }
    ensures durable { IfOk result (λ run. run.1 ≢ Err Stop.Disk
        → (c : List ℕ) → K.may_leave run.0.journal.disk c
        → Stands parts.mark run.0.journal.texts c) }
    ensures any_moment { IfOk result (λ run.
        LeavesOnly K.moment K.left_since disk run.0.journal.disk
        (λ c. K.may_leave disk c ⊎ LeavesRun D.takes
        (AnswersLine D.asked D.says D.takes D.tells D.refuses D.sent_text D.told_text
        D.refused_text) D.asked D.says parts.mark (K.seen disk)
        (D.at_first parts.number parts.directory parts.key) (S.left source.old)
        (S.left source.new) c)) }
    ensures cause { IfOk result (λ run. HasCause run.1
        (record { disk = K.faults disk; source = S.faults source.old; sink = W.faults sink.old })
        (record { disk = K.faults run.0.journal.disk; source = S.faults source.new; sink = W.faults sink.new })
        (S.left source.old) (S.left source.new)) }
    // Where there is no such party: why, that nothing was read or written, and what is left of the file. A call of the disk
    // failed exactly where that is told.
    ensures refused { IfErr result (λ e. IsRefused D.takes parts.mark (K.seen disk)
        (D.at_first parts.number parts.directory parts.key) e.1) }
    ensures fault { IfErr result (λ e. e.1 ≡ Text OpenFault.DiskFault
        → HasRisen (K.faults disk) (K.faults e.0)) }
    ensures kept { IfErr result (λ e. e.1 ≢ Text OpenFault.DiskFault
        → (K.seen e.0 ≡ K.seen disk) × (K.faults e.0 ≡ K.faults disk)) }
    ensures any_moment_err { IfErr result (λ e. LeavesOnly K.moment K.left_since disk e.0
        (IsAsBefore (K.may_leave disk) parts.mark (K.seen disk))) }
    ensures silent { OnErr result ((source.new ≡ source.old) × (sink.new ≡ sink.old)) }
{
    let mark = parts.mark;
    let party = match D::of(alloc, parts) {
        Ok(party) => party,
        Err(_) => return Err((disk, NotOpened::Memory)),
    };
    match open_and_answer(alloc, &mark, party, disk, source, sink) {
        Ok(run) => Ok(run),
        Err((disk, fault)) => Err((disk, NotOpened::from(fault))),
    }
}
