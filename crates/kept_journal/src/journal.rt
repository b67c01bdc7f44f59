ghost use Rattle.std.specs.Prelude.{◌≡◌, ◌≢◌, ◌≤◌, ◌+◌, ◌++◌, ◌∷◌, [], ℕ, List, true, false, length, IfOk, IfErr, OnOk, OnErr};
ghost use Rattle.ar_base.specs.Faults.{HasRisen};
ghost use Rattle.kept_disk.specs.Disk.{Only};
ghost use Rattle.kept_disk.specs.Moments.{LeavesOnly};
ghost use Rattle.kept_journal.specs.Appending.{SpendsAll, WantsAll, staged_text};
ghost use Rattle.kept_journal.specs.Journal.{IsAsBefore, IsBeforeOrAfter, IsNoJournal, Stands, recovered};
ghost use Rattle.kept_journal.specs.Fused.{with_fuse};
ghost use Rattle.kept_journal.specs.Opening.{SpendsCost, WantsCost, opening};
ghost use Rattle.kept_journal.specs.Replays.{IsBad, ReachesBy};

use crate::opening::prepare;
use crate::standing::Standing;
use crate::writing::put_behind;
use crate::{KeptText, OpenFault, Replay};
use kept_disk::{Disk, Failed, MemDisk};
use std::alloc::Global;
use std::marker::Model;

/// A journal in a file that outlives its process.
///
/// After a call of the disk that failed it is stopped: what its file holds then is known again when it is opened anew.
#[derive(Drop)]
pub struct Journal<K: Disk> {
    disk: K,
    standing: Standing,
    stopped: bool,
}

// Clauses see the disk, the mark, the texts that the file stands for, and their count. While the journal is not stopped, a
// crash leaves these texts.
impl<K: Disk> Model for Journal<K> {
    ghost use Rattle.std.specs.Prelude.{◌≡◌, false};
    ghost use Rattle.kept_journal.specs.Journal.{recovered};
    ghost use Rattle.kept_journal.specs.Settled.{IsSettled, JournalParts};

    ghost Value = { JournalParts K };

    ghost view = { λ j. record {
      disk = j.disk;
      mark = j.standing.mark;
      texts = recovered (K.seen j.disk);
      count = j.standing.count;
      stopped = j.stopped;
    } };

    ghost invariant = { λ j. j.stopped ≡ false
        → IsSettled j.standing.mark j.standing.end j.standing.count (K.seen j.disk)
        (K.may_leave j.disk) };
}

impl<K: Disk> Journal<K> {
    /// Opens a file that a crash may have left, as a journal that begins with this mark, and has a party take its texts again,
    /// one behind the other.
    ///
    /// It syncs first, so that a crash leaves what was read. A file of at most 9 bytes is written anew, with a closed gate. A
    /// longer one is cut behind its first gate that is not open. No gate of a longer file is written: a write that is not
    /// synced could leave it open.
    pub fn open<P: Replay>(
        alloc: Global,
        mark: &[u8; 8],
        disk: K,
        party: &mut P,
    ) -> Result<Journal<K>, (K, OpenFault)>
        // What the file was: neither of `not_journal` nor of `bad`.
        ensures stood { OnOk result (Stands mark.now (recovered (K.seen disk)) (K.seen disk)) }
        // What the party took.
        ensures replays { OnOk result
            (ReachesBy P.takes party.old (recovered (K.seen disk)) party.new) }
        // What the journal is.
        ensures texts { IfOk result (λ journal.
            (journal.texts ≡ recovered (K.seen disk))
            × (journal.count ≡ length (recovered (K.seen disk)))
            × (journal.mark ≡ mark.now) × (journal.stopped ≡ false)) }
        ensures durable { IfOk result (λ journal.
            Only (K.seen journal.disk) (K.may_leave journal.disk)
            × Stands mark.now (recovered (K.seen disk)) (K.seen journal.disk)) }
        // A crash at any moment leaves what a crash before might have left, or, of a file that stood for its texts, the same texts.
        ensures any_moment { IfOk result (λ journal.
            LeavesOnly K.moment K.left_since disk journal.disk
            (IsAsBefore (K.may_leave disk) mark.now (K.seen disk))) }
        ensures any_moment_err { IfErr result (λ e.
            LeavesOnly K.moment K.left_since disk e.0
            (IsAsBefore (K.may_leave disk) mark.now (K.seen disk))) }
        // A file that is refused stays, as does the count of faults.
        ensures kept { IfErr result (λ e. e.1 ≢ OpenFault.DiskFault → K.seen e.0 ≡ K.seen disk) }
        ensures uncounted_err { IfErr result (λ e.
            e.1 ≢ OpenFault.DiskFault → K.faults e.0 ≡ K.faults disk) }
        // What it takes of the disk.
        ensures spends { IfOk result (λ journal.
            SpendsCost (K.fuel disk) (K.fuel journal.disk) (opening (K.seen disk))) }
        ensures uncounted { IfOk result (λ journal. K.faults journal.disk ≡ K.faults disk) }
        // When each error comes.
        ensures wants { IfErr result (λ e.
            e.1 ≡ OpenFault.DiskFault → WantsCost (K.fuel disk) (opening (K.seen disk))) }
        ensures fault { IfErr result (λ e.
            e.1 ≡ OpenFault.DiskFault → HasRisen (K.faults disk) (K.faults e.0)) }
        ensures not_journal { IfErr result (λ e.
            e.1 ≡ OpenFault.NotJournal → IsNoJournal mark.now (K.seen disk)) }
        ensures bad { IfErr result (λ e.
            (place : ℕ) → e.1 ≡ OpenFault.BadRecord place
            → IsBad P.takes mark.now party.old (K.seen disk) place) }
    {
        let mut disk = disk;
        match prepare(alloc, mark, &mut disk, party) {
            Ok(standing) => Ok(Journal {
                disk,
                standing,
                stopped: false,
            }),
            Err(fault) => Err((disk, fault)),
        }
    }

    /// Puts the record of a text behind the others: four calls of the disk. After an error the journal is stopped.
    pub fn append(&mut self, text: &KeptText) -> Result<(), Failed>
        requires { self.old.stopped ≡ false }
        // A crash at any moment leaves the texts from before, with the new one or without.
        ensures any_moment { LeavesOnly K.moment K.left_since self.old.disk self.new.disk
            (IsBeforeOrAfter self.old.mark self.old.texts text.now) }
        // What it leaves.
        ensures mark { self.new.mark ≡ self.old.mark }
        ensures ok { OnOk result ((self.new.texts ≡ self.old.texts ++ text.now ∷ [])
            × (self.new.count ≡ self.old.count + 1) × (self.new.stopped ≡ false)) }
        ensures err { OnErr result ((self.new.count ≡ self.old.count) × (self.new.stopped ≡ true)) }
        ensures held { OnErr result (Stands self.old.mark self.old.texts (K.held self.new.disk)) }
        // What it takes of the disk, and when it fails.
        ensures spends { OnOk result
            (SpendsAll (K.fuel self.old.disk) (K.fuel self.new.disk) 4
            (length (staged_text text.now) + 1) 4) }
        ensures wants { OnErr result
            (WantsAll (K.fuel self.old.disk) 4 (length (staged_text text.now) + 1) 4) }
        ensures failed { OnErr result (HasRisen (K.faults self.old.disk) (K.faults self.new.disk)) }
        ensures uncounted { OnOk result (K.faults self.new.disk ≡ K.faults self.old.disk) }
        ensures never_falls { K.faults self.old.disk ≤ K.faults self.new.disk }
    {
        self.stopped = true;
        put_behind(&mut self.disk, &self.standing, text)?;
        self.standing.end += text.bytes().len() as u64;
        self.standing.count += 1;
        self.stopped = false;
        Ok(())
    }

    /// Tells a proof what a crash leaves of a journal that is not stopped. It does nothing.
    pub fn told(&self)
        requires { self.now.stopped ≡ false }
        ensures crash { (c : List ℕ) → K.may_leave self.now.disk c
            → Stands self.now.mark self.now.texts c }
        ensures counts { self.now.count ≡ length self.now.texts }
    {
        let _disk = &self.disk;
    }

    /// Was the journal stopped by a call of the disk that failed?
    pub fn is_stopped(&self) -> bool
        ensures { result ≡ self.now.stopped }
    {
        self.stopped
    }

    /// How many records it had when it was opened, with those that were put behind since.
    pub fn count(&self) -> u64
        ensures { result ≡ self.now.count }
    {
        self.standing.count
    }

    /// The disk.
    pub fn disk(&self) -> &K
        ensures { result.now ≡ self.now.disk }
    {
        &self.disk
    }

    /// The disk; the journal is at its end.
    pub fn into_disk(self) -> K
        ensures { result ≡ self.disk }
    {
        let Journal {
            disk,
            standing: _,
            stopped: _,
        } = self;
        disk
    }
}

impl Journal<MemDisk> {
    /// So many calls of the disk more pass, each later one fails.
    pub fn fuse(&mut self, k: u64)
        ensures { self.new ≡ with_fuse self.old k }
    {
        self.disk.fuse(k);
    }
}
