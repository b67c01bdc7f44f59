ghost use Rattle.std.specs.Prelude.{◌≡◌, ◌≢◌, ◌≤◌, ◌+◌, ◌++◌, ◌∷◌, ◌⊎◌, [], ℕ, List, true, false, length, IfOk, IfErr, OnOk, OnErr};
ghost use Rattle.ar_base.specs.Faults.{HasRisen};
ghost use Rattle.kept_disk.specs.Disk.{Only};
ghost use Rattle.kept_disk.specs.Moments.{LeavesOnly};
ghost use Rattle.chained_journal.specs.Journal.{IsAsBefore, IsBeforeOrAfter, Stands, chained, recovered, start};
ghost use Rattle.chained_journal.specs.Refusals.{BearsOut, IsBlank, Refusal};
ghost use Rattle.chained_journal.specs.Replays.{ReachesBy};

use crate::beginning::begin_on;
use crate::opening::prepare;
use crate::standing::Standing;
use crate::writing::put_behind;
use crate::{BeginFault, KeptText, OpenFault, Replay, Title, Witness, chain};
use kept_disk::{Disk, Failed};
use std::alloc::Global;
use std::marker::Model;

/// A journal in a file that outlives its process.
///
/// After a call of the disk that failed it is stopped: what its file holds then is known again when it is opened anew.
#[derive(Drop)]
pub struct Journal<K: Disk> {
    disk: K,
    title: Title,
    standing: Standing,
    stopped: bool,
}

// Clauses see the disk, the title, the texts that the file stands for, and their count. While the journal is not stopped, a
// crash leaves these texts.
impl<K: Disk> Model for Journal<K> {
    ghost use Rattle.std.specs.Prelude.{◌≡◌, false};
    ghost use Rattle.chained_journal.specs.Journal.{recovered};
    ghost use Rattle.chained_journal.specs.Settled.{IsSettled, JournalParts};

    ghost Value = { JournalParts K };

    ghost view = { λ j. record {
      disk = j.disk;
      title = j.title;
      texts = recovered (K.seen j.disk);
      count = j.standing.count;
      stopped = j.stopped;
    } };

    ghost invariant = { λ j. j.stopped ≡ false
        → IsSettled j.title j.standing.end j.standing.count j.standing.chain (K.seen j.disk)
        (K.may_leave j.disk) };
}

impl<K: Disk> Journal<K> {
    /// Begins a journal with this title, where nothing was begun: in an empty file, or in one that a crash of this call left.
    ///
    /// Nothing else is ever begun anew. What a crash may leave of a blank file has at most 48 bytes. Where that is neither blank
    /// nor a journal with no texts, a part of a sector was written, and it is refused, as a journal is that was cut.
    pub fn begin(title: &Title, disk: K) -> Result<Journal<K>, (K, BeginFault)>
        ensures blank { OnOk result (IsBlank (K.seen disk)) }
        // What the journal is.
        ensures texts { IfOk result (λ journal. (journal.texts ≡ []) × (journal.count ≡ 0)
            × (journal.title ≡ title.now) × (journal.stopped ≡ false)) }
        ensures durable { IfOk result (λ journal.
            Only (K.seen journal.disk) (K.may_leave journal.disk)
            × Stands title.now [] (K.seen journal.disk)) }
        ensures any_moment { IfOk result (λ journal.
            LeavesOnly K.moment K.left_since disk journal.disk
            (λ c. K.may_leave disk c ⊎ (IsBlank (K.seen disk) × (length c ≤ 48)))) }
        ensures any_moment_err { IfErr result (λ e.
            LeavesOnly K.moment K.left_since disk e.0
            (λ c. K.may_leave disk c ⊎ (IsBlank (K.seen disk) × (length c ≤ 48)))) }
        ensures uncounted { IfOk result (λ journal. K.faults journal.disk ≡ K.faults disk) }
        // When each error comes, and what it leaves.
        ensures begun { IfErr result (λ e. e.1 ≡ BeginFault.Begun → ¬ IsBlank (K.seen disk)) }
        ensures kept { IfErr result (λ e. e.1 ≡ BeginFault.Begun
            → (K.seen e.0 ≡ K.seen disk) × (K.faults e.0 ≡ K.faults disk)) }
        ensures fault { IfErr result (λ e.
            e.1 ≡ BeginFault.DiskFault → HasRisen (K.faults disk) (K.faults e.0)) }
    {
        let mut disk = disk;
        match begin_on(&mut disk, title) {
            Ok(()) => Ok(Journal {
                disk,
                title: *title,
                standing: Standing {
                    end: 40,
                    count: 0,
                    chain: chain::start(title),
                },
                stopped: false,
            }),
            Err(fault) => Err((disk, fault)),
        }
    }

    /// Opens a file that a crash may have left, as the journal with this title, and has a party take its texts again, one behind
    /// the other. They are to bear out the witness: each journal bears out `Witness::of_nothing`.
    ///
    /// It syncs first, so that a crash leaves what was read. The file is cut behind its shut gate. No gate is written.
    pub fn open<P: Replay>(
        alloc: Global,
        title: &Title,
        witness: &Witness,
        disk: K,
        party: &mut P,
    ) -> Result<Journal<K>, (K, OpenFault)>
        // What the file was.
        ensures stood { OnOk result (Stands title.now (recovered (K.seen disk)) (K.seen disk)) }
        ensures borne { OnOk result (BearsOut title.now witness.now (recovered (K.seen disk))) }
        // What the party took.
        ensures replays { OnOk result
            (ReachesBy P.takes party.old (recovered (K.seen disk)) party.new) }
        // What the journal is.
        ensures texts { IfOk result (λ journal.
            (journal.texts ≡ recovered (K.seen disk))
            × (journal.count ≡ length (recovered (K.seen disk)))
            × (journal.title ≡ title.now) × (journal.stopped ≡ false)) }
        ensures durable { IfOk result (λ journal.
            Only (K.seen journal.disk) (K.may_leave journal.disk)
            × Stands title.now (recovered (K.seen disk)) (K.seen journal.disk)) }
        // A crash at any moment leaves what a crash before might have left, or, of a file that stood for its texts, the same texts.
        ensures any_moment { IfOk result (λ journal.
            LeavesOnly K.moment K.left_since disk journal.disk
            (IsAsBefore title.now (K.may_leave disk) (K.seen disk))) }
        ensures any_moment_err { IfErr result (λ e.
            LeavesOnly K.moment K.left_since disk e.0
            (IsAsBefore title.now (K.may_leave disk) (K.seen disk))) }
        // A file that is refused stays, as does the count of faults.
        ensures kept { IfErr result (λ e. e.1 ≢ OpenFault.DiskFault → K.seen e.0 ≡ K.seen disk) }
        ensures uncounted_err { IfErr result (λ e.
            e.1 ≢ OpenFault.DiskFault → K.faults e.0 ≡ K.faults disk) }
        ensures uncounted { IfOk result (λ journal. K.faults journal.disk ≡ K.faults disk) }
        // When each error comes.
        ensures fault { IfErr result (λ e.
            e.1 ≡ OpenFault.DiskFault → HasRisen (K.faults disk) (K.faults e.0)) }
        ensures refused { IfErr result (λ e. e.1 ≢ OpenFault.DiskFault
            → Refusal P.takes title.now witness.now party.old (K.seen disk) e.1) }
    {
        let mut disk = disk;
        match prepare(alloc, title, witness, &mut disk, party) {
            Ok(standing) => Ok(Journal {
                disk,
                title: *title,
                standing,
                stopped: false,
            }),
            Err(fault) => Err((disk, fault)),
        }
    }

    /// Puts the record of a text behind the others: four calls of the disk. After an error the journal is stopped.
    pub fn append(&mut self, text: KeptText) -> Result<(), Failed>
        requires { self.old.stopped ≡ false }
        // A crash at any moment leaves the texts from before, with the new one or without, or the one torn end between the two.
        ensures any_moment { LeavesOnly K.moment K.left_since self.old.disk self.new.disk
            (IsBeforeOrAfter self.old.title self.old.texts text) }
        // What it leaves.
        ensures title { self.new.title ≡ self.old.title }
        ensures ok { OnOk result ((self.new.texts ≡ self.old.texts ++ text ∷ [])
            × (self.new.count ≡ self.old.count + 1) × (self.new.stopped ≡ false)) }
        ensures err { OnErr result ((self.new.count ≡ self.old.count) × (self.new.stopped ≡ true)) }
        ensures held { OnErr result (Stands self.old.title self.old.texts (K.held self.new.disk)) }
        // When it fails.
        ensures failed { OnErr result (HasRisen (K.faults self.old.disk) (K.faults self.new.disk)) }
        ensures uncounted { OnOk result (K.faults self.new.disk ≡ K.faults self.old.disk) }
        ensures never_falls { K.faults self.old.disk ≤ K.faults self.new.disk }
    {
        self.stopped = true;
        let (bytes, next) = text.staged(&self.standing.chain);
        put_behind(&mut self.disk, &self.title, &self.standing, &bytes)?;
        self.standing.end += bytes.len() as u64;
        self.standing.count += 1;
        self.standing.chain = next;
        self.stopped = false;
        Ok(())
    }

    /// Tells a proof what a crash leaves of a journal that is not stopped. It does nothing.
    pub fn told(&self)
        requires { self.now.stopped ≡ false }
        ensures crash { (c : List ℕ) → K.may_leave self.now.disk c
            → Stands self.now.title self.now.texts c }
        ensures counts { self.now.count ≡ length self.now.texts }
    {
        let _disk = &self.disk;
    }

    /// How many texts a journal that is not stopped has, and their chain.
    pub fn witness(&self) -> Witness
        requires { self.now.stopped ≡ false }
        ensures count { result.count ≡ length self.now.texts }
        ensures chain { result.chain ≡ chained (start self.now.title) self.now.texts }
    {
        Witness {
            count: self.standing.count,
            chain: self.standing.chain,
        }
    }

    /// Was the journal stopped by a call of the disk that failed?
    pub fn is_stopped(&self) -> bool
        ensures { result ≡ self.now.stopped }
    {
        self.stopped
    }

    /// How many records it had when it was opened, with those that were put behind since.
    pub fn count(&self) -> u64
        ensures { result ≡ self.now.count }
    {
        self.standing.count
    }

    /// The disk.
    pub fn disk(&self) -> &K
        ensures { result.now ≡ self.now.disk }
    {
        &self.disk
    }

    /// The disk; the journal is at its end.
    pub fn into_disk(self) -> K
        ensures { result ≡ self.disk }
    {
        let Journal {
            disk,
            title: _,
            standing: _,
            stopped: _,
        } = self;
        disk
    }
}
