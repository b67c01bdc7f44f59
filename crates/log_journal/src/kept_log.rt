ghost use Rattle.std.specs.Prelude.{◌≡◌, ◌≢◌, ◌≤◌, ◌+◌, ◌++◌, ◌∷◌, ◌⊎◌, ◌↔◌, [], ℕ, List, Ok, Err, true, false, length, IfOk, IfErr, OnOk, IsErrOf};
ghost use Rattle.ar_base.specs.Faults.{HasRisen};
ghost use Rattle.epoch_log.specs.Honest.{IsOfHonestLog};
ghost use Rattle.epoch_log.specs.Log.{record_of};
ghost use Rattle.kept_disk.specs.Disk.{Only};
ghost use Rattle.kept_disk.specs.Moments.{LeavesOnly};
ghost use Rattle.kept_journal.specs.Appending.{SpendsAll, WantsAll, staged_text};
ghost use Rattle.kept_journal.specs.Journal.{IsAsBefore, IsBeforeOrAfter, IsNoJournal, Stands, recovered};
ghost use Rattle.kept_journal.specs.Opening.{SpendsCost, WantsCost, opening};
ghost use Rattle.kept_journal.specs.Replays.{IsBad, ReachesBy};
ghost use Rattle.log_core.specs.Inputs.{input_of};
ghost use Rattle.key_roll.specs.Ring.{IsOfNext};
ghost use Rattle.log_core.specs.Keyed.{AreBehind, IsOwn, signed_answer};
ghost use Rattle.log_core.specs.Row.{row};
ghost use Rattle.log_core.specs.State.{most_sent};
ghost use Rattle.log_journal.specs.Inputs.{input_text, mark};
ghost use Rattle.kept_journal.specs.Fused.{with_fuse};
ghost use Rattle.log_journal.specs.Kept.{IsAsItWas};
ghost use Rattle.log_journal.specs.Steps.{new_standing, standing_of, takes};
ghost use Rattle.log_journal.specs.declared.refusal.KeptRefusal.TheVariants as refusals;

use crate::KeptRefusal;
use crate::input::{input_told, record_of_input};
use crate::replaying::{MARK, Replaying};
use ar_message::Sent;
use epoch_log::Record;
use kept_disk::{Disk, MemDisk};
use kept_journal::{Journal, OpenFault};
use lms_tree::{LmsKey, LmsPublic};
use log_core::{Log, LogInput, LogRefusal, answer, new_log};
use party_keys::Directory;
use std::alloc::{AllocError, Global};
use std::marker::Model;

/// Why a log that is kept refuses, by the log's own refusal.
fn kept_refusal(refusal: LogRefusal) -> KeptRefusal
    ensures log { (same : LogRefusal) → result ≡ refusals.Log same
        → (same ≡ refusal) × (refusal ≢ LogRefusal.Memory) }
    ensures other { (result ≢ refusals.DiskFault) × (result ≢ refusals.Reopen) }
{
    match refusal {
        LogRefusal::Memory => KeptRefusal::Memory,
        refusal => KeptRefusal::Log(refusal),
    }
}

/// A log whose inputs stand in a journal before its replies leave.
///
/// After a call of the disk that failed it answers `Reopen`: a disk in memory is taken back (`into_disk`), and what a crash leaves
/// of it is opened; a file's disk fails for good, and is dropped, and the file opened anew (`file_disk` says when).
#[derive(Drop)]
pub struct KeptLog<K: Disk> {
    log: Log,
    journal: Journal<K>,
}

// Clauses see the log, and its journal: the disk, the inputs' texts, how many there are, and whether it was stopped.
impl<K: Disk> Model for KeptLog<K> {
    ghost use Rattle.std.specs.Prelude.{◌≡◌};
    ghost use Rattle.log_journal.specs.Inputs.{mark};
    ghost use Rattle.log_journal.specs.Kept.{KeptParts};

    ghost Value = { KeptParts K };

    ghost view = { λ k. record { log = k.log; journal = k.journal } };

    ghost invariant = { λ k. k.journal.mark ≡ mark };
}

impl<K: Disk> KeptLog<K> {
    /// Opens a file that a crash may have left, and makes the log again that wrote it: the one with this number, directory and
    /// first key that took the inputs in it. A roll makes its key again. That these three are of the log which wrote the file is
    /// the caller's to know: all logs have one mark, so the file of another one is refused only where one of its inputs is.
    ///
    /// It syncs first. A file of at most 9 bytes is written anew; a longer one is cut behind its first gate that is not open.
    pub fn open(
        alloc: Global,
        number: u16,
        directory: Directory,
        key: LmsKey,
        disk: K,
    ) -> Result<KeptLog<K>, (K, OpenFault)>
        // What the file was: neither of `not_journal` nor of `bad`.
        ensures stood { OnOk result (Stands mark (recovered (K.seen disk)) (K.seen disk)) }
        // Which log it is.
        ensures replays { IfOk result (λ kept.
            ReachesBy takes (new_standing number directory key) (recovered (K.seen disk))
            (standing_of kept.log)) }
        ensures texts { IfOk result (λ kept.
            (kept.journal.texts ≡ recovered (K.seen disk))
            × (kept.journal.count ≡ length (recovered (K.seen disk)))
            × (kept.journal.stopped ≡ false)) }
        // What its file is then.
        ensures durable { IfOk result (λ kept.
            Only (K.seen kept.journal.disk) (K.may_leave kept.journal.disk)
            × Stands mark (recovered (K.seen disk)) (K.seen kept.journal.disk)) }
        // A crash at any moment leaves what a crash before might have left, or, of a file that stood for its inputs, the same inputs.
        ensures any_moment { IfOk result (λ kept.
            LeavesOnly K.moment K.left_since disk kept.journal.disk
            (IsAsBefore (K.may_leave disk) mark (K.seen disk))) }
        ensures any_moment_err { IfErr result (λ e.
            LeavesOnly K.moment K.left_since disk e.0
            (IsAsBefore (K.may_leave disk) mark (K.seen disk))) }
        // A file that is refused stays, as does the count of faults.
        ensures kept { IfErr result (λ e. e.1 ≢ OpenFault.DiskFault → K.seen e.0 ≡ K.seen disk) }
        ensures uncounted_err { IfErr result (λ e.
            e.1 ≢ OpenFault.DiskFault → K.faults e.0 ≡ K.faults disk) }
        // What it takes of the disk.
        ensures spends { IfOk result (λ kept.
            SpendsCost (K.fuel disk) (K.fuel kept.journal.disk) (opening (K.seen disk))) }
        ensures uncounted { IfOk result (λ kept. K.faults kept.journal.disk ≡ K.faults disk) }
        // When each error comes.
        ensures wants { IfErr result (λ e.
            e.1 ≡ OpenFault.DiskFault → WantsCost (K.fuel disk) (opening (K.seen disk))) }
        ensures fault { IfErr result (λ e.
            e.1 ≡ OpenFault.DiskFault → HasRisen (K.faults disk) (K.faults e.0)) }
        ensures not_journal { IfErr result (λ e.
            e.1 ≡ OpenFault.NotJournal → IsNoJournal mark (K.seen disk)) }
        ensures bad { IfErr result (λ e. (place : ℕ) → e.1 ≡ OpenFault.BadRecord place
            → IsBad takes mark (new_standing number directory key) (K.seen disk) place) }
    {
        let log = match new_log(alloc, number, directory, key) {
            Ok(log) => log,
            Err(_) => return Err((disk, OpenFault::Memory)),
        };
        let mut party = Replaying { log };
        match Journal::open(alloc, &MARK, disk, &mut party) {
            Ok(journal) => Ok(KeptLog {
                log: party.log,
                journal,
            }),
            Err(refused) => Err(refused),
        }
    }

    /// What the log sends for what it is asked, signed, once its file has the input; or why there is no answer.
    ///
    /// To go on to a key is to go on to that of `next_key`. `Reopen` comes exactly after an earlier `DiskFault`, and before
    /// anything else. After `Log` and `Memory` all is as it was. After `DiskFault` the log has taken the input.
    pub fn step(&mut self, alloc: Global, input: &LogInput) -> Result<Sent, KeptRefusal>
        requires { IsOwn self.old.log.ring.keys (input_of input.now) }
        // The answer, signed, and where the log stands then.
        ensures answer { IfOk result (λ sent.
            signed_answer self.new.log.ring.keys (row self.old.log.core (input_of input.now))
            ≡ Ok (self.new.log.core, sent)) }
        ensures keys { OnOk result
            (AreBehind (input_of input.now) self.old.log.ring.keys self.new.log.ring.keys) }
        ensures taken { OnOk result
            (takes (standing_of self.old.log) (input_text (input_of input.now))
            (standing_of self.new.log)) }
        ensures few { IfOk result (λ sent. length sent.messages ≤ most_sent) }
        // What its file has then.
        ensures texts { OnOk result
            ((self.new.journal.texts ≡ self.old.journal.texts ++ input_text (input_of input.now)
            ∷ [])
            × (self.new.journal.count ≡ self.old.journal.count + 1)
            × (self.new.journal.stopped ≡ false)) }
        ensures durable { OnOk result ((c : List ℕ) → K.may_leave self.new.journal.disk c
            → Stands mark (self.old.journal.texts ++ input_text (input_of input.now) ∷ []) c) }
        // A crash at any moment leaves the inputs from before, with this one or without.
        ensures any_moment { LeavesOnly K.moment K.left_since self.old.journal.disk
            self.new.journal.disk
            (λ c. K.may_leave self.old.journal.disk c
            ⊎ IsBeforeOrAfter mark self.old.journal.texts (input_text (input_of input.now)) c) }
        // When each error comes, and what it leaves.
        ensures refused { (refusal : LogRefusal) → IsErrOf result (refusals.Log refusal)
            → (row self.old.log.core (input_of input.now) ≡ Err refusal)
            × IsAsItWas self.old self.new }
        ensures memory { IsErrOf result refusals.Memory → IsAsItWas self.old self.new }
        ensures reopen { IsErrOf result refusals.Reopen ↔ (self.old.journal.stopped ≡ true) }
        ensures reopened { IsErrOf result refusals.Reopen → IsAsItWas self.old self.new }
        ensures fault { IsErrOf result refusals.DiskFault
            → (self.new.journal.stopped ≡ true)
            × HasRisen (K.faults self.old.journal.disk) (K.faults self.new.journal.disk)
            × Stands mark self.old.journal.texts (K.held self.new.journal.disk)
            × (self.new.journal.count ≡ self.old.journal.count)
            × takes (standing_of self.old.log) (input_text (input_of input.now))
            (standing_of self.new.log) }
        // What it takes of the disk.
        ensures spends { OnOk result
            (SpendsAll (K.fuel self.old.journal.disk) (K.fuel self.new.journal.disk) 4
            (length (staged_text (input_text (input_of input.now))) + 1) 4) }
        ensures wants { IsErrOf result refusals.DiskFault
            → WantsAll (K.fuel self.old.journal.disk) 4
            (length (staged_text (input_text (input_of input.now))) + 1) 4 }
        ensures uncounted { OnOk result (K.faults self.new.journal.disk
            ≡ K.faults self.old.journal.disk) }
    {
        if self.journal.is_stopped() {
            return Err(KeptRefusal::Reopen);
        }
        input_told(input);
        let record = record_of_input(alloc, input)?;
        match answer(&mut self.log, alloc, input) {
            Ok(sent) => match self.journal.append(&record) {
                Ok(()) => {
                    self.journal.told();
                    Ok(sent)
                }
                Err(_) => Err(KeptRefusal::DiskFault),
            },
            Err(refusal) => Err(kept_refusal(refusal)),
        }
    }

    /// The public key of the generation behind the newest, to which the log can be asked to go on. It takes as long as a key
    /// does. The only error is want of memory.
    pub fn next_key(&self, alloc: Global) -> Result<LmsPublic, AllocError>
        ensures { IfOk result (λ key. IsOfNext self.now.log.ring.keys key) }
    {
        self.log.next_key(alloc)
    }

    /// What the log remembers, which is what an honest log does. After `DiskFault` it is the record with that input.
    pub fn record(&self) -> &Record
        ensures value { record_of result.now ≡ self.now.log.core.log.past }
        ensures honest { IsOfHonestLog self.now.log.core.log.council self.now.log.core.log.me
            self.now.log.core.log.past }
    {
        self.log.core.record()
    }

    /// How many inputs its file had when it was opened, with those that were answered since.
    pub fn inputs(&self) -> u64
        ensures { result ≡ self.now.journal.count }
    {
        self.journal.count()
    }

    /// Tells a proof what a crash leaves of a log that is not to be opened again. It does nothing.
    pub fn told(&self)
        requires { self.now.journal.stopped ≡ false }
        ensures crash { (c : List ℕ) → K.may_leave self.now.journal.disk c
            → Stands mark self.now.journal.texts c }
        ensures counts { self.now.journal.count ≡ length self.now.journal.texts }
    {
        self.journal.told();
    }

    /// The disk; the log is at its end.
    pub fn into_disk(self) -> K
        ensures { result ≡ self.journal.disk }
    {
        self.journal.into_disk()
    }
}

impl KeptLog<MemDisk> {
    /// So many calls of the disk more pass, each later one fails.
    pub fn fuse(&mut self, k: u64)
        ensures log { self.new.log ≡ self.old.log }
        ensures journal { self.new.journal ≡ with_fuse self.old.journal k }
    {
        self.journal.fuse(k);
    }
}
