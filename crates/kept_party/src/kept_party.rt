ghost use Rattle.std.specs.Prelude.{◌≡◌, ◌≢◌, ◌≤◌, ◌+◌, ◌++◌, ◌∷◌, ◌⊎◌, ◌↔◌, [], ℕ, List, Ok, Err, true, false, length, IfOk, IfErr, OnOk, IsErrOf};
ghost use Rattle.ar_base.specs.Faults.{HasRisen};
ghost use Rattle.kept_disk.specs.Disk.{Only};
ghost use Rattle.kept_disk.specs.Moments.{LeavesOnly};
ghost use Rattle.kept_journal.specs.Journal.{IsAsBefore, IsBeforeOrAfter, IsNoJournal, Stands, recovered};
ghost use Rattle.kept_journal.specs.Replays.{IsBad, ReachesBy};
ghost use Rattle.kept_party.specs.Taking.{Becomes, RepliesLast};
ghost use Rattle.kept_party.specs.declared.fault.KeptFault.TheVariants as faults;

use crate::recalling::Recalling;
use crate::{Done, Keeper, KeptFault};
use kept_disk::Disk;
use kept_journal::{Journal, OpenFault};
use std::alloc::Global;
use std::marker::Model;

/// A party with its journal: what it is asked stands there before its reply leaves.
///
/// After a call of the disk that failed it answers `Reopen`, and its file is to be opened anew (`file_disk` says when).
#[derive(Drop)]
pub struct KeptParty<P: Keeper, K: Disk> {
    party: P,
    journal: Journal<K>,
}

// Clauses see where the party stands, and its journal.
impl<P: Keeper, K: Disk> Model for KeptParty<P, K> {
    ghost use Rattle.kept_party.specs.Parts.{WithJournal};

    ghost Value = { WithJournal P K };

    ghost view = { λ k. record { party = k.party; journal = k.journal } };
}

impl<P: Keeper, K: Disk> KeptParty<P, K> {
    /// Opens a file that a crash may have left, and has this party, which has done nothing yet, take what stands in it. With
    /// the party comes what it replied to the last text of the file, where it has any: it may not have been sent.
    ///
    /// A file that begins with another mark is another party's. It syncs first. A file of at most 9 bytes is written anew; a
    /// longer one is cut behind its first gate that is not open.
    pub fn open(
        alloc: Global,
        mark: &[u8; 8],
        party: P,
        disk: K,
    ) -> Result<(KeptParty<P, K>, Option<P::Reply>), (K, OpenFault)>
        // What the file was: neither of `not_journal` nor of `bad`.
        ensures stood { OnOk result (Stands mark.now (recovered (K.seen disk)) (K.seen disk)) }
        // Which party it is, and what it replied last.
        ensures replays { IfOk result (λ made.
            ReachesBy (Becomes P.takes) party (recovered (K.seen disk)) made.0.party) }
        ensures again { IfOk result (λ made.
            RepliesLast P.takes party (recovered (K.seen disk)) made.1 made.0.party) }
        ensures texts { IfOk result (λ made.
            (made.0.journal.texts ≡ recovered (K.seen disk))
            × (made.0.journal.count ≡ length (recovered (K.seen disk)))
            × (made.0.journal.mark ≡ mark.now) × (made.0.journal.stopped ≡ false)) }
        // What its file is then.
        ensures durable { IfOk result (λ made.
            Only (K.seen made.0.journal.disk) (K.may_leave made.0.journal.disk)
            × Stands mark.now (recovered (K.seen disk)) (K.seen made.0.journal.disk)) }
        // A crash at any moment leaves what a crash before might have left, or, of a file that stood for its texts, the same texts.
        ensures any_moment { IfOk result (λ made.
            LeavesOnly K.moment K.left_since disk made.0.journal.disk
            (IsAsBefore (K.may_leave disk) mark.now (K.seen disk))) }
        ensures any_moment_err { IfErr result (λ e.
            LeavesOnly K.moment K.left_since disk e.0
            (IsAsBefore (K.may_leave disk) mark.now (K.seen disk))) }
        // A file that is refused stays, as does the count of faults.
        ensures kept { IfErr result (λ e. e.1 ≢ OpenFault.DiskFault → K.seen e.0 ≡ K.seen disk) }
        ensures uncounted_err { IfErr result (λ e.
            e.1 ≢ OpenFault.DiskFault → K.faults e.0 ≡ K.faults disk) }
        ensures uncounted { IfOk result (λ made.
            K.faults made.0.journal.disk ≡ K.faults disk) }
        // When each error comes.
        ensures fault { IfErr result (λ e.
            e.1 ≡ OpenFault.DiskFault → HasRisen (K.faults disk) (K.faults e.0)) }
        ensures not_journal { IfErr result (λ e.
            e.1 ≡ OpenFault.NotJournal → IsNoJournal mark.now (K.seen disk)) }
        ensures bad { IfErr result (λ e. (place : ℕ) → e.1 ≡ OpenFault.BadRecord place
            → IsBad (Becomes P.takes) mark.now party (K.seen disk) place) }
    {
        let mut recalling = Recalling { party, last: None };
        match Journal::open(alloc, mark, disk, &mut recalling) {
            Ok(journal) => {
                let Recalling { party, last } = recalling;
                Ok((KeptParty { party, journal }, last))
            }
            Err(refused) => Err(refused),
        }
    }

    /// What the party replies to what it is asked, once its file has that; or why there is no reply.
    ///
    /// `Reopen` comes exactly after an earlier `DiskFault`, and before anything else. After `Refused` all is as it was. After
    /// `DiskFault` the party has done what it was asked.
    pub fn step(
        &mut self,
        alloc: Global,
        order: &P::Order,
    ) -> Result<P::Reply, KeptFault<P::Refusal>>
        // What it replied, and what its file has then: the text of that, or it is as it was.
        ensures replied { IfOk result (λ reply.
            ((text : List ℕ) × P.says self.old.party order.now text
            × P.takes self.old.party text reply self.new.party
            × (self.new.journal.texts ≡ self.old.journal.texts ++ text ∷ [])
            × (self.new.journal.count ≡ self.old.journal.count + 1))
            ⊎ ((self.new ≡ self.old) × P.tells self.old.party order.now reply)) }
        ensures goes_on { OnOk result (self.new.journal.stopped ≡ false) }
        ensures durable { OnOk result ((c : List ℕ) → K.may_leave self.new.journal.disk c
            → Stands self.old.journal.mark self.new.journal.texts c) }
        // A crash at any moment leaves the texts from before, with the new one or without; the party takes that one.
        ensures any_moment { LeavesOnly K.moment K.left_since self.old.journal.disk
            self.new.journal.disk
            (λ c. K.may_leave self.old.journal.disk c
            ⊎ ((text : List ℕ) × (reply : P.Reply) × P.says self.old.party order.now text
            × P.takes self.old.party text reply self.new.party
            × IsBeforeOrAfter self.old.journal.mark self.old.journal.texts text c)) }
        ensures mark { self.new.journal.mark ≡ self.old.journal.mark }
        // When each error comes, and what it leaves.
        ensures refused { (refusal : P.Refusal) → IsErrOf result (faults.Refused refusal)
            → (self.new ≡ self.old) × P.refuses self.old.party order.now refusal }
        ensures reopen { IsErrOf result faults.Reopen ↔ (self.old.journal.stopped ≡ true) }
        ensures reopened { IsErrOf result faults.Reopen → self.new ≡ self.old }
        ensures fault { IsErrOf result faults.DiskFault
            → (self.new.journal.stopped ≡ true)
            × HasRisen (K.faults self.old.journal.disk) (K.faults self.new.journal.disk)
            × Stands self.old.journal.mark self.old.journal.texts
            (K.held self.new.journal.disk)
            × (self.new.journal.count ≡ self.old.journal.count)
            × ((text : List ℕ) × (reply : P.Reply) × P.says self.old.party order.now text
            × P.takes self.old.party text reply self.new.party) }
        ensures uncounted { OnOk result (K.faults self.new.journal.disk
            ≡ K.faults self.old.journal.disk) }
    {
        if self.journal.is_stopped() {
            return Err(KeptFault::Reopen);
        }
        let Done { reply, text } = match self.party.step(alloc, order) {
            Ok(done) => done,
            Err(refusal) => return Err(KeptFault::Refused(refusal)),
        };
        let Some(text) = text else {
            self.journal.told();
            return Ok(reply);
        };
        let Ok(()) = self.journal.append(&text) else {
            return Err(KeptFault::DiskFault);
        };
        self.journal.told();
        Ok(reply)
    }

    /// The party, as it stands.
    pub fn party(&self) -> &P
        ensures { result.now ≡ self.now.party }
    {
        &self.party
    }

    /// How many texts its file had when it was opened, with those that came since.
    pub fn texts(&self) -> u64
        ensures { result ≡ self.now.journal.count }
    {
        self.journal.count()
    }

    /// Tells a proof what a crash leaves of a party that is not to be opened again. It does nothing.
    pub fn told(&self)
        requires { self.now.journal.stopped ≡ false }
        ensures crash { (c : List ℕ) → K.may_leave self.now.journal.disk c
            → Stands self.now.journal.mark self.now.journal.texts c }
        ensures counts { self.now.journal.count ≡ length self.now.journal.texts }
    {
        self.journal.told();
    }

    /// The disk; the party is at its end.
    pub fn into_disk(self) -> K
        ensures { result ≡ self.journal.disk }
    {
        self.journal.into_disk()
    }
}
