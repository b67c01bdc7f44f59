//! A file that a crash may have left is made a journal again.

ghost use Rattle.std.specs.Prelude.{◌≡◌, ◌≢◌, ◌≤◌, ◌<◌, ◌+◌, ◌-◌, ◌++◌, ◌∷◌, ◌^◌, ◌⊎◌, [], ℕ, List, length, take, IfOk, IfErr, OnOk, OnErr, IsErrOf};
ghost use Rattle.ar_base.specs.Faults.{HasRisen};
ghost use Rattle.kept_disk.specs.Disk.{Only};
ghost use Rattle.kept_disk.specs.Moments.{LeavesOnly};
ghost use Rattle.kept_journal.specs.Appending.{SpendsAll, WantsAll};
ghost use Rattle.kept_journal.specs.Journal.{IsAsBefore, IsJournal, IsNoJournal, Stands, records, recovered};
ghost use Rattle.kept_journal.specs.Opening.{SpendsCost, WantsCost, behind_gate, cutting, opening};
ghost use Rattle.kept_journal.specs.Replays.{IsBad, ReachesBy};
ghost use Rattle.kept_journal.specs.Settled.{IsSettled};

use crate::reading::{begins, load};
use crate::standing::Standing;
use crate::{OpenFault, Replay};
use kept_disk::{Disk, Failed};
use std::alloc::Global;

/// The most bytes of a file that is written anew: a mark and a gate.
const SHORT: usize = 9;

/// All bytes of the file.
fn read_whole<K: Disk>(alloc: Global, disk: &mut K) -> Result<Vec<u8>, OpenFault>
    ensures bytes { IfOk result (λ bytes. bytes.items ≡ K.seen disk.old) }
    ensures short { IfOk result (λ bytes. length bytes.items < 2 ^ 64) }
    ensures seen { K.seen disk.new ≡ K.seen disk.old }
    ensures crash { (c : List ℕ) → K.may_leave disk.new c → K.may_leave disk.old c }
    ensures any_moment { LeavesOnly K.moment K.left_since disk.old disk.new (K.may_leave disk.old) }
    ensures fault { IsErrOf result OpenFault.DiskFault
        → HasRisen (K.faults disk.old) (K.faults disk.new) }
    ensures other { ¬ IsErrOf result OpenFault.NotJournal }
    ensures no_record { (place : ℕ) → ¬ IsErrOf result (OpenFault.BadRecord place) }
    ensures spends { OnOk result (SpendsAll (K.fuel disk.old) (K.fuel disk.new) 2 0 0) }
    ensures wants { IsErrOf result OpenFault.DiskFault → WantsAll (K.fuel disk.old) 2 0 0 }
    ensures uncounted { OnOk result (K.faults disk.new ≡ K.faults disk.old) }
    ensures uncounted_err { IfErr result (λ e.
        e ≢ OpenFault.DiskFault → K.faults disk.new ≡ K.faults disk.old) }
{
    let len = disk.len()?;
    let mut bytes = vec![in alloc; 0u8; len as usize]?;
    disk.read(0, &mut bytes)?;
    Ok(bytes)
}

/// A file of at most 9 bytes becomes a journal with no records.
fn write_fresh<K: Disk>(disk: &mut K, mark: &[u8; 8]) -> Result<(), Failed>
    requires short { length (K.seen disk.old) ≤ SHORT }
    requires only { Only (K.seen disk.old) (K.may_leave disk.old) }
    ensures ok { OnOk result ((K.seen disk.new ≡ mark.now ++ 0 ∷ [])
        × Only (K.seen disk.new) (K.may_leave disk.new)) }
    ensures any_moment { LeavesOnly K.moment K.left_since disk.old disk.new (λ c. length c ≤ 9) }
    ensures spends { OnOk result (SpendsAll (K.fuel disk.old) (K.fuel disk.new) 2 9 2) }
    ensures wants { OnErr result (WantsAll (K.fuel disk.old) 2 9 2) }
    ensures failed { OnErr result (HasRisen (K.faults disk.old) (K.faults disk.new)) }
    ensures uncounted { OnOk result (K.faults disk.new ≡ K.faults disk.old) }
{
    let mut bytes = [0u8; SHORT];
    bytes[..8].copy_from_slice(mark);
    disk.write_at(0, &bytes)?;
    disk.sync()?;
    Ok(())
}

/// Cuts a journal of so many bytes behind its first gate that is not open.
fn trim<K: Disk>(disk: &mut K, standing: &Standing, len: usize) -> Result<(), Failed>
    requires marked { length standing.now.mark ≡ 8 }
    requires journal { IsJournal standing.now.mark (recovered (K.seen disk.old)) (K.seen disk.old) }
    requires end { standing.now.end ≡ 8 + length (records (recovered (K.seen disk.old))) }
    requires len { len ≡ length (K.seen disk.old) }
    requires only { Only (K.seen disk.old) (K.may_leave disk.old) }
    ensures ok { OnOk result ((K.seen disk.new ≡ take (standing.now.end + 1) (K.seen disk.old))
        × Only (K.seen disk.new) (K.may_leave disk.new)) }
    ensures any_moment { LeavesOnly K.moment K.left_since disk.old disk.new
        (IsJournal standing.now.mark (recovered (K.seen disk.old))) }
    ensures spends { OnOk result
        (SpendsCost (K.fuel disk.old) (K.fuel disk.new) (cutting (len - (standing.now.end + 1)))) }
    ensures wants { OnErr result
        (WantsCost (K.fuel disk.old) (cutting (len - (standing.now.end + 1)))) }
    ensures failed { OnErr result (HasRisen (K.faults disk.old) (K.faults disk.new)) }
    ensures uncounted { OnOk result (K.faults disk.new ≡ K.faults disk.old) }
{
    let keep = standing.end + 1;
    if keep == len as u64 {
        disk.sync()?;
        return Ok(());
    }
    disk.cut(keep)?;
    disk.sync()?;
    Ok(())
}

/// Has a party take the texts of a file of more than 9 bytes, and cuts it behind them.
fn resume<K: Disk, P: Replay>(
    alloc: Global,
    mark: &[u8; 8],
    file: &[u8],
    disk: &mut K,
    party: &mut P,
) -> Result<Standing, OpenFault>
    requires long { SHORT < length file.now }
    requires file { file.now ≡ K.seen disk.old }
    requires only { Only (K.seen disk.old) (K.may_leave disk.old) }
    requires within { length file.now < 2 ^ 64 }
    ensures replays { OnOk result (ReachesBy P.takes party.old (recovered file.now) party.new) }
    ensures ok { IfOk result (λ s.
        (s.mark ≡ mark.now) × IsSettled mark.now s.end s.count (K.seen disk.new)
        (K.may_leave disk.new)) }
    ensures texts { OnOk result (recovered (K.seen disk.new) ≡ recovered file.now) }
    ensures stood { OnOk result (Stands mark.now (recovered file.now) file.now) }
    ensures any_moment { LeavesOnly K.moment K.left_since disk.old disk.new
        (λ c. (c ≡ file.now)
        ⊎ (Stands mark.now (recovered file.now) file.now
        × Stands mark.now (recovered file.now) c)) }
    ensures kept { IfErr result (λ e. e ≢ OpenFault.DiskFault → K.seen disk.new ≡ K.seen disk.old) }
    ensures spends { OnOk result
        (SpendsCost (K.fuel disk.old) (K.fuel disk.new) (cutting (behind_gate file.now))) }
    ensures wants { IsErrOf result OpenFault.DiskFault
        → WantsCost (K.fuel disk.old) (cutting (behind_gate file.now)) }
    ensures uncounted { OnOk result (K.faults disk.new ≡ K.faults disk.old) }
    ensures uncounted_err { IfErr result (λ e.
        e ≢ OpenFault.DiskFault → K.faults disk.new ≡ K.faults disk.old) }
    ensures fault { IsErrOf result OpenFault.DiskFault
        → HasRisen (K.faults disk.old) (K.faults disk.new) }
    ensures not_journal { IsErrOf result OpenFault.NotJournal → IsNoJournal mark.now file.now }
    ensures bad { (place : ℕ) → IsErrOf result (OpenFault.BadRecord place)
        → IsBad P.takes mark.now party.old file.now place }
{
    if !begins(file, mark) {
        return Err(OpenFault::NotJournal);
    }
    let standing = load(alloc, mark, file, party)?;
    trim(disk, &standing, file.len())?;
    Ok(standing)
}

/// Reads a file that a crash may have left, has a party take its texts, and makes it a journal that ends with its last gate.
pub(crate) fn prepare<K: Disk, P: Replay>(
    alloc: Global,
    mark: &[u8; 8],
    disk: &mut K,
    party: &mut P,
) -> Result<Standing, OpenFault>
    ensures replays { OnOk result
        (ReachesBy P.takes party.old (recovered (K.seen disk.old)) party.new) }
    ensures ok { IfOk result (λ s.
        (s.mark ≡ mark.now) × IsSettled mark.now s.end s.count (K.seen disk.new)
        (K.may_leave disk.new)) }
    ensures texts { OnOk result (recovered (K.seen disk.new) ≡ recovered (K.seen disk.old)) }
    ensures stood { OnOk result (Stands mark.now (recovered (K.seen disk.old)) (K.seen disk.old)) }
    ensures any_moment { LeavesOnly K.moment K.left_since disk.old disk.new
        (IsAsBefore (K.may_leave disk.old) mark.now (K.seen disk.old)) }
    ensures kept { IfErr result (λ e. e ≢ OpenFault.DiskFault → K.seen disk.new ≡ K.seen disk.old) }
    ensures spends { OnOk result
        (SpendsCost (K.fuel disk.old) (K.fuel disk.new) (opening (K.seen disk.old))) }
    ensures wants { IsErrOf result OpenFault.DiskFault
        → WantsCost (K.fuel disk.old) (opening (K.seen disk.old)) }
    ensures uncounted { OnOk result (K.faults disk.new ≡ K.faults disk.old) }
    ensures uncounted_err { IfErr result (λ e.
        e ≢ OpenFault.DiskFault → K.faults disk.new ≡ K.faults disk.old) }
    ensures fault { IsErrOf result OpenFault.DiskFault
        → HasRisen (K.faults disk.old) (K.faults disk.new) }
    ensures not_journal { IsErrOf result OpenFault.NotJournal
        → IsNoJournal mark.now (K.seen disk.old) }
    ensures bad { (place : ℕ) → IsErrOf result (OpenFault.BadRecord place)
        → IsBad P.takes mark.now party.old (K.seen disk.old) place }
{
    disk.sync()?;
    let file = read_whole(alloc, disk)?;
    if file.len() > SHORT {
        return resume(alloc, mark, &file, disk, party);
    }
    write_fresh(disk, mark)?;
    Ok(Standing {
        mark: *mark,
        end: 8,
        count: 0,
    })
}
