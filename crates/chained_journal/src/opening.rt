//! A file that a crash may have left is made a journal again.

ghost use Rattle.std.specs.Prelude.{◌≡◌, ◌≢◌, ◌↔◌, ◌≤◌, ◌<◌, ◌+◌, ◌++◌, ◌^◌, ◌⊎◌, false, ℕ, List, length, take, drop, IfOk, IfErr, IsTrue, OnOk, OnErr, IsErrOf};
ghost use Rattle.ar_base.specs.Faults.{HasRisen};
ghost use Rattle.kept_disk.specs.Disk.{Only};
ghost use Rattle.kept_disk.specs.Moments.{LeavesOnly};
ghost use Rattle.chained_journal.specs.Journal.{IsAsBefore, Stands, records, recovered, shut_gate, start};
ghost use Rattle.chained_journal.specs.Loaded.{IsRead};
ghost use Rattle.chained_journal.specs.Refusals.{BearsOut, IsBlank, IsNoJournal, IsOfAnother, IsPiece, Refusal};
ghost use Rattle.chained_journal.specs.Replays.{ReachesBy};
ghost use Rattle.chained_journal.specs.Settled.{IsSettled};

use crate::gate::{GATE_LEN, SHUT, are_zeros, begins};
use crate::reading::load;
use crate::standing::Standing;
use crate::{OpenFault, Replay, Title, Witness};
use kept_disk::{Disk, Failed};
use std::alloc::Global;

/// How many bytes a journal with no texts has: a header and a gate.
pub(crate) const LEAST_LEN: usize = 48;

/// All bytes of the file.
pub(crate) fn read_whole<K: Disk>(alloc: Global, disk: &mut K) -> Result<Vec<u8>, OpenFault>
    ensures bytes { IfOk result (λ bytes. bytes.items ≡ K.seen disk.old) }
    ensures short { IfOk result (λ bytes. length bytes.items < 2 ^ 64) }
    ensures seen { K.seen disk.new ≡ K.seen disk.old }
    ensures crash { (c : List ℕ) → K.may_leave disk.new c → K.may_leave disk.old c }
    ensures any_moment { LeavesOnly K.moment K.left_since disk.old disk.new (K.may_leave disk.old) }
    ensures fault { IsErrOf result OpenFault.DiskFault
        → HasRisen (K.faults disk.old) (K.faults disk.new) }
    ensures other { IfErr result (λ e. e ≢ OpenFault.DiskFault → e ≡ OpenFault.Memory) }
    ensures uncounted { OnOk result (K.faults disk.new ≡ K.faults disk.old) }
    ensures uncounted_err { IfErr result (λ e.
        e ≢ OpenFault.DiskFault → K.faults disk.new ≡ K.faults disk.old) }
{
    let len = disk.len()?;
    let mut bytes = vec![in alloc; 0u8; len as usize]?;
    disk.read(0, &mut bytes)?;
    Ok(bytes)
}

/// Does a file begin with this title's header, and is it long enough for a gate behind it?
pub(crate) fn check_header(title: &Title, file: &[u8]) -> Result<(), OpenFault>
    ensures header { OnOk result (file.now ≡ title.now.header ++ drop 40 file.now) }
    ensures long { OnOk result (LEAST_LEN ≤ length file.now) }
    ensures titled { length title.now.header ≡ 40 }
    ensures refused { IfErr result (λ e.
        ((e ≡ OpenFault.NotBegun) × IsBlank file.now)
        ⊎ ((e ≡ OpenFault.Damaged 0) × IsPiece file.now)
        ⊎ ((e ≡ OpenFault.NotJournal) × IsNoJournal title.now file.now)
        ⊎ ((e ≡ OpenFault.NotOwn) × IsOfAnother title.now file.now)) }
{
    if file.len() <= LEAST_LEN && are_zeros(file) {
        return Err(OpenFault::NotBegun);
    }
    if file.len() < LEAST_LEN {
        return Err(OpenFault::Damaged(0));
    }
    let (mark, _whose) = title.header.split_at(8);
    if !begins(file, mark) {
        return Err(OpenFault::NotJournal);
    }
    if !begins(file, &title.header) {
        return Err(OpenFault::NotOwn);
    }
    Ok(())
}

/// Does a shut gate stand at this place?
pub(crate) fn is_shut_at(file: &[u8], place: u64) -> bool
    requires { place ≤ length file.now }
    ensures yes { IsTrue result → drop place file.now ≡ shut_gate ++ drop 8 (drop place file.now) }
    ensures no { result ≡ false → (behind : List ℕ) → drop place file.now ≢ shut_gate ++ behind }
{
    let (_records, rest) = file.split_at(place as usize);
    begins(rest, &SHUT)
}

/// Are there as many texts as were witnessed, and is this their chain?
fn bears_out(witness: &Witness, count: u64, chain: &[u8; 32]) -> bool
    ensures { IsTrue result ↔ ((witness.now.count ≤ count) × (chain.now ≡ witness.now.chain)) }
{
    witness.count <= count && *chain == witness.chain
}

/// Has a party take the texts of a file again, which is to bear out a witness.
fn read_again<P: Replay>(
    alloc: Global,
    title: &Title,
    witness: &Witness,
    file: &[u8],
    party: &mut P,
) -> Result<Standing, OpenFault>
    ensures ok { IfOk result (λ standing.
        IsRead P.takes party.old party.new title.now witness.now file.now standing) }
    ensures refused { IfErr result (λ e.
        Refusal P.takes title.now witness.now party.old file.now e) }
{
    if let Err(fault) = check_header(title, file) {
        return Err(fault);
    }
    let (standing, at_witness) = load(alloc, title, witness, file, party)?;
    if !is_shut_at(file, standing.end) {
        return Err(OpenFault::Unsure(standing.end));
    }
    if !bears_out(witness, standing.count, &at_witness) {
        return Err(OpenFault::Older(witness.count));
    }
    Ok(standing)
}

/// Cuts a journal of so many bytes behind its shut gate.
fn trim<K: Disk>(disk: &mut K, title: &Title, standing: &Standing, len: usize) -> Result<(), Failed>
    requires titled { length title.now.header ≡ 40 }
    requires stands { Stands title.now (recovered (K.seen disk.old)) (K.seen disk.old) }
    requires end { standing.now.end
        ≡ 40 + length (records (start title.now) (recovered (K.seen disk.old))) }
    requires len { len ≡ length (K.seen disk.old) }
    requires only { Only (K.seen disk.old) (K.may_leave disk.old) }
    ensures ok { OnOk result ((K.seen disk.new ≡ take (standing.now.end + 8) (K.seen disk.old))
        × Only (K.seen disk.new) (K.may_leave disk.new)) }
    ensures any_moment { LeavesOnly K.moment K.left_since disk.old disk.new
        (Stands title.now (recovered (K.seen disk.old))) }
    ensures failed { OnErr result (HasRisen (K.faults disk.old) (K.faults disk.new)) }
    ensures uncounted { OnOk result (K.faults disk.new ≡ K.faults disk.old) }
{
    let keep = standing.end + GATE_LEN as u64;
    if keep == len as u64 {
        disk.sync()?;
        return Ok(());
    }
    disk.cut(keep)?;
    disk.sync()?;
    Ok(())
}

/// Has a party take the texts of a file, and cuts it behind them.
fn resume<K: Disk, P: Replay>(
    alloc: Global,
    title: &Title,
    witness: &Witness,
    file: &[u8],
    disk: &mut K,
    party: &mut P,
) -> Result<Standing, OpenFault>
    requires file { file.now ≡ K.seen disk.old }
    requires only { Only (K.seen disk.old) (K.may_leave disk.old) }
    requires within { length file.now < 2 ^ 64 }
    ensures replays { OnOk result (ReachesBy P.takes party.old (recovered file.now) party.new) }
    ensures borne { OnOk result (BearsOut title.now witness.now (recovered file.now)) }
    ensures ok { IfOk result (λ s. IsSettled title.now s.end s.count s.chain (K.seen disk.new)
        (K.may_leave disk.new)) }
    ensures texts { OnOk result (recovered (K.seen disk.new) ≡ recovered file.now) }
    ensures stood { OnOk result (Stands title.now (recovered file.now) file.now) }
    ensures any_moment { LeavesOnly K.moment K.left_since disk.old disk.new
        (λ c. (c ≡ file.now) ⊎ (Stands title.now (recovered file.now) file.now
        × Stands title.now (recovered file.now) c)) }
    ensures kept { IfErr result (λ e. e ≢ OpenFault.DiskFault → K.seen disk.new ≡ K.seen disk.old) }
    ensures uncounted { OnOk result (K.faults disk.new ≡ K.faults disk.old) }
    ensures uncounted_err { IfErr result (λ e.
        e ≢ OpenFault.DiskFault → K.faults disk.new ≡ K.faults disk.old) }
    ensures fault { IsErrOf result OpenFault.DiskFault
        → HasRisen (K.faults disk.old) (K.faults disk.new) }
    ensures refused { IfErr result (λ e. e ≢ OpenFault.DiskFault
        → Refusal P.takes title.now witness.now party.old file.now e) }
{
    let standing = read_again(alloc, title, witness, file, party)?;
    trim(disk, title, &standing, file.len())?;
    Ok(standing)
}

/// Reads a file that a crash may have left, has a party take its texts, and makes it a journal that ends with its shut gate.
pub(crate) fn prepare<K: Disk, P: Replay>(
    alloc: Global,
    title: &Title,
    witness: &Witness,
    disk: &mut K,
    party: &mut P,
) -> Result<Standing, OpenFault>
    ensures replays { OnOk result
        (ReachesBy P.takes party.old (recovered (K.seen disk.old)) party.new) }
    ensures borne { OnOk result (BearsOut title.now witness.now (recovered (K.seen disk.old))) }
    ensures ok { IfOk result (λ s. IsSettled title.now s.end s.count s.chain (K.seen disk.new)
        (K.may_leave disk.new)) }
    ensures texts { OnOk result (recovered (K.seen disk.new) ≡ recovered (K.seen disk.old)) }
    ensures stood { OnOk result (Stands title.now (recovered (K.seen disk.old)) (K.seen disk.old)) }
    ensures any_moment { LeavesOnly K.moment K.left_since disk.old disk.new
        (IsAsBefore title.now (K.may_leave disk.old) (K.seen disk.old)) }
    ensures kept { IfErr result (λ e. e ≢ OpenFault.DiskFault → K.seen disk.new ≡ K.seen disk.old) }
    ensures uncounted { OnOk result (K.faults disk.new ≡ K.faults disk.old) }
    ensures uncounted_err { IfErr result (λ e.
        e ≢ OpenFault.DiskFault → K.faults disk.new ≡ K.faults disk.old) }
    ensures fault { IsErrOf result OpenFault.DiskFault
        → HasRisen (K.faults disk.old) (K.faults disk.new) }
    ensures refused { IfErr result (λ e. e ≢ OpenFault.DiskFault
        → Refusal P.takes title.now witness.now party.old (K.seen disk.old) e) }
{
    disk.sync()?;
    let file = read_whole(alloc, disk)?;
    resume(alloc, title, witness, &file, disk, party)
}
