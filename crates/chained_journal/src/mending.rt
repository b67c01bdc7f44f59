//! The one torn end that a crash can leave is made a journal again.

ghost use Rattle.std.specs.Prelude.{◌≡◌, ◌≢◌, ◌<◌, ◌^◌, ◌++◌, false, ℕ, List, length, IfOk, IfErr, IsTrue, OnOk, OnErr, IsErrOf};
ghost use Rattle.ar_base.specs.Faults.{HasRisen};
ghost use Rattle.kept_disk.specs.Disk.{Only};
ghost use Rattle.kept_disk.specs.Moments.{LeavesOnly};
ghost use Rattle.chained_journal.specs.Journal.{IsBeforeOrAfter, IsTornEnd, record_text, shut_gate};
ghost use Rattle.chained_journal.specs.Mending.{IsMendedOrBefore, IsTornAt, IsTornOrWhole, Mends, RefusesMend, TakesAny, any_determined};

use crate::gate::{GATE_LEN, OPEN, SHUT, begins};
use crate::opening::{check_header, is_shut_at, read_whole};
use crate::reading::{load, record_in};
use crate::{OpenFault, Replay, ReplayFault, Title, Witness};
use kept_disk::{Disk, Failed};
use std::alloc::Global;

/// A party that takes each text, and stays as it is.
#[derive(Drop)]
struct Anybody {}

impl Replay for Anybody {
    ghost takes = { TakesAny };

    ghost determined = { any_determined };

    fn replay(&mut self, _alloc: Global, _text: &[u8], _more: bool) -> Result<(), ReplayFault> {
        Ok(())
    }
}

/// Does a whole record whose chain is right stand here, behind texts with this chain, and behind it a shut gate and no more?
fn is_whole_end(chain: &[u8; 32], bytes: &[u8]) -> bool
    ensures yes { IsTrue result → (text : List ℕ) × (length text < 2 ^ 32)
        × (bytes.now ≡ record_text chain.now text ++ shut_gate) }
    ensures no { result ≡ false → (text : List ℕ) → length text < 2 ^ 32
        → bytes.now ≢ record_text chain.now text ++ shut_gate }
{
    match record_in(chain, bytes) {
        Some(record) => record.1.len() == GATE_LEN && begins(record.1, &SHUT),
        None => false,
    }
}

/// The place of the torn gate, where the file is the one torn end; `None` where it stands for its texts.
fn torn_gate(alloc: Global, title: &Title, file: &[u8]) -> Result<Option<u64>, OpenFault>
    ensures ok { IfOk result (λ torn. IsTornOrWhole title.now file.now torn) }
    ensures refused { IfErr result (λ e. RefusesMend title.now file.now e) }
{
    if let Err(fault) = check_header(title, file) {
        return Err(fault);
    }
    let mut anybody = Anybody {};
    let witness = Witness::of_nothing(title);
    let (standing, _chain) = match load(alloc, title, &witness, file, &mut anybody) {
        Ok(loaded) => loaded,
        Err(fault) => return Err(fault),
    };
    if is_shut_at(file, standing.end) {
        return Ok(None);
    }
    let (_records, rest) = file.split_at(standing.end as usize);
    let (_gate, behind) = rest.split_at(GATE_LEN);
    if !is_whole_end(&standing.chain, behind) {
        return Err(OpenFault::Unsure(standing.end));
    }
    Ok(Some(standing.end))
}

/// Opens the torn gate at this place.
fn open_gate<K: Disk>(disk: &mut K, title: &Title, place: u64) -> Result<(), Failed>
    requires torn { IsTornAt title.now (K.seen disk.old) place }
    requires titled { length title.now.header ≡ 40 }
    requires only { Only (K.seen disk.old) (K.may_leave disk.old) }
    ensures ok { OnOk result (Mends title.now (K.seen disk.old) (K.seen disk.new)
        × Only (K.seen disk.new) (K.may_leave disk.new)) }
    ensures any_moment { LeavesOnly K.moment K.left_since disk.old disk.new
        (λ c. (texts : List (List ℕ)) × (text : List ℕ)
        × IsTornEnd title.now texts text (K.seen disk.old)
        × IsBeforeOrAfter title.now texts text c) }
    ensures failed { OnErr result (HasRisen (K.faults disk.old) (K.faults disk.new)) }
    ensures uncounted { OnOk result (K.faults disk.new ≡ K.faults disk.old) }
{
    disk.write_at(place, &OPEN)?;
    disk.sync()?;
    Ok(())
}

/// Makes the one torn end a journal again, and leaves a journal as it is.
fn mend_on<K: Disk>(alloc: Global, title: &Title, disk: &mut K) -> Result<(), OpenFault>
    ensures ok { OnOk result (Mends title.now (K.seen disk.old) (K.seen disk.new)
        × Only (K.seen disk.new) (K.may_leave disk.new)) }
    ensures any_moment { LeavesOnly K.moment K.left_since disk.old disk.new
        (IsMendedOrBefore title.now (K.may_leave disk.old) (K.seen disk.old)) }
    ensures kept { IfErr result (λ e. e ≢ OpenFault.DiskFault → K.seen disk.new ≡ K.seen disk.old) }
    ensures fault { IsErrOf result OpenFault.DiskFault
        → HasRisen (K.faults disk.old) (K.faults disk.new) }
    ensures refused { IfErr result (λ e. e ≢ OpenFault.DiskFault
        → RefusesMend title.now (K.seen disk.old) e) }
{
    disk.sync()?;
    let file = read_whole(alloc, disk)?;
    let Some(place) = torn_gate(alloc, title, &file)? else {
        return Ok(());
    };
    open_gate(disk, title, place)?;
    Ok(())
}

/// Makes the one torn end that a crash can leave a journal again: a gate that was written in part is opened, where a whole record
/// stands behind it, whose chain is right, and then a shut gate and no more. That record was made last before the gate was
/// written. A file that stands for its texts is left as it is; each other is refused and stays.
pub fn mend<K: Disk>(alloc: Global, title: &Title, disk: K) -> Result<K, (K, OpenFault)>
    ensures ok { IfOk result (λ new. Mends title.now (K.seen disk) (K.seen new)
        × Only (K.seen new) (K.may_leave new)) }
    ensures any_moment { IfOk result (λ new. LeavesOnly K.moment K.left_since disk new
        (IsMendedOrBefore title.now (K.may_leave disk) (K.seen disk))) }
    ensures any_moment_err { IfErr result (λ e. LeavesOnly K.moment K.left_since disk e.0
        (IsMendedOrBefore title.now (K.may_leave disk) (K.seen disk))) }
    ensures kept { IfErr result (λ e. e.1 ≢ OpenFault.DiskFault → K.seen e.0 ≡ K.seen disk) }
    ensures fault { IfErr result (λ e.
        e.1 ≡ OpenFault.DiskFault → HasRisen (K.faults disk) (K.faults e.0)) }
    ensures refused { IfErr result (λ e. e.1 ≢ OpenFault.DiskFault
        → RefusesMend title.now (K.seen disk) e.1) }
{
    let mut disk = disk;
    match mend_on(alloc, title, &mut disk) {
        Ok(()) => Ok(disk),
        Err(fault) => Err((disk, fault)),
    }
}
