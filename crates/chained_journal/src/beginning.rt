//! A journal is begun in a file in which nothing was.

ghost use Rattle.std.specs.Prelude.{◌≡◌, ◌≤◌, ◌++◌, ◌⊎◌, ℕ, List, length, OnOk, OnErr, IsErrOf};
ghost use Rattle.ar_base.specs.Faults.{HasRisen};
ghost use Rattle.kept_disk.specs.Disk.{Only};
ghost use Rattle.kept_disk.specs.Moments.{LeavesOnly};
ghost use Rattle.chained_journal.specs.Journal.{shut_gate};
ghost use Rattle.chained_journal.specs.Refusals.{IsBlank};

use crate::gate::are_zeros;
use crate::opening::LEAST_LEN;
use crate::{BeginFault, Title};
use kept_disk::{Disk, Failed};

/// Is the file blank? Where it is not, or a call of the disk fails, it is refused.
fn check_blank<K: Disk>(disk: &mut K) -> Result<(), BeginFault>
    ensures blank { OnOk result (IsBlank (K.seen disk.old)) }
    ensures begun { IsErrOf result BeginFault.Begun → ¬ IsBlank (K.seen disk.old) }
    ensures seen { K.seen disk.new ≡ K.seen disk.old }
    ensures crash { (c : List ℕ) → K.may_leave disk.new c → K.may_leave disk.old c }
    ensures any_moment { LeavesOnly K.moment K.left_since disk.old disk.new (K.may_leave disk.old) }
    ensures fault { IsErrOf result BeginFault.DiskFault
        → HasRisen (K.faults disk.old) (K.faults disk.new) }
    ensures uncounted { IsErrOf result BeginFault.Begun → K.faults disk.new ≡ K.faults disk.old }
    ensures uncounted_ok { OnOk result (K.faults disk.new ≡ K.faults disk.old) }
{
    let len = disk.len()?;
    if len > LEAST_LEN as u64 {
        return Err(BeginFault::Begun);
    }
    let mut bytes = [0u8; LEAST_LEN];
    disk.read(0, &mut bytes)?;
    if !are_zeros(&bytes[..len as usize]) {
        return Err(BeginFault::Begun);
    }
    Ok(())
}

/// Writes the header and a shut gate over a blank file.
fn write_header<K: Disk>(disk: &mut K, title: &Title) -> Result<(), Failed>
    requires short { length (K.seen disk.old) ≤ LEAST_LEN }
    requires only { Only (K.seen disk.old) (K.may_leave disk.old) }
    ensures ok { OnOk result ((K.seen disk.new ≡ title.now.header ++ shut_gate)
        × Only (K.seen disk.new) (K.may_leave disk.new)) }
    ensures titled { length title.now.header ≡ 40 }
    ensures any_moment { LeavesOnly K.moment K.left_since disk.old disk.new
        (λ c. length c ≤ LEAST_LEN) }
    ensures failed { OnErr result (HasRisen (K.faults disk.old) (K.faults disk.new)) }
    ensures uncounted { OnOk result (K.faults disk.new ≡ K.faults disk.old) }
{
    let mut bytes = [0u8; LEAST_LEN];
    bytes[..40].copy_from_slice(&title.header);
    disk.write_at(0, &bytes)?;
    disk.sync()?;
    Ok(())
}

/// Begins a journal in a blank file.
pub(crate) fn begin_on<K: Disk>(disk: &mut K, title: &Title) -> Result<(), BeginFault>
    ensures blank { OnOk result (IsBlank (K.seen disk.old)) }
    ensures begun { IsErrOf result BeginFault.Begun → ¬ IsBlank (K.seen disk.old) }
    ensures ok { OnOk result ((K.seen disk.new ≡ title.now.header ++ shut_gate)
        × Only (K.seen disk.new) (K.may_leave disk.new)) }
    ensures titled { length title.now.header ≡ 40 }
    ensures any_moment { LeavesOnly K.moment K.left_since disk.old disk.new
        (λ c. K.may_leave disk.old c ⊎ (IsBlank (K.seen disk.old) × (length c ≤ LEAST_LEN))) }
    ensures kept { IsErrOf result BeginFault.Begun → K.seen disk.new ≡ K.seen disk.old }
    ensures fault { IsErrOf result BeginFault.DiskFault
        → HasRisen (K.faults disk.old) (K.faults disk.new) }
    ensures uncounted { OnOk result (K.faults disk.new ≡ K.faults disk.old) }
    ensures uncounted_err { IsErrOf result BeginFault.Begun
        → K.faults disk.new ≡ K.faults disk.old }
{
    disk.sync()?;
    check_blank(disk)?;
    write_header(disk, title)?;
    Ok(())
}
