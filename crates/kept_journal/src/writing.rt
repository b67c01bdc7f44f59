//! A record is put behind the closed gate, and then the gate is opened.

ghost use Rattle.std.specs.Prelude.{◌≡◌, ◌≤◌, ◌<◌, ◌+◌, ◌++◌, ◌∷◌, [], length, OnOk, OnErr};
ghost use Rattle.ar_base.specs.Faults.{HasRisen};
ghost use Rattle.kept_disk.specs.Moments.{LeavesOnly};
ghost use Rattle.kept_journal.specs.Appending.{SpendsAll, WantsAll, staged_text};
ghost use Rattle.kept_journal.specs.Journal.{IsBeforeOrAfter, Stands, recovered};
ghost use Rattle.kept_journal.specs.Settled.{IsSettled};

use crate::KeptText;
use crate::standing::Standing;
use kept_disk::{Disk, Failed};

/// Puts a record behind the last gate, which is not open, and then opens it.
pub(crate) fn put_behind<K: Disk>(
    disk: &mut K,
    standing: &Standing,
    text: &KeptText,
) -> Result<(), Failed>
    requires { IsSettled standing.now.mark standing.now.end standing.now.count (K.seen disk.old)
        (K.may_leave disk.old) }
    ensures any_moment { LeavesOnly K.moment K.left_since disk.old disk.new
        (IsBeforeOrAfter standing.now.mark (recovered (K.seen disk.old)) text.now) }
    ensures ok { OnOk result
        (IsSettled standing.now.mark (standing.now.end + length (staged_text text.now))
        (standing.now.count + 1) (K.seen disk.new) (K.may_leave disk.new)) }
    ensures texts { OnOk result (recovered (K.seen disk.new) ≡ recovered (K.seen disk.old)
        ++ text.now ∷ []) }
    ensures held { OnErr result
        (Stands standing.now.mark (recovered (K.seen disk.old)) (K.held disk.new)) }
    ensures spends { OnOk result
        (SpendsAll (K.fuel disk.old) (K.fuel disk.new) 4 (length (staged_text text.now) + 1) 4) }
    ensures wants { OnErr result
        (WantsAll (K.fuel disk.old) 4 (length (staged_text text.now) + 1) 4) }
    ensures failed { OnErr result (HasRisen (K.faults disk.old) (K.faults disk.new)) }
    ensures uncounted { OnOk result (K.faults disk.new ≡ K.faults disk.old) }
    ensures never_falls { K.faults disk.old ≤ K.faults disk.new }
{
    disk.write_at(standing.end + 1, text.bytes())?;
    disk.sync()?;
    disk.write_at(standing.end, &[1])?;
    disk.sync()?;
    Ok(())
}
