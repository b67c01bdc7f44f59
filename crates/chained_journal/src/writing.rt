//! A record is put behind the shut gate, and then the gate is opened.

ghost use Rattle.std.specs.Prelude.{◌≡◌, ◌≤◌, ◌<◌, ◌+◌, ◌^◌, ◌++◌, ◌∷◌, [], ℕ, List, length, OnOk, OnErr};
ghost use Rattle.ar_base.specs.Faults.{HasRisen};
ghost use Rattle.kept_disk.specs.Moments.{LeavesOnly};
ghost use Rattle.chained_journal.specs.Appending.{staged_text};
ghost use Rattle.chained_journal.specs.Journal.{IsBeforeOrAfter, Stands, link, recovered};
ghost use Rattle.chained_journal.specs.Settled.{IsSettled};

use crate::Title;
use crate::gate::{GATE_LEN, OPEN};
use crate::standing::Standing;
use kept_disk::{Disk, Failed};

/// Puts the record of a text behind the last gate, which is shut, and then opens it. The bytes are those of the record and of the
/// shut gate behind it.
pub(crate) fn put_behind<K: Disk>(
    disk: &mut K,
    title: &Title,
    standing: &Standing,
    bytes: &[u8],
) -> Result<(), Failed>
    requires { IsSettled title.now standing.now.end standing.now.count standing.now.chain
        (K.seen disk.old) (K.may_leave disk.old) }
    ensures any_moment { (text : List ℕ) → length text < 2 ^ 32
        → bytes.now ≡ staged_text standing.now.chain text
        → LeavesOnly K.moment K.left_since disk.old disk.new
        (IsBeforeOrAfter title.now (recovered (K.seen disk.old)) text) }
    ensures ok { OnOk result ((text : List ℕ) → length text < 2 ^ 32
        → bytes.now ≡ staged_text standing.now.chain text
        → IsSettled title.now (standing.now.end + length bytes.now) (standing.now.count + 1)
        (link standing.now.chain text) (K.seen disk.new) (K.may_leave disk.new)) }
    ensures texts { OnOk result ((text : List ℕ) → length text < 2 ^ 32
        → bytes.now ≡ staged_text standing.now.chain text
        → recovered (K.seen disk.new) ≡ recovered (K.seen disk.old) ++ text ∷ []) }
    ensures held { OnErr result
        (Stands title.now (recovered (K.seen disk.old)) (K.held disk.new)) }
    ensures failed { OnErr result (HasRisen (K.faults disk.old) (K.faults disk.new)) }
    ensures uncounted { OnOk result (K.faults disk.new ≡ K.faults disk.old) }
    ensures never_falls { K.faults disk.old ≤ K.faults disk.new }
{
    disk.write_at(standing.end + GATE_LEN as u64, bytes)?;
    disk.sync()?;
    disk.write_at(standing.end, &OPEN)?;
    disk.sync()?;
    Ok(())
}
