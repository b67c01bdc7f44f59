ghost use Rattle.std.specs.Prelude.{◌≡◌, ◌≤◌, ◌<◌, ◌+◌, ◌-◌, ◌++◌, ◌^◌, ℕ, List, Option, length, take, drop, min, IfOk, OnOk, OnErr};
ghost use Rattle.ar_base.specs.Faults.{HasRisen};
ghost use Rattle.kept_disk.specs.Disk.{Cut, ArisesBy, Holds, Only, Torn};
ghost use Rattle.kept_disk.specs.Fuel.{Fuel, Spends, Wants};
ghost use Rattle.kept_disk.specs.Moments.{Elapses};

use ar_io::Failed;

/// One file that outlives its process, and what a crash may make of it.
///
/// Until a sync succeeds, each range that was written, and the part past the old end, may hold any bytes after a crash; what
/// stands outside of them stays. After a cut that is not synced the file may have any length from the new one to the old one,
/// with any bytes past the new end. After a sync that succeeded a crash leaves what a read gives. Contracts speak of a crash at
/// each moment, within a call too.
///
/// Each call may fail. Then the count of faults rose in it, a write or a cut may have been made in part, and a sync may have
/// kept anything that a crash might have left.
pub trait Disk {
    /// The bytes that a read gives.
    ghost seen: { Self → List ℕ };

    /// The bytes at the last sync that succeeded.
    ghost held: { Self → List ℕ };

    /// What a crash now may leave.
    ghost may_leave: { Self → List ℕ → Type 0 };

    /// The moment, as a number that does not fall.
    ghost moment: { Self → ℕ };

    /// What a crash at that moment or later might have left, within a call or between two.
    ghost left_since: { Self → ℕ → List ℕ → Type 0 };

    /// How many faults the disk has had, in a count that may stay at 2^64 - 1 once it is there.
    ghost faults: { Self → ℕ };

    /// What passes before a call fails, where that is told.
    ghost fuel: { Self → Option Fuel };

    /// The length of the file in bytes.
    fn len(&mut self) -> Result<u64, Failed>
        ensures length { IfOk result (λ n. n ≡ length (seen self.old)) }
        ensures seen { seen self.new ≡ seen self.old }
        ensures held { held self.new ≡ held self.old }
        ensures crash { (c : List ℕ) → may_leave self.new c → may_leave self.old c }
        ensures time { Elapses (moment self.old) (moment self.new) (left_since self.old)
            (left_since self.new) (may_leave self.new) }
        ensures spends { OnOk result (Spends (fuel self.old) (fuel self.new) 0 0) }
        ensures wants { OnErr result (Wants (fuel self.old) 0 0) }
        ensures failed { OnErr result (HasRisen (faults self.old) (faults self.new)) }
        ensures uncounted { OnOk result (faults self.new ≡ faults self.old) }
        ensures never_falls { faults self.old ≤ faults self.new };

    /// Reads from byte `at` on into the front of `out`, and answers how many bytes it gave: as many as there are, up to the
    /// length of `out`. What stands behind them in `out` stays; of `out` after a read that failed nothing is said.
    fn read(&mut self, at: u64, out: &mut [u8]) -> Result<usize, Failed>
        ensures count { IfOk result (λ n. n ≡ min (length out.old) (length (seen self.old) - at)) }
        ensures bytes { IfOk result (λ n.
            out.new ≡ take n (drop at (seen self.old)) ++ drop n out.old) }
        ensures seen { seen self.new ≡ seen self.old }
        ensures held { held self.new ≡ held self.old }
        ensures crash { (c : List ℕ) → may_leave self.new c → may_leave self.old c }
        ensures time { Elapses (moment self.old) (moment self.new) (left_since self.old)
            (left_since self.new) (may_leave self.new) }
        ensures spends { OnOk result (Spends (fuel self.old) (fuel self.new) 0 0) }
        ensures wants { OnErr result (Wants (fuel self.old) 0 0) }
        ensures failed { OnErr result (HasRisen (faults self.old) (faults self.new)) }
        ensures uncounted { OnOk result (faults self.new ≡ faults self.old) }
        ensures never_falls { faults self.old ≤ faults self.new };

    /// Writes these bytes over what stands from byte `at` on, and past the end. A write that would make the file 2^64 bytes
    /// long or longer fails.
    fn write_at(&mut self, at: u64, bytes: &[u8]) -> Result<(), Failed>
        requires { at ≤ length (seen self.old) }
        ensures written { OnOk result (Holds (seen self.old) at bytes.now (seen self.new)) }
        ensures fits { OnOk result (at + length bytes.now < 2 ^ 64) }
        ensures held { held self.new ≡ held self.old }
        ensures crash { ArisesBy (Torn at (length bytes.now)) (may_leave self.old)
            (may_leave self.new) }
        ensures time { Elapses (moment self.old) (moment self.new) (left_since self.old)
            (left_since self.new) (may_leave self.new) }
        ensures spends { OnOk result (Spends (fuel self.old) (fuel self.new) (length bytes.now) 1) }
        ensures wants { OnErr result (Wants (fuel self.old) (length bytes.now) 1) }
        ensures failed { OnErr result (HasRisen (faults self.old) (faults self.new)) }
        ensures uncounted { OnOk result (faults self.new ≡ faults self.old) }
        ensures never_falls { faults self.old ≤ faults self.new };

    /// Cuts the file to `len` bytes.
    fn cut(&mut self, len: u64) -> Result<(), Failed>
        requires { len ≤ length (seen self.old) }
        ensures cut { OnOk result (seen self.new ≡ take len (seen self.old)) }
        ensures held { held self.new ≡ held self.old }
        ensures crash { ArisesBy (Cut len) (may_leave self.old) (may_leave self.new) }
        ensures time { Elapses (moment self.old) (moment self.new) (left_since self.old)
            (left_since self.new) (may_leave self.new) }
        ensures spends { OnOk result
            (Spends (fuel self.old) (fuel self.new) (length (seen self.old) - len) 1) }
        ensures wants { OnErr result (Wants (fuel self.old) (length (seen self.old) - len) 1) }
        ensures failed { OnErr result (HasRisen (faults self.old) (faults self.new)) }
        ensures uncounted { OnOk result (faults self.new ≡ faults self.old) }
        ensures never_falls { faults self.old ≤ faults self.new };

    /// Keeps what was written: at Ok a crash leaves what a read gives.
    fn sync(&mut self) -> Result<(), Failed>
        ensures durable { OnOk result (Only (seen self.old) (may_leave self.new)) }
        ensures kept { OnOk result (held self.new ≡ seen self.old) }
        ensures held { OnErr result (held self.new ≡ held self.old) }
        ensures seen { seen self.new ≡ seen self.old }
        ensures crash { (c : List ℕ) → may_leave self.new c → may_leave self.old c }
        ensures time { Elapses (moment self.old) (moment self.new) (left_since self.old)
            (left_since self.new) (may_leave self.new) }
        ensures spends { OnOk result (Spends (fuel self.old) (fuel self.new) 0 1) }
        ensures wants { OnErr result (Wants (fuel self.old) 0 1) }
        ensures failed { OnErr result (HasRisen (faults self.old) (faults self.new)) }
        ensures uncounted { OnOk result (faults self.new ≡ faults self.old) }
        ensures never_falls { faults self.old ≤ faults self.new };

    /// What a read gives is what a crash now may leave.
    ghost seen_now: { (disk : Self) → may_leave disk (seen disk) };

    /// So is what the last sync kept.
    ghost held_now: { (disk : Self) → may_leave disk (held disk) };

    /// This moment is one of those since an earlier one.
    ghost counts_now: { (disk : Self) (t : ℕ) (c : List ℕ) → t ≤ moment disk → may_leave disk c
        → left_since disk t c };

    /// Since this moment there is no other.
    ghost only_now: { (disk : Self) (c : List ℕ) → left_since disk (moment disk) c
        → may_leave disk c };
}
