ghost use Rattle.std.specs.Prelude.{ℕ, ◌≡◌, ◌≤◌, ◌<◌, List, length, take, IfOk, OnOk, OnErr};
ghost use Rattle.std.specs.Io.{WritesAtMost};
ghost use Rattle.ar_base.specs.Faults.{HasRisen};
ghost use Rattle.ar_io.specs.Wrote.{Appended, Unchanged};

use crate::Failed;

/// What bytes are written to.
pub trait Sink {
    /// The sink may have written these bytes, all of them, since it was made. It is a relation, so that
    /// a sink which keeps only a digest of the bytes can meet it.
    ghost wrote: { Self → List ℕ → Type 0 };

    /// How many faults the sink has had, in a count that may stay at 2^64 - 1 once it is there.
    ghost faults: { Self → ℕ };

    /// Writes some bytes of the front of `piece`, and answers how many they are: at least one where
    /// `piece` is not empty. A write that failed wrote nothing, and the count of faults rose in it. It
    /// stays in each other write, so that no fault is hidden.
    fn write(&mut self, piece: &[u8]) -> Result<usize, Failed>
        ensures bound { WritesAtMost result piece.now }
        ensures progress { IfOk result (λ n. 0 < length piece.now → 0 < n) }
        ensures appends { IfOk result (λ n. Appended wrote self.old self.new (take n piece.now)) }
        ensures kept { OnErr result (Unchanged wrote self.old self.new) }
        ensures never_falls { faults self.old ≤ faults self.new }
        ensures failed { OnErr result (HasRisen (faults self.old) (faults self.new)) }
        ensures uncounted { OnOk result (faults self.new ≡ faults self.old) };
}
