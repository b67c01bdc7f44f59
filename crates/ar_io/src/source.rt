ghost use Rattle.std.specs.Prelude.{ℕ, ◌≡◌, ◌≤◌, List, Option, OnOk, OnErr};
ghost use Rattle.std.specs.Io.{ReadsAtMost};
ghost use Rattle.std.specs.Io.KnownBytes.{ReadConsumes};
ghost use Rattle.ar_base.specs.Faults.{HasRisen};

use crate::Failed;

/// What bytes are read from.
pub trait Source {
    /// The bytes that are left to be read, where the source tells them.
    ghost left: { Self → Option (List ℕ) };

    /// How many faults the source has had, in a count that may stay at 2^64 - 1 once it is there.
    ghost faults: { Self → ℕ };

    /// Reads some of the next bytes into the front of `buf`, and answers how many they are, which is
    /// at most the length of `buf`. What `buf` holds behind them is left open.
    ///
    /// No bytes for a buffer that is not empty mean the end: then nothing is left. A read that failed
    /// took nothing, and the count of faults rose in it. It stays in each other read, so that no fault is
    /// hidden.
    fn read(&mut self, buf: &mut [u8]) -> Result<usize, Failed>
        ensures bound { ReadsAtMost result buf.new }
        ensures bytes { ReadConsumes (left self.old) (left self.new) result buf.new }
        ensures never_falls { faults self.old ≤ faults self.new }
        ensures failed { OnErr result (HasRisen (faults self.old) (faults self.new)) }
        ensures uncounted { OnOk result (faults self.new ≡ faults self.old) };
}
