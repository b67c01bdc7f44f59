ghost use Rattle.std.specs.Prelude.{◌≡◌, ◌<◌, ◌≤◌, length, IfOk, OnOk, OnErr};
ghost use Rattle.std.specs.Io.{WritesAtMost};
ghost use Rattle.std.specs.Io.KnownBytes.{WriteAppends};
ghost use Rattle.ar_base.specs.Faults.{one_more};
ghost use Rattle.ar_io.specs.StdEdge.{write_faults, writer_of, UntoldSink};

use crate::{Failed, Sink};
use std::io::Write;

/// A sink over one of std's writers, as standard output. It does not tell what it wrote.
///
/// Each error of the writer is a fault, one of kind `Interrupted` as well, and so is a write that took
/// nothing of a piece that is not empty.
#[derive(Debug, Drop)]
pub struct StdSink<W> {
    writer: W,
    faults: u64,
}

impl<W: Write> StdSink<W> {
    /// A sink over this writer that had no fault.
    pub fn new(writer: W) -> StdSink<W>
        ensures writer { writer_of result ≡ writer }
        ensures none { write_faults result ≡ 0 }
    {
        StdSink { writer, faults: 0 }
    }
}

impl<W: Write> Sink for StdSink<W> {
    ghost wrote = { UntoldSink };

    ghost faults = { write_faults };

    fn write(&mut self, piece: &[u8]) -> Result<usize, Failed>
        ensures bound { WritesAtMost result piece.now }
        ensures progress { IfOk result (λ n. 0 < length piece.now → 0 < n) }
        ensures never_falls { write_faults self.old ≤ write_faults self.new }

        // A call that failed is counted and no other, and the bytes are those that the writer took,
        // where the writer tells them.
        ensures counted { OnErr result (write_faults self.new ≡ one_more (write_faults self.old)) }
        ensures uncounted { OnOk result (write_faults self.new ≡ write_faults self.old) }
        ensures passed { WriteAppends (W.contents (writer_of self.old))
            (W.contents (writer_of self.new)) result piece.now }
    {
        match self.writer.write(piece) {
            Ok(count) if count > 0 || piece.is_empty() => Ok(count),
            _ => {
                self.faults = self.faults.saturating_add(1);
                Err(Failed)
            }
        }
    }
}
