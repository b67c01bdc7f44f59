ghost use Rattle.std.specs.Prelude.{◌≡◌, ◌≤◌, None, OnOk, OnErr};
ghost use Rattle.std.specs.Io.{ReadsAtMost};
ghost use Rattle.std.specs.Io.KnownBytes.{ReadConsumes};
ghost use Rattle.ar_base.specs.Faults.{one_more};
ghost use Rattle.ar_io.specs.StdEdge.{read_faults, reader_of};

use crate::{Failed, Source};
use std::io::Read;

/// A source over one of std's readers, as standard input. It does not tell what is left.
///
/// Each error of the reader is a fault, one of kind `Interrupted` as well.
#[derive(Debug, Drop)]
pub struct StdSource<R> {
    reader: R,
    faults: u64,
}

impl<R: Read> StdSource<R> {
    /// A source over this reader that had no fault.
    pub fn new(reader: R) -> StdSource<R>
        ensures reader { reader_of result ≡ reader }
        ensures none { read_faults result ≡ 0 }
    {
        StdSource { reader, faults: 0 }
    }
}

impl<R: Read> Source for StdSource<R> {
    ghost left = { λ _. None };

    ghost faults = { read_faults };

    fn read(&mut self, buf: &mut [u8]) -> Result<usize, Failed>
        ensures bound { ReadsAtMost result buf.new }
        ensures never_falls { read_faults self.old ≤ read_faults self.new }

        // Each error of the reader is counted and nothing else, and the bytes are those that it gave,
        // where the reader tells them.
        ensures counted { OnErr result (read_faults self.new ≡ one_more (read_faults self.old)) }
        ensures uncounted { OnOk result (read_faults self.new ≡ read_faults self.old) }
        ensures passed { ReadConsumes (R.remaining (reader_of self.old))
            (R.remaining (reader_of self.new)) result buf.new }
    {
        match self.reader.read(buf) {
            Ok(count) => Ok(count),
            Err(_) => {
                self.faults = self.faults.saturating_add(1);
                Err(Failed)
            }
        }
    }
}
