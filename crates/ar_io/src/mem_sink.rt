ghost use Rattle.std.specs.Prelude.{◌≡◌, ◌≤◌, ◌↔◌, [], take, max, IsErr, IfOk, OnOk, OnErr};
ghost use Rattle.ar_io.specs.MemSink.{HasWritten, Refuses, taken_count, after_write, after_failed_write};

use crate::calls::Calls;
use crate::{Failed, Sink};
use std::alloc::{AllocError, Global};
use std::marker::Model;

/// A sink in memory, with room that is reserved beforehand, which fails on demand.
///
/// A contract sees it as the bytes that were written, the room that is left for more, and its calls,
/// which are numbered as those of a `MemSource`. A write takes no memory.
#[derive(Debug, Drop)]
pub struct MemSink {
    written: Vec<u8>,
    room: usize,
    calls: Calls,
}

impl Model for MemSink {
    ghost use Rattle.std.specs.Prelude.{◌+◌, ◌≤◌, vec_len, vec_capacity};
    ghost use Rattle.ar_io.specs.MemSink.{SinkState};

    ghost Value = { SinkState };

    ghost view = { λ s. record { written = s.written.items; room = s.room; calls = s.calls } };

    ghost invariant = { λ s. vec_len s.written + s.room ≤ vec_capacity s.written };
}

impl MemSink {
    /// A sink that wrote nothing and has no room. Its calls of a number in `fails`, counted from 1,
    /// fail.
    pub fn new(alloc: Global, fails: Vec<u64>) -> MemSink
        ensures { result ≡ record {
          written = [];
          room = 0;
          calls = record { fails = fails.items; made = 0; faults = 0 };
        } }
    {
        MemSink {
            written: Vec::new(alloc),
            room: 0,
            calls: Calls::new(fails),
        }
    }

    /// Makes room for `n` bytes more than were written, where there is less. The only error is want of
    /// memory, and then the sink is as it was. The allocator is the one that the sink was made with.
    pub fn reserve(&mut self, _alloc: Global, n: usize) -> Result<(), AllocError>
        ensures ok { OnOk result (self.new ≡ record self.old { room = max self.old.room n }) }
        ensures err { OnErr result (self.new ≡ self.old) }
    {
        self.written.reserve(n)?;
        self.room = self.room.max(n);
        Ok(())
    }

    /// The bytes that were written.
    pub fn written(&self) -> &[u8]
        ensures { result.now ≡ self.now.written }
    {
        self.written.as_slice()
    }
}

impl Sink for MemSink {
    ghost wrote = { HasWritten };

    ghost faults = { λ s. s.calls.faults };

    /// A call that is to fail writes nothing, nor does one with a piece that is not empty where there
    /// is no room. Another takes the whole piece, or so much of its front as there is room for.
    fn write(&mut self, piece: &[u8]) -> Result<usize, Failed>
        // Which call fails, and what it leaves.
        ensures refused { IsErr result ↔ Refuses self.old piece.now }
        ensures after_err { OnErr result (self.new ≡ after_failed_write self.old) }

        // How many bytes another takes, and what it leaves.
        ensures count { IfOk result (λ n. n ≡ taken_count self.old piece.now) }
        ensures after_ok { IfOk result (λ n. self.new ≡ after_write self.old (take n piece.now)) }

        // As for every sink.
        ensures never_falls { self.old.calls.faults ≤ self.new.calls.faults }
    {
        let is_due = self.calls.begin();
        let count = piece.len().min(self.room);
        if is_due || (count == 0 && !piece.is_empty()) {
            self.calls.raise();
            return Err(Failed);
        }
        match self.written.extend_from_slice(&piece[..count]) {
            Ok(()) => {
                self.room -= count;
                Ok(count)
            }
            Err(_) => unreachable!(),
        }
    }
}
