ghost use Rattle.std.specs.Prelude.{◌≡◌, ◌<◌, ◌≤◌, ◌↔◌, ◌++◌, Some, length, take, drop, IsErr, IfOk, OnErr};
ghost use Rattle.std.specs.Io.KnownBytes.{ReadConsumes};
ghost use Rattle.ar_io.specs.Calls.{IsDue};
ghost use Rattle.ar_io.specs.MemSource.{given_count, after_read, after_failed_read};

use crate::calls::Calls;
use crate::unread::Unread;
use crate::{Failed, Source};
use std::marker::Model;

/// A source in memory, which gives a few bytes at a time and fails on demand.
///
/// A contract sees it as the bytes that are left, the most that one call gives, and its calls: how many
/// were made, which of them fail, and how many failed. Calls are numbered from 1 in 64 bits: from the
/// call of number 2^64 - 1 on, each call has that number.
#[derive(Debug, Drop)]
pub struct MemSource {
    unread: Unread,
    chunk: usize,
    calls: Calls,
}

impl Model for MemSource {
    ghost use Rattle.std.specs.Prelude.{◌<◌};
    ghost use Rattle.ar_io.specs.MemSource.{SourceState};

    ghost Value = { SourceState };

    ghost view = { λ s. record { unread = s.unread; chunk = s.chunk; calls = s.calls } };

    ghost invariant = { λ s. 0 < s.chunk };
}

impl MemSource {
    /// A source of these bytes that gives at most `chunk` at a call. Its calls of a number in `fails`,
    /// counted from 1, fail.
    pub fn new(bytes: Vec<u8>, chunk: usize, fails: Vec<u64>) -> MemSource
        requires { 0 < chunk }
        ensures { result ≡ record {
          unread = bytes.items;
          chunk = chunk;
          calls = record { fails = fails.items; made = 0; faults = 0 };
        } }
    {
        MemSource {
            unread: Unread::new(bytes),
            chunk,
            calls: Calls::new(fails),
        }
    }
}

impl Source for MemSource {
    ghost left = { λ s. Some s.unread };

    ghost faults = { λ s. s.calls.faults };

    /// A call that is to fail leaves the buffer as it was. Another gives the next bytes: as many as the
    /// chunk, the buffer and what is left allow.
    fn read(&mut self, buf: &mut [u8]) -> Result<usize, Failed>
        // Which call fails, and what it leaves.
        ensures due { IsErr result ↔ IsDue self.old.calls }
        ensures untouched { OnErr result (buf.new ≡ buf.old) }
        ensures after_err { OnErr result (self.new ≡ after_failed_read self.old) }

        // How many bytes another gives, which they are, and what it leaves.
        ensures count { IfOk result (λ n. n ≡ given_count self.old (length buf.old)) }
        ensures filled { IfOk result (λ n. buf.new ≡ take n self.old.unread ++ drop n buf.old) }
        ensures after_ok { IfOk result (λ n. self.new ≡ after_read self.old n) }

        // As for every source.
        ensures bytes { ReadConsumes (Some self.old.unread) (Some self.new.unread) result buf.new }
        ensures never_falls { self.old.calls.faults ≤ self.new.calls.faults }
    {
        if self.calls.begin() {
            self.calls.raise();
            return Err(Failed);
        }
        Ok(self.unread.take_into(buf, self.chunk))
    }
}
