ghost use Rattle.std.specs.Prelude.{◌≡◌, ◌≤◌, ◌++◌, length, IfOk, OnOk, OnErr};
ghost use Rattle.ar_base.specs.Faults.{one_more};
ghost use Rattle.arpki_page.specs.Called.{HasKept, nothing_kept};

use ar_io::{Failed, Sink};
use std::alloc::{AllocError, Global};
use std::marker::Model;

/// A sink that keeps all that it takes. A write fails where there is no memory for its piece.
#[derive(Drop)]
pub(crate) struct Kept {
    bytes: Vec<u8>,
    faults: u64,
}

impl Model for Kept {
    ghost use Rattle.arpki_page.specs.Called.{KeptBytes};

    ghost Value = { KeptBytes };

    ghost view = { λ k. record { bytes = k.bytes.items; faults = k.faults } };
}

impl Kept {
    /// A sink that took nothing, with room for so many bytes before it takes more memory.
    pub(crate) fn with_room(alloc: Global, room: usize) -> Result<Kept, AllocError>
        ensures { IfOk result (λ kept. kept ≡ nothing_kept) }
    {
        Ok(Kept {
            bytes: Vec::with_capacity(alloc, room)?,
            faults: 0,
        })
    }

    /// All that it took.
    pub(crate) fn bytes(&self) -> &[u8]
        ensures { result.now ≡ self.now.bytes }
    {
        self.bytes.as_slice()
    }
}

impl Sink for Kept {
    ghost wrote = { HasKept };

    ghost faults = { λ k. k.faults };

    fn write(&mut self, piece: &[u8]) -> Result<usize, Failed>
        ensures count { IfOk result (λ n. n ≡ length piece.now) }
        ensures ok { OnOk result
            (self.new ≡ record self.old { bytes = self.old.bytes ++ piece.now }) }
        ensures err { OnErr result
            (self.new ≡ record self.old { faults = one_more self.old.faults }) }
        ensures never_falls { self.old.faults ≤ self.new.faults }
    {
        match self.bytes.extend_from_slice(piece) {
            Ok(()) => Ok(piece.len()),
            Err(_) => {
                self.faults = self.faults.saturating_add(1);
                Err(Failed)
            }
        }
    }
}
