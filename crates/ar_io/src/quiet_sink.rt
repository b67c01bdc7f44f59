ghost use Rattle.std.specs.Prelude.{◌≡◌, ℕ, [], List, length};
ghost use Rattle.sha2.specs.Sha256.{sha256};
ghost use Rattle.ar_io.specs.Wrote.{Appended};
ghost use Rattle.ar_io.specs.QuietSink.{Took, shown_len};

use crate::{Failed, Sink};
use sha2::{Digest, Sha256};

/// A sink that never fails and keeps only the length and the SHA-256 of what it took: its count of
/// faults is always 0, and it takes each piece whole.
#[derive(Debug, Drop)]
pub struct QuietSink {
    hasher: Sha256,
    len: u64,
}

impl QuietSink {
    /// A sink that took nothing.
    pub fn new() -> QuietSink
        ensures { Took result [] }
    {
        QuietSink {
            hasher: Sha256::new(),
            len: 0,
        }
    }

    /// How many bytes it took. The number stays at 2^64 - 1 once that is reached.
    pub fn len(&self) -> u64
        ensures { (bytes : List ℕ) → Took self.now bytes → result ≡ shown_len bytes }
    {
        self.len
    }

    /// The SHA-256 of all bytes that it took.
    pub fn into_digest(self) -> [u8; 32]
        ensures { (bytes : List ℕ) → Took self bytes → result ≡ sha256 bytes }
    {
        self.hasher.finalize()
    }
}

impl Sink for QuietSink {
    ghost wrote = { Took };

    ghost faults = { λ _. 0 };

    fn write(&mut self, piece: &[u8]) -> Result<usize, Failed>
        ensures count { result ≡ Ok (length piece.now) }
        ensures whole { Appended Took self.old self.new piece.now }
    {
        self.hasher.update(piece);
        self.len = self.len.saturating_add(piece.len() as u64);
        Ok(piece.len())
    }
}
