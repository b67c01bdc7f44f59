ghost use Rattle.std.specs.Prelude.{◌≡◌, ◌+◌, ◌<◌, ◌≤◌, ◌^◌, ◌∷◌, ◌++◌, length, vec_len, vec_capacity, IfOk};
ghost use Rattle.chained_journal.specs.Journal.{record_len, wanting};

use crate::chain::link;
use crate::gate::SHUT;
use ar_bytes::put_u32;
use std::alloc::{AllocError, Global};
use std::marker::Model;

/// How many bytes a record has beside its text and zeros: a head and the chain.
const RECORD_FRAME: usize = 40;

/// How many bytes are wanting to a multiple of 8.
pub(crate) fn wanting(n: usize) -> usize
    requires { n < 2 ^ 32 }
    ensures { result ≡ wanting n }
{
    7 - (n + 7) % 8
}

/// How many bytes the record of a text of this length has.
pub(crate) fn record_len(n: usize) -> usize
    requires { n < 2 ^ 32 }
    ensures { result ≡ record_len n }
{
    RECORD_FRAME + (n + wanting(n))
}

/// A text as it is put into a journal, with room for its chain and the next gate.
#[derive(Debug, Drop)]
pub struct KeptText {
    bytes: Vec<u8>,
    len: usize,
}

// Clauses see the text.
impl Model for KeptText {
    ghost use Rattle.std.specs.Prelude.{◌≡◌, ◌<◌, ◌≤◌, ◌+◌, ◌^◌, ℕ, List, length, take, drop, vec_len, vec_capacity};
    ghost use Rattle.chained_journal.specs.Appending.{staged_front};

    ghost Value = { List ℕ };

    ghost view = { λ t. take t.len (drop 8 t.bytes.items) };

    ghost invariant = { λ t. (t.bytes.items ≡ staged_front (take t.len (drop 8 t.bytes.items)))
        × (length (take t.len (drop 8 t.bytes.items)) < 2 ^ 32)
        × (8 + t.len ≤ vec_len t.bytes) × (vec_len t.bytes + 40 ≤ vec_capacity t.bytes) };
}

impl KeptText {
    ghost use Rattle.chained_journal.specs.Appending.{staged_text};
    ghost use Rattle.chained_journal.specs.Journal.{link};

    /// The text that is this byte, which tells its kind, and these bytes behind it. The only error is want of memory.
    pub fn of(alloc: Global, kind: u8, body: &[u8]) -> Result<KeptText, AllocError>
        requires { length body.now + 1 < 2 ^ 32 }
        ensures { IfOk result (λ made. made ≡ kind ∷ body.now) }
    {
        let len = body.len() + 1;
        let mut bytes = Vec::new(alloc);
        bytes.reserve(body.len() + 56)?;
        put_u32(alloc, &mut bytes, len as u32)?;
        put_u32(alloc, &mut bytes, u32::MAX - len as u32)?;
        bytes.push(kind)?;
        bytes.extend_from_slice(body)?;
        bytes.extend_from_slice(&SHUT[..wanting(len)])?;
        Ok(KeptText { bytes, len })
    }

    /// What is written of it behind texts with this chain, and their chain with it.
    pub(crate) fn staged(self, chain: &[u8; 32]) -> (Vec<u8>, [u8; 32])
        ensures bytes { result.0.items ≡ staged_text chain.now self }
        ensures chain { result.1 ≡ link chain.now self }
        ensures short { length self < 2 ^ 32 }
    {
        let KeptText { mut bytes, len } = self;
        let next = link(chain, &bytes[8..8 + len]);
        put_all(&mut bytes, &next);
        put_all(&mut bytes, &SHUT);
        (bytes, next)
    }
}

/// Puts bytes behind those of a vector that has room for them.
fn put_all(out: &mut Vec<u8>, bytes: &[u8])
    requires { vec_len out.old + length bytes.now ≤ vec_capacity out.old }
    ensures items { out.new.items ≡ out.old.items ++ bytes.now }
    ensures len { vec_len out.new ≡ vec_len out.old + length bytes.now }
    ensures capacity { vec_capacity out.old ≤ vec_capacity out.new }
{
    if out.extend_from_slice(bytes).is_err() {
        unreachable!()
    }
}
