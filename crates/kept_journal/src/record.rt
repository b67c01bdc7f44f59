ghost use Rattle.std.specs.Prelude.{◌≡◌, ◌+◌, ◌<◌, ◌^◌, ◌∷◌, length, IfOk};

use ar_bytes::put_u32;
use std::alloc::{AllocError, Global};
use std::marker::Model;

/// A text as it is put into a journal: its length, the text, and the closed gate of the next record.
#[derive(Debug, Drop)]
pub struct KeptText {
    bytes: Vec<u8>,
}

// Clauses see the text.
impl Model for KeptText {
    ghost use Rattle.std.specs.Prelude.{◌≡◌, ◌<◌, ◌^◌, ℕ, List, length};
    ghost use Rattle.kept_journal.specs.Appending.{staged_text, text_of_staged};

    ghost Value = { List ℕ };

    ghost view = { λ r. text_of_staged r.bytes.items };

    ghost invariant = { λ r. (r.bytes.items ≡ staged_text (text_of_staged r.bytes.items))
        × (length (text_of_staged r.bytes.items) < 2 ^ 32) };
}

impl KeptText {
    ghost use Rattle.kept_journal.specs.Appending.{staged_text};

    /// The record of a text that is this byte, which tells its kind, and these bytes behind it. The only error is want of
    /// memory.
    pub fn of(alloc: Global, kind: u8, body: &[u8]) -> Result<KeptText, AllocError>
        requires { length body.now + 1 < 2 ^ 32 }
        ensures { IfOk result (λ made. made ≡ kind ∷ body.now) }
    {
        let mut bytes = Vec::new(alloc);
        bytes.reserve(body.len() + 6)?;
        put_u32(alloc, &mut bytes, body.len() as u32 + 1)?;
        bytes.push(kind)?;
        bytes.extend_from_slice(body)?;
        bytes.push(0)?;
        Ok(KeptText { bytes })
    }

    /// What is written of it.
    pub(crate) fn bytes(&self) -> &[u8]
        ensures bytes { result.now ≡ staged_text self.now }
        ensures short { length self.now < 2 ^ 32 }
    {
        &self.bytes
    }
}
