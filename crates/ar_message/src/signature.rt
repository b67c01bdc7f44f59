use std::alloc::{AllocError, Global};
use std::marker::Model;

/// A signature as it stands in a message: at most 65,535 bytes, whatever they are. That of a log or an
/// authority begins with the generation of its key, u32.
#[derive(Debug, Drop)]
pub struct Signature {
    /// In a message their number stands in front of them, u16.
    pub bytes: Vec<u8>,
}

// Clauses see the bytes.
impl Model for Signature {
    ghost use Rattle.std.specs.Prelude.{List, ℕ};
    ghost use Rattle.ar_cert.specs.Changes.{IsSignature};

    ghost Value = { List ℕ };

    ghost view = { λ s. s.bytes.items };

    ghost invariant = { λ s. IsSignature s.bytes.items };
}

impl Signature {
    ghost use Rattle.std.specs.Prelude.{◌≡◌, ◌<◌, ◌^◌, IfOk};
    ghost use Rattle.ar_cert.specs.Changes.{IsSignature};
    ghost use Rattle.ar_message.specs.Filling.{zeros};

    /// The bytes.
    pub fn as_slice(&self) -> &[u8]
        ensures bytes { result.now ≡ self.now }
        ensures few { IsSignature self.now }
    {
        &self.bytes
    }

    /// So many zero bytes, where a signature is due.
    /// The only error is want of memory.
    pub fn zeros(alloc: Global, len: usize) -> Result<Signature, AllocError>
        requires { len < 2 ^ 16 }
        ensures { IfOk result (λ signature. signature ≡ zeros len) }
    {
        Ok(Signature {
            bytes: vec![in alloc; 0u8; len]?,
        })
    }

    /// These bytes as a signature of its own.
    pub(crate) fn of(alloc: Global, bytes: &[u8]) -> Result<Signature, AllocError>
        requires { IsSignature bytes.now }
        ensures { IfOk result (λ signature. signature ≡ bytes.now) }
    {
        Ok(Signature {
            bytes: Vec::from_slice(alloc, bytes)?,
        })
    }
}
