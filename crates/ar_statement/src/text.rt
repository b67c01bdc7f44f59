ghost use Rattle.std.specs.Prelude.{◌≡◌};
ghost use Rattle.ar_statement.specs.Claims.{claim_of, text_of};

use crate::party::Party;
use crate::statement::{Statement, TEXT_LEN};
use std::marker::Model;

/// The text of one statement, kept without memory.
#[derive(Clone, Copy, Debug, PartialEq, Eq)]
pub struct Text {
    len: u16,
    bytes: [u8; TEXT_LEN],
}

// Clauses see the bytes of the text. The room behind them is zero.
impl Model for Text {
    ghost use Rattle.std.specs.Prelude.{List, ℕ, ◌-◌, ◌++◌, length, take, replicate};
    ghost use Rattle.ar_statement.specs.Padding.{IsPadded, len_again, bytes_again};

    ghost Value = { List ℕ };

    ghost view = { λ t. take t.len t.bytes };

    ghost invariant = { λ t. IsPadded t.len t.bytes };

    ghost inverse = { λ text. record {
      len = length text;
      bytes = text ++ replicate (330 - length text) 0;
    } };

    ghost use Rattle.std.proofs.Common.{refl};

    ghost inverse_ok = { λ t h. Prim.rw
        (len_again t.len t.bytes h, bytes_again t.len t.bytes h) refl };
}

impl Text {
    /// The text of the statement.
    pub fn of(statement: &Statement) -> Text
        ensures { result ≡ text_of (claim_of statement.now) }
    {
        let mut bytes = [0; TEXT_LEN];
        let len = statement.write_into(&mut bytes);
        Text {
            len: len as u16,
            bytes,
        }
    }

    /// The bytes of the text.
    pub fn as_bytes(&self) -> &[u8]
        ensures { result.now ≡ self.now }
    {
        &self.bytes[..self.len as usize]
    }
}

/// A text, and the party that signed it.
#[derive(Clone, Copy, Debug)]
pub struct SeenText {
    /// Who signed it: its signature was verified, or it is the log's own ballot or status.
    pub party: Party,
    /// The text of the statement that was signed, at most 330 bytes.
    pub text: Text,
}
