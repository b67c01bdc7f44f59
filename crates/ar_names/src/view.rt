ghost use Rattle.std.specs.Prelude.{◌≡◌, ◌<◌, ◌≤◌, length, Some, None, if◌then◌else◌};
ghost use Rattle.ar_names.specs.Names.{IsName, is_name, name_digest_of};

use crate::key::name_digest;
use crate::rule::first_fault;
use std::marker::Model;

/// A name that lies in borrowed bytes.
#[derive(Debug, Drop)]
pub struct NameView<'a> {
    text: &'a [u8],
}

// Clauses see the bytes of the name.
impl<'a> Model for NameView<'a> {
    ghost use Rattle.std.specs.Prelude.{List, ℕ};
    ghost use Rattle.ar_names.specs.Names.{IsName};

    ghost Value = { List ℕ };

    ghost view = { λ name. name.text.now };

    ghost invariant = { λ name. IsName name.text.now };
}

impl<'a> NameView<'a> {
    /// The name with this text, or `None` exactly where the text is no name.
    pub fn of(text: &'a [u8]) -> Option<NameView<'a>>
        ensures { result ≡ (if is_name text.now then Some text.now else None) }
    {
        if first_fault(text).is_some() {
            return None;
        }
        Some(NameView { text })
    }

    /// A text that is known to be a name.
    pub fn from_name(text: &'a [u8]) -> NameView<'a>
        requires { IsName text.now }
        ensures { result ≡ text.now }
    {
        NameView { text }
    }

    /// The bytes of the name.
    pub fn text(&self) -> &'a [u8]
        ensures text { result.now ≡ self.now }
        ensures name { IsName self.now }
        ensures short { (0 < length self.now) × (length self.now ≤ 253) }
    {
        self.text
    }

    /// The same view once more.
    pub fn copy(&self) -> NameView<'a>
        ensures { result ≡ self.now }
    {
        NameView { text: self.text }
    }

    /// The key of the name in the integrity tree, as `name_digest` gives it.
    pub fn digest(&self) -> [u8; 32]
        ensures { result ≡ name_digest_of self.now }
    {
        name_digest(self.text)
    }
}
