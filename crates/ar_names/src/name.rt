ghost use Rattle.std.specs.Prelude.{◌≡◌, IfOk};
ghost use Rattle.ar_base.specs.Gives.{GivesOrWants};
ghost use Rattle.ar_names.specs.Names.{IsName, name_digest_of};
ghost use Rattle.ar_names.specs.NameReading.{name_in};
ghost use Rattle.ar_names.specs.declared.fault.NameFault.TheVariants as faults;

use crate::fault::NameFault;
use crate::key::name_digest;
use crate::rule::first_fault;
use crate::view::NameView;
use std::alloc::{AllocError, Global};
use std::marker::Model;
use std::str;

/// A name, 1 to 253 bytes: labels of `a` to `z`, `0` to `9` and `-` with dots between them.
#[derive(Debug, Drop)]
pub struct Name {
    text: Vec<u8>,
}

// Clauses see the bytes of the name.
impl Model for Name {
    ghost use Rattle.std.specs.Prelude.{List, ℕ};
    ghost use Rattle.ar_names.specs.Names.{IsName};

    ghost Value = { List ℕ };

    ghost view = { λ name. name.text.items };

    ghost invariant = { λ name. IsName name.text.items };
}

impl Name {
    /// The name with this text, or the place of its first fault. Memory is taken only for a name.
    pub fn read(alloc: Global, text: &[u8]) -> Result<Name, NameFault>
        ensures { GivesOrWants faults.Memory (λ name. name) result (name_in text.now) }
    {
        if let Some(place) = first_fault(text) {
            return Err(NameFault::Refused(place));
        }
        Ok(Name {
            text: Vec::from_slice(alloc, text)?,
        })
    }

    /// The bytes of the name.
    pub fn text(&self) -> &[u8]
        ensures text { result.now ≡ self.now }
        ensures name { IsName self.now }
    {
        self.text.as_slice()
    }

    /// The name, borrowed.
    pub fn view(&self) -> NameView<'_>
        ensures { result ≡ self.now }
    {
        NameView::from_name(&self.text)
    }

    /// The name as text.
    pub fn as_str(&self) -> &str
        ensures { result.now ≡ self.now }
    {
        match str::from_utf8(&self.text) {
            Ok(text) => text,
            // Each byte of a name is ASCII.
            Err(_) => unreachable!(),
        }
    }

    /// The key of the name in the integrity tree, as `name_digest` gives it.
    pub fn digest(&self) -> [u8; 32]
        ensures { result ≡ name_digest_of self.now }
    {
        name_digest(&self.text)
    }
}

impl<'a> NameView<'a> {
    /// The name as a value of its own. Its text is not looked at again.
    /// The only error is want of memory.
    pub fn to_name(&self, alloc: Global) -> Result<Name, AllocError>
        ensures { IfOk result (λ name. name ≡ self.now) }
    {
        Ok(Name {
            text: Vec::from_slice(alloc, self.text())?,
        })
    }
}
