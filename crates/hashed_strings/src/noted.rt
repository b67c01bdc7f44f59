//! Strings that are noted one after another, and whether two of them collide.

ghost use Rattle.std.specs.Prelude.{◌≡◌, ◌++◌, ◌∷◌, ◌&&◌, [], List, ℕ, None, OnOk};
ghost use Rattle.std.specs.BTreeMap.{get};
ghost use Rattle.std.specs.Option.{option_map};
ghost use Rattle.std.specs.Str.{bytes_eq};
ghost use Rattle.sha2.specs.Sha256.{sha256};
ghost use Rattle.hash_tree.specs.Entries.{key_cmp};
ghost use Rattle.ar_base.specs.Apart.{none_collide};
ghost use Rattle.hashed_strings.specs.Index.{AreNoted};

use ar_base::Items;
use sha2::{Digest, Sha256};
use std::alloc::{AllocError, Global};
use std::collections::BTreeMap;

/// Strings, each under its digest; of those that collide the first.
#[derive(Drop)]
pub struct Noted {
    /// The strings, each under its digest.
    pub strings: BTreeMap<[u8; 32], Items<u8>>,
    /// Whether no two that were noted collide.
    pub apart: bool,
}

/// Whether both hold.
fn both(one: bool, other: bool) -> bool
    ensures { result ≡ (one && other) }
{
    one && other
}

impl Noted {
    /// None is noted. It takes no memory.
    pub fn new(alloc: Global) -> Noted
        ensures { AreNoted result [] }
    {
        Noted {
            strings: BTreeMap::new(alloc),
            apart: true,
        }
    }

    /// Notes a string that has a digest of its own.
    fn keep(&mut self, alloc: Global, digest: [u8; 32], string: &[u8]) -> Result<(), AllocError>
        requires new { get key_cmp self.old.strings digest ≡ None }
        requires digest { digest ≡ sha256 string.now }
        ensures { OnOk result ((strings : List (List ℕ)) → AreNoted self.old strings
            → AreNoted self.new (string.now ∷ strings)) }
    {
        let string = Items::from_vec(Vec::from_slice(alloc, string)?);
        self.strings.insert(digest, string)?;
        Ok(())
    }

    /// Whether a string stands under a digest, and whether it is this one.
    fn found(&self, digest: &[u8; 32], string: &[u8]) -> Option<bool>
        ensures { result ≡ option_map (λ other.
            bytes_eq other string.now) (get key_cmp self.now.strings digest.now) }
    {
        match self.strings.get(digest) {
            Some(other) => Some(other.as_slice() == string),
            None => None,
        }
    }

    /// Notes a string. The only error is want of memory.
    fn note(&mut self, alloc: Global, string: &[u8]) -> Result<(), AllocError>
        ensures { OnOk result ((strings : List (List ℕ)) → AreNoted self.old strings
            → AreNoted self.new (string.now ∷ strings)) }
    {
        let digest = Sha256::digest(string);
        match self.found(&digest, string) {
            None => self.keep(alloc, digest, string),
            Some(same) => {
                self.apart = both(self.apart, same);
                Ok(())
            }
        }
    }

    /// Notes each of these strings. The only error is want of memory.
    #[tactic(auto, using(crate::proofs::Index::front_steps))]
    pub(crate) fn note_all(
        &mut self,
        alloc: Global,
        strings: &[Items<u8>],
    ) -> Result<(), AllocError>
        ensures { OnOk result ((others : List (List ℕ)) → AreNoted self.old others
            → AreNoted self.new (strings.now ++ others)) }
    {
        let mut i = strings.len();
        while i > 0 {
            i -= 1;
            self.note(alloc, strings[i].as_slice())?;
        }
        Ok(())
    }

    /// Whether no two of the strings that were noted collide.
    pub fn is_apart(&self) -> bool
        ensures { (strings : List (List ℕ)) → AreNoted self.now strings
            → result ≡ none_collide strings }
    {
        self.apart
    }
}
