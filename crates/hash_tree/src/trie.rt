ghost use Rattle.std.specs.Prelude.{◌≡◌, ◌+◌, ◌≤◌, if◌then◌else◌, length, IfOk, OnErr, OnOk};
ghost use Rattle.std.specs.FinMap.{contains_key, empty, get, insert, remove};
ghost use Rattle.hash_tree.specs.Entries.{HoldsDigests};
ghost use Rattle.hash_tree.specs.Root as tree;
ghost use Rattle.hash_tree.specs.Path.{bottom_of, steps_of};

use crate::bits::read_key;
use crate::bottom::Bottom;
use crate::entry_digest;
use crate::node::{Node, Stored};
use crate::steps::Steps;
use ar_base::Items;
use std::alloc::{AllocError, Global};
use std::marker::Model;
use std::sync::ledger::Ledger;

/// A set of entries with the digests of its tree, so that a change of one entry hashes the path of
/// its key alone.
///
/// Contracts see the finite map of the entries, and nothing of the tree.
#[derive(Drop)]
pub struct Trie {
    top: Node,
}

// Clauses see the map.
impl Model for Trie {
    ghost use Rattle.std.specs.FinMap.{code};
    ghost use Rattle.std.specs.Coded.{coded_list, coded_ℕ};
    ghost use Rattle.hash_tree.specs.Entries.{Entries};

    ghost Value = { Entries };

    ghost coded = { code (coded_list coded_ℕ) (coded_list coded_ℕ) };

    ghost use Rattle.hash_tree.specs.Kept.{IsKept, map_of};

    ghost view = { λ a. map_of a.top };

    ghost invariant = { λ a. IsKept 0 a.top };
}

/// The path of a key in a set of entries.
#[derive(Debug, Drop)]
pub struct Walk {
    /// What stands at its foot.
    pub bottom: Bottom,
    /// The digests of siblings, the deepest first.
    pub steps: Items<[u8; 32]>,
}

impl Trie {
    /// No entries. It takes no memory.
    pub fn new() -> Trie
        ensures { result ≡ empty }
    {
        Trie { top: Node::Empty }
    }

    /// The value of a key.
    pub fn get(&self, key: &[u8; 32]) -> Option<[u8; 32]>
        ensures { result ≡ get self.now key.now }
    {
        self.top.get(key, 0)
    }

    /// The root of the integrity tree over the entries. Nothing is hashed.
    pub fn root(&self) -> [u8; 32]
        ensures { result ≡ tree.root self.now }
    {
        self.top.digest()
    }

    /// Gives a key this value, also where it has one.
    ///
    /// It hashes once for the entry, and once for each step of the key's path. After an error all is
    /// as before.
    pub fn set<L: Ledger>(
        &mut self,
        alloc: Global,
        key: [u8; 32],
        value: [u8; 32],
        steps: &mut Steps<L>,
    ) -> Result<(), AllocError>
        ensures entries { OnOk result (self.new ≡ insert self.old key value) }
        ensures same { OnErr result (self.new ≡ self.old) }
        ensures cost { OnOk result (steps.new ≡ steps.old + (1 + length (steps_of key self.new))) }
        ensures most { steps.new ≤ steps.old + 257 }
    {
        read_key(&key);
        read_key(&value);
        steps.tick();
        let digest = entry_digest(&key, &value);
        let entry = Stored { key, value, digest };
        self.top.put(alloc, &entry, 0, steps)
    }

    /// Takes a key out. It hashes once for each step of the path that the key has then, and nothing
    /// where the key was not there. It takes no memory.
    pub fn remove<L: Ledger>(&mut self, key: &[u8; 32], steps: &mut Steps<L>)
        ensures entries { self.new ≡ remove self.old key.now }
        ensures cost { steps.new ≡ steps.old + (if contains_key self.old key.now
            then length (steps_of key.now self.new) else 0) }
        ensures most { steps.new ≤ steps.old + 256 }
    {
        if self.get(key).is_some() {
            self.top.take(key, 0, steps);
        }
    }

    /// The path of a key: its steps, and the entry at its foot.
    /// The only error is want of memory.
    pub fn walk(&self, alloc: Global, key: &[u8; 32]) -> Result<Walk, AllocError>
        ensures bottom { IfOk result (λ walk. walk.bottom ≡ bottom_of key.now self.now) }
        ensures steps { IfOk result (λ walk. walk.steps ≡ steps_of key.now self.now) }
    {
        let mut steps = Vec::new(alloc);
        let bottom = self.top.walk(&mut steps, key, 0)?;
        Ok(Walk {
            bottom,
            steps: Items::from_vec(steps),
        })
    }

    /// The same entries in memory of their own.
    pub fn copy(&self, alloc: Global) -> Result<Trie, AllocError>
        ensures { IfOk result (λ trie. trie ≡ self.now) }
    {
        let top = self.top.copy(alloc)?;
        Ok(Trie { top })
    }

    /// Tells that keys and values are of 32 bytes. It does nothing.
    pub fn told(&self)
        ensures { HoldsDigests self.now }
    {
        let _top = &self.top;
    }
}
