ghost use Rattle.std.specs.Prelude.{◌≡◌, ◌≤◌, ◌+◌, ◌-◌, true, false, IfOk, OnOk, OnErr};
ghost use Rattle.std.specs.FinMap.{empty, get, insert, len, remove};

use hash_tree::{Steps, Trie};
use std::alloc::{AllocError, Global};
use std::marker::Model;
use std::sync::ledger::Ledger;

/// A kept tree that knows how many entries it has at least. Contracts see the map of its entries.
#[derive(Drop)]
pub(crate) struct CountedTrie {
    trie: Trie,
    // It has at least so many entries.
    least: usize,
}

// Clauses see the map.
impl Model for CountedTrie {
    ghost use Rattle.std.specs.FinMap.{code};
    ghost use Rattle.std.specs.Coded.{coded_list, coded_ℕ};
    ghost use Rattle.hash_tree.specs.Entries.{Entries};

    ghost Value = { Entries };

    ghost coded = { code (coded_list coded_ℕ) (coded_list coded_ℕ) };

    ghost use Rattle.std.specs.Prelude.{◌≤◌};
    ghost use Rattle.std.specs.FinMap.{len};

    ghost view = { λ t. t.trie };

    ghost invariant = { λ t. t.least ≤ len t.trie };
}

/// So many entries at least, with one whose key may be there already.
fn least_with(least: usize, there: bool) -> usize
    ensures same { (there ≡ true) → result ≡ least }
    ensures more { (there ≡ false) → result ≤ least + 1 }
{
    if there {
        least
    } else {
        least.saturating_add(1)
    }
}

/// So many entries at least, without one that may be there.
fn least_without(least: usize, there: bool) -> usize
    ensures less { (there ≡ true) → result ≡ least - 1 }
    ensures same { (there ≡ false) → result ≡ least }
{
    if there {
        least.saturating_sub(1)
    } else {
        least
    }
}

impl CountedTrie {
    /// No entries. It takes no memory.
    pub(crate) fn new() -> CountedTrie
        ensures { result ≡ empty }
    {
        CountedTrie {
            trie: Trie::new(),
            least: 0,
        }
    }

    /// The kept tree.
    pub(crate) fn trie(&self) -> &Trie
        ensures { result.now ≡ self.now }
    {
        &self.trie
    }

    /// How many entries it has at least: all of them, unless they are more than a `usize` tells.
    pub(crate) fn least(&self) -> usize
        ensures { result ≤ len self.now }
    {
        self.least
    }

    /// The value of a key.
    pub(crate) fn get(&self, key: &[u8; 32]) -> Option<[u8; 32]>
        ensures { result ≡ get self.now key.now }
    {
        self.trie.get(key)
    }

    /// Gives a key this value. After an error all is as before.
    pub(crate) fn set<L: Ledger>(
        &mut self,
        alloc: Global,
        key: &[u8; 32],
        value: [u8; 32],
        steps: &mut Steps<L>,
    ) -> Result<(), AllocError>
        ensures entries { OnOk result (self.new ≡ insert self.old key.now value) }
        ensures same { OnErr result (self.new ≡ self.old) }
    {
        let there = self.trie.get(key).is_some();
        self.trie.set(alloc, *key, value, steps)?;
        self.least = least_with(self.least, there);
        Ok(())
    }

    /// Takes a key out.
    pub(crate) fn remove<L: Ledger>(&mut self, key: &[u8; 32], steps: &mut Steps<L>)
        ensures { self.new ≡ remove self.old key.now }
    {
        let there = self.trie.get(key).is_some();
        self.least = least_without(self.least, there);
        self.trie.remove(key, steps);
    }

    /// The same entries in memory of their own.
    pub(crate) fn copy(&self, alloc: Global) -> Result<CountedTrie, AllocError>
        ensures { IfOk result (λ trie. trie ≡ self.now) }
    {
        Ok(CountedTrie {
            trie: self.trie.copy(alloc)?,
            least: self.least,
        })
    }
}
