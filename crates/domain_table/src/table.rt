ghost use Rattle.std.specs.Prelude.{◌≡◌, ◌↔◌, Some, None, Ok, Err, IfErr, IfOk, OnOk, OnErr, [], ◌∷◌};
ghost use Rattle.std.specs.Option.{option_map};
ghost use Rattle.std.specs.FinMap.{entries, get};
ghost use Rattle.domain_table.specs.Tables.{chain_of, newest, no_table};
ghost use Rattle.domain_table.specs.declared.fault.ApplyFault.TheVariants as faults;
ghost use Rattle.domain_table.specs.declared.refusal.ChangeRefusal.{ChangeRefusal};
ghost use Rattle.domain_table.specs.Applying.{answer_of, apply, judge, judge_ripe, ripen, taking_change};
ghost use Rattle.domain_table.specs.Tree.{root_of, tree_entries};
ghost use Rattle.domain_table.specs.Rows.{pending_told};

use crate::counted_trie::CountedTrie;
use crate::counts::Counts;
use crate::fault::ApplyFault;
use crate::listing::list_entries;
use crate::refusal::ChangeRefusal;
use crate::ripe_rows::{has_ripe, ripen_rows};
use crate::row::Row;
use crate::row_copy::copy_rows;
use crate::rows::{judged, newest_certificate, row_of, waiting_of};
use crate::take::take;
use ar_cert::{Cert, Change};
use cert_policy::Manner;
use hash_tree::Trie;
use indexmap::IndexMap;
use std::alloc::{AllocError, Global};
use std::marker::Model;

/// For each name the chain of its changes and at most one change that waits, with a kept tree of the entries.
#[derive(Drop)]
pub struct Table {
    // By name, in the order in which the names came.
    rows: IndexMap<Vec<u8>, Row>,
    trie: CountedTrie,
    // How many certificates and waiting changes there are.
    kept: usize,
    // How many of these wait.
    waiting: usize,
}

// Clauses see the two maps by name, and nothing of rows, tree and count.
impl Model for Table {
    ghost use Rattle.std.specs.FinMap.{code};
    ghost use Rattle.std.specs.Coded.{codes};
    ghost use Rattle.domain_table.specs.Tables.{Table};

    ghost Value = { Table };

    ghost coded = { Prim.hlevel (codes, code) };

    ghost use Rattle.domain_table.specs.Rows.{IsKept, data_in, table_of};

    ghost view = { λ t. table_of (data_in t.rows.entries) };

    ghost invariant = { λ t. IsKept (data_in t.rows.entries) t.trie t.kept t.waiting };
}

impl Table {
    /// The table without names. It takes no memory.
    pub fn new(alloc: Global) -> Table
        ensures { result ≡ no_table }
    {
        Table {
            rows: IndexMap::new(alloc),
            trie: CountedTrie::new(),
            kept: 0,
            waiting: 0,
        }
    }

    /// The changes of a name, the oldest first. It is `None` exactly where the name is absent.
    pub fn get(&self, name: &[u8]) -> Option<&[Change]>
        ensures { option_map (λ chain. chain.now) result ≡ get self.now.chains name.now }
    {
        match row_of(&self.rows, name) {
            None => None,
            Some(row) => Some(row.chain.as_slice()),
        }
    }

    /// The newest certificate of a name. It is `None` exactly where the table has no such name.
    pub fn newest(&self, name: &[u8]) -> Option<&Cert>
        ensures { option_map (λ c. c.now) result ≡ newest (chain_of self.now name.now) }
    {
        match self.get(name) {
            Some(chain) => newest_certificate(chain),
            None => None,
        }
    }

    /// The change that waits for a name, and the epoch since which it does. It is `None` exactly where nothing
    /// waits.
    pub fn pending(&self, name: &[u8]) -> Option<(&Change, u64)>
        ensures { option_map pending_told result ≡ get self.now.waiting name.now }
    {
        match row_of(&self.rows, name) {
            None => None,
            Some(row) => waiting_of(row),
        }
    }

    /// The root of the integrity tree over the entries. Nothing is hashed, and it takes no memory.
    pub fn root(&self) -> [u8; 32]
        ensures { result ≡ root_of self.now }
    {
        self.trie.trie().root()
    }

    /// The entries in their kept tree.
    pub fn trie(&self) -> &Trie
        ensures { result.now ≡ tree_entries self.now }
    {
        self.trie.trie()
    }

    /// The entries in the integrity tree, in the order of their keys. The only error is want of memory.
    pub fn entries(&self, alloc: Global) -> Result<Vec<([u8; 32], [u8; 32])>, AllocError>
        ensures { IfOk result (λ list. list.items ≡ entries (tree_entries self.now)) }
    {
        list_entries(alloc, &self.rows)
    }

    /// Whether a change is taken at an epoch, in the table as it has ripened then, or why it is refused. The
    /// table stays as it is; it takes no memory, and hashes nothing of the tree.
    pub fn judge(&self, epoch: u64, change: &Change) -> Result<(), ChangeRefusal>
        ensures { result ≡ answer_of (judge self.now epoch change.now) }
    {
        judged(&self.rows, self.kept, epoch, change)?;
        Ok(())
    }

    /// Takes a change at an epoch, in the table as it has ripened then: what is ripe is appended first, and then
    /// the change is taken in the manner in which it is judged.
    ///
    /// It is refused exactly where `judge` refuses it, also where the table is full; the change is handed back
    /// with each error, and the table is as it was.
    pub fn apply(
        &mut self,
        alloc: Global,
        epoch: u64,
        change: Change,
    ) -> Result<(), (Change, ApplyFault)>
        // The whole table after it.
        ensures ok { OnOk result (Some self.new ≡ apply self.old epoch (change ∷ [])) }
        // When it is refused.
        ensures refused { (refusal : ChangeRefusal)
            → (result ≡ Err (change, faults.Change refusal))
            ↔ (judge self.old epoch change ≡ Err refusal) }
        // What an error leaves.
        ensures back { IfErr result (λ e. e.0 ≡ change) }
        ensures same { OnErr result (self.new ≡ self.old) }
    {
        let manner = match judged(&self.rows, self.kept, epoch, &change) {
            Ok(manner) => manner,
            Err(refusal) => return Err((change, ApplyFault::Change(refusal))),
        };
        if !has_ripe(&self.rows, self.waiting, epoch) {
            return self.take_judged(alloc, epoch, change, manner);
        }
        let mut ripe = match self.ripened(alloc, epoch) {
            Ok(ripe) => ripe,
            Err(_) => return Err((change, ApplyFault::Memory)),
        };
        ripe.take_judged(alloc, epoch, change, manner)?;
        *self = ripe;
        Ok(())
    }

    // Takes a change in the manner in which it is judged in this table. The only error is want of memory.
    fn take_judged(
        &mut self,
        alloc: Global,
        epoch: u64,
        change: Change,
        manner: Manner,
    ) -> Result<(), (Change, ApplyFault)>
        requires { judge_ripe self.old change ≡ Ok manner }
        ensures ok { OnOk result (self.new ≡ taking_change self.old epoch change manner) }
        ensures err { IfErr result (λ e. e ≡ (change, faults.Memory)) }
        ensures same { OnErr result (self.new ≡ self.old) }
    {
        match take(
            alloc,
            &mut self.rows,
            &mut self.trie,
            Counts {
                kept: self.kept,
                waiting: self.waiting,
            },
            epoch,
            change,
            manner,
        ) {
            Ok(counts) => {
                self.kept = counts.kept;
                self.waiting = counts.waiting;
                Ok(())
            }
            Err((change, _)) => Err((change, ApplyFault::Memory)),
        }
    }

    // The table that has ripened, in memory of its own.
    fn ripened(&self, alloc: Global, epoch: u64) -> Result<Table, AllocError>
        ensures { IfOk result (λ table. table ≡ ripen self.now epoch) }
    {
        let mut rows = copy_rows(alloc, &self.rows)?;
        let mut trie = self.trie.copy(alloc)?;
        let waiting = ripen_rows(alloc, &mut rows, &mut trie, self.waiting, epoch)?;
        Ok(Table {
            rows,
            trie,
            kept: self.kept,
            waiting,
        })
    }

    /// Lets the table ripen: for each name what is ripe at the epoch is appended to its chain, and waits no
    /// longer. The only error is want of memory, and then the table is as it was.
    pub fn ripen(&mut self, alloc: Global, epoch: u64) -> Result<(), AllocError>
        ensures ok { OnOk result (self.new ≡ ripen self.old epoch) }
        ensures same { OnErr result (self.new ≡ self.old) }
    {
        if has_ripe(&self.rows, self.waiting, epoch) {
            *self = self.ripened(alloc, epoch)?;
        }
        Ok(())
    }

    /// The same table in memory of its own. The only error is want of memory.
    pub fn copy(&self, alloc: Global) -> Result<Table, AllocError>
        ensures { IfOk result (λ table. table ≡ self.now) }
    {
        Ok(Table {
            rows: copy_rows(alloc, &self.rows)?,
            trie: self.trie.copy(alloc)?,
            kept: self.kept,
            waiting: self.waiting,
        })
    }
}
