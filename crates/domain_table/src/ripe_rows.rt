ghost use Rattle.std.specs.Prelude.{◌≡◌, ◌+◌, ◌<◌, length, List, IfOk, OnOk};
ghost use Rattle.std.specs.FinMap.{from_entries};
ghost use Rattle.domain_table.specs.Applying.{ripen};
ghost use Rattle.domain_table.specs.Rows.{AreRows, IsRipeUpTo, RowData, any_ripe, data_in, marked, marks_of, table_of, waiting_in};

use crate::change_row::append;
use crate::counted_trie::CountedTrie;
use crate::row::Row;
use crate::rows::{is_ripe, row_at};
use crate::tree::are_apart;
use indexmap::IndexMap;
use std::alloc::{AllocError, Global};

/// Whether what waits in some row is ripe at an epoch.
fn some_ripe(rows: &IndexMap<Vec<u8>, Row>, epoch: u64) -> bool
    ensures { result ≡ any_ripe epoch (data_in rows.now.entries) }
{
    for row in rows.values() {
        if is_ripe(row, epoch) {
            return true;
        }
    }
    false
}

/// Whether something is ripe at an epoch in rows of which so many have a change that waits: where none has, they are
/// not looked at.
pub(crate) fn has_ripe(rows: &IndexMap<Vec<u8>, Row>, waiting: usize, epoch: u64) -> bool
    requires { waiting ≡ waiting_in (data_in rows.now.entries) }
    ensures { result ≡ any_ripe epoch (data_in rows.now.entries) }
{
    if waiting == 0 {
        return false;
    }
    some_ripe(rows, epoch)
}

/// Appends what waits in the row at a place, if it is ripe, and brings the tree up to date. It tells in how many rows a
/// change waits then.
fn ripen_row(
    alloc: Global,
    rows: &mut IndexMap<Vec<u8>, Row>,
    trie: &mut CountedTrie,
    waiting: usize,
    i: usize,
    epoch: u64,
) -> Result<usize, AllocError>
    requires place { i < length rows.old.entries }
    requires are { AreRows (data_in rows.old.entries) }
    requires tree { trie.old ≡ from_entries (marked (marks_of (data_in rows.old.entries))) }
    requires wait { waiting ≡ waiting_in (data_in rows.old.entries) }
    ensures { IfOk result (λ still. (first : List RowData)
        → IsRipeUpTo epoch first rows.old.entries trie.old waiting i
        → IsRipeUpTo epoch first rows.new.entries trie.new still (i + 1)) }
{
    let row = row_at(rows, i);
    if !is_ripe(row, epoch) {
        return Ok(waiting);
    }
    let Some(waits) = &row.waiting else {
        unreachable!();
    };
    let change = waits.change.copy(alloc)?;
    let apart = are_apart(rows, trie, waiting);
    match append(alloc, rows, trie, i, change, apart) {
        Ok(()) => Ok(waiting - 1),
        Err((_change, error)) => Err(error),
    }
}

/// Appends what is ripe at an epoch to the chain of its row, in each row, and brings the tree up to date. It tells in
/// how many rows a change waits then, of so many before.
pub(crate) fn ripen_rows(
    alloc: Global,
    rows: &mut IndexMap<Vec<u8>, Row>,
    trie: &mut CountedTrie,
    waiting: usize,
    epoch: u64,
) -> Result<usize, AllocError>
    requires are { AreRows (data_in rows.old.entries) }
    requires tree { trie.old ≡ from_entries (marked (marks_of (data_in rows.old.entries))) }
    requires wait { waiting ≡ waiting_in (data_in rows.old.entries) }
    ensures are { OnOk result (AreRows (data_in rows.new.entries)) }
    ensures tree { OnOk result
        (trie.new ≡ from_entries (marked (marks_of (data_in rows.new.entries)))) }
    ensures wait { IfOk result (λ still. still ≡ waiting_in (data_in rows.new.entries)) }
    ensures ripe { OnOk result (table_of (data_in rows.new.entries)
        ≡ ripen (table_of (data_in rows.old.entries)) epoch) }
{
    let mut still = waiting;
    let mut i = 0;
    while i < rows.len() {
        still = ripen_row(alloc, rows, trie, still, i, epoch)?;
        i += 1;
    }
    Ok(still)
}
