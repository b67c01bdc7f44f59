ghost use Rattle.std.specs.Prelude.{◌≡◌, ℕ, ◌<◌, ◌≤◌, ◌+◌, length, get_or, Ok, IfErr, IfOk, OnOk, OnErr, Vec};
ghost use Rattle.std.specs.declared.alloc.Global.{Global};
ghost use Rattle.std.specs.Option.{option_len};
ghost use Rattle.domain_table.specs.Applying.{judge_ripe, most_kept, taking_change};
ghost use Rattle.domain_table.specs.Rows.{IsKept, Named, data_in, data_of, table_of};

use crate::change_row::{append, wait};
use crate::counted_trie::CountedTrie;
use crate::counts::Counts;
use crate::new_row::come;
use crate::row::Row;
use crate::rows::{find, name_of, row_at};
use crate::tree::are_apart;
use ar_cert::Change;
use cert_policy::Manner;
use indexmap::IndexMap;
use std::alloc::{AllocError, Global};

/// How many changes wait in a row.
fn count_waiting(row: &Row) -> usize
    ensures { (name : Vec ℕ Global) → result ≡ option_len (data_of (name, row.now)).waiting }
{
    match &row.waiting {
        None => 0,
        Some(_) => 1,
    }
}

/// The counts after a change of a row: its chain is longer by `more`, `waited` changes waited there, and `waits` wait
/// now.
fn counted(counts: Counts, waited: usize, more: usize, waits: usize) -> Counts
    requires waiting { waited ≤ counts.waiting }
    requires kept { counts.waiting ≤ counts.kept }
    requires most { counts.kept ≤ most_kept }
    requires few { more + waits ≤ 1 }
    ensures kept { result.kept + waited ≡ counts.kept + (more + waits) }
    ensures waiting { result.waiting + waited ≡ counts.waiting + waits }
{
    Counts {
        kept: counts.kept + more + waits - waited,
        waiting: counts.waiting + waits - waited,
    }
}

/// Takes a change of the name of the row at a place, and tells how much the table keeps then.
fn take_behind(
    alloc: Global,
    rows: &mut IndexMap<Vec<u8>, Row>,
    trie: &mut CountedTrie,
    counts: Counts,
    i: usize,
    epoch: u64,
    change: Change,
    manner: Manner,
) -> Result<Counts, (Change, AllocError)>
    requires place { i < length rows.old.entries }
    requires kept { IsKept (data_in rows.old.entries) trie.old counts.kept counts.waiting }
    requires judged { judge_ripe (table_of (data_in rows.old.entries)) change ≡ Ok manner }
    requires name { (d : Named) → (get_or rows.old.entries i d).0.items ≡ change.cert.name }
    ensures kept { IfOk result (λ counts.
        IsKept (data_in rows.new.entries) trie.new counts.kept counts.waiting) }
    ensures ok { OnOk result (table_of (data_in rows.new.entries)
        ≡ taking_change (table_of (data_in rows.old.entries)) epoch change manner) }
    ensures back { IfErr result (λ e. e.0 ≡ change) }
    ensures same { OnErr result (data_in rows.new.entries ≡ data_in rows.old.entries) }
    ensures same_tree { OnErr result (trie.new ≡ trie.old) }
{
    let waits = count_waiting(row_at(rows, i));
    let apart = are_apart(rows, trie, counts.waiting);
    match manner {
        Manner::Full => {
            append(alloc, rows, trie, i, change, apart)?;
            Ok(counted(counts, waits, 1, 0))
        }
        Manner::Recovery => {
            wait(alloc, rows, trie, i, change, Some(epoch), apart)?;
            Ok(counted(counts, waits, 0, 1))
        }
        Manner::Objected => {
            wait(alloc, rows, trie, i, change, None, apart)?;
            Ok(counted(counts, waits, 0, 0))
        }
    }
}

/// Takes a change in the manner in which it is judged, and tells how much the table keeps then.
pub(crate) fn take(
    alloc: Global,
    rows: &mut IndexMap<Vec<u8>, Row>,
    trie: &mut CountedTrie,
    counts: Counts,
    epoch: u64,
    change: Change,
    manner: Manner,
) -> Result<Counts, (Change, AllocError)>
    requires kept { IsKept (data_in rows.old.entries) trie.old counts.kept counts.waiting }
    requires judged { judge_ripe (table_of (data_in rows.old.entries)) change ≡ Ok manner }
    ensures kept { IfOk result (λ counts.
        IsKept (data_in rows.new.entries) trie.new counts.kept counts.waiting) }
    ensures ok { OnOk result (table_of (data_in rows.new.entries)
        ≡ taking_change (table_of (data_in rows.old.entries)) epoch change manner) }
    ensures back { IfErr result (λ e. e.0 ≡ change) }
    ensures same { OnErr result (data_in rows.new.entries ≡ data_in rows.old.entries) }
    ensures same_tree { OnErr result (trie.new ≡ trie.old) }
{
    match find(rows, name_of(&change)) {
        Some(i) => take_behind(alloc, rows, trie, counts, i, epoch, change, manner),
        None => {
            come(alloc, rows, trie, change)?;
            Ok(Counts {
                kept: counts.kept + 1,
                waiting: counts.waiting,
            })
        }
    }
}
