ghost use Rattle.std.specs.Prelude.{◌≡◌, ℕ, ◌<◌, ◌++◌, ◌∷◌, [], length, get_or, None, IfErr, OnOk, OnErr, Vec, vec_len, vec_capacity};
ghost use Rattle.std.specs.declared.alloc.Global.{Global};
ghost use Rattle.std.specs.FinMap.{from_entries};
ghost use Rattle.std.specs.Option.{option_map};
ghost use Rattle.ar_cert.specs.Certificate.{certificate_value};
ghost use Rattle.domain_table.specs.Tree.{pending_value};
ghost use Rattle.domain_table.specs.Rows.{RowData, HaveOwnKeys, AreRows, IsChangedIn, Named, data_in, data_of, marked, marks_of, rows_in, waits, with_marks, with_row};

use crate::counted_trie::CountedTrie;
use crate::row::{Marks, Row, Waiting};
use crate::rows::row_at;
use crate::tree::{retrie_both, retrie_name, retrie_pending};
use ar_cert::Change;
use hash_tree::pending_digest;
use indexmap::IndexMap;
use std::alloc::{AllocError, Global};

/// The value of a change in the tree once it is the newest.
fn newest_value(change: &Change) -> [u8; 32]
    ensures { result ≡ certificate_value change.now.cert }
{
    change.cert.value()
}

/// The value in the tree of a change that waits since this epoch, if it waits.
fn waiting_value(change: &Change, since: Option<u64>) -> Option<[u8; 32]>
    ensures { result ≡ option_map pending_value (waits change.now since) }
{
    match since {
        Some(since) => Some(pending_digest(since, &change.cert.digest())),
        None => None,
    }
}

/// The name of the row at a place.
fn name_at(rows: &IndexMap<Vec<u8>, Row>, i: usize) -> &[u8]
    requires { i < length rows.now.entries }
    ensures { (d : Named) → result.now ≡ (get_or rows.now.entries i d).0.items }
{
    match rows.get_index(i) {
        Some((name, _)) => name.as_slice(),
        None => unreachable!(),
    }
}

/// Makes room for one more change in the row at a place.
fn make_room(rows: &mut IndexMap<Vec<u8>, Row>, i: usize) -> Result<(), AllocError>
    requires { i < length rows.old.entries }
    ensures same { rows_in rows.new.entries ≡ rows_in rows.old.entries }
    ensures ok { OnOk result ((d : Named)
        → vec_len (get_or rows.new.entries i d).1.chain
        < vec_capacity (get_or rows.new.entries i d).1.chain) }
{
    rows[i].chain.reserve(1)
}

/// Appends a change, for which there is room, to the chain of a row. Nothing waits then.
fn grow(row: &mut Row, change: Change, marks: Marks)
    requires { vec_len row.old.chain < vec_capacity row.old.chain }
    ensures { (name : Vec ℕ Global) → data_of (name, row.new)
        ≡ with_row (data_of (name, row.old)) (row.old.chain.items ++ change ∷ []) None marks }
{
    row.chain.push_reserved(change);
    row.waiting = None;
    row.marks = marks;
}

/// Brings the tree up to date where a row grows and nothing waits.
fn retrie(
    alloc: Global,
    rows: &IndexMap<Vec<u8>, Row>,
    trie: &mut CountedTrie,
    name: &[u8],
    old: &Marks,
    new: &Marks,
    apart: bool,
) -> Result<(), AllocError>
    requires key { new.now.key ≡ old.now.key }
    requires pending_key { new.now.pending_key ≡ old.now.pending_key }
    requires pending { new.now.pending_value ≡ None }
    requires are { AreRows (data_in rows.now.entries) }
    requires tree { trie.old
        ≡ from_entries (marked (with_marks name.now old.now rows.now.entries)) }
    requires apart { HaveOwnKeys apart (with_marks name.now old.now rows.now.entries) trie.old }
    ensures ok { OnOk result
        (trie.new ≡ from_entries (marked (with_marks name.now new.now rows.now.entries))) }
    ensures err { OnErr result (trie.new ≡ trie.old) }
{
    match old.pending_value {
        None => retrie_name(alloc, rows, trie, name, old, new, apart),
        Some(_) => retrie_both(alloc, rows, trie, name, old, new, apart),
    }
}

/// Appends a change to the chain of the row at a place, and brings the tree up to date. What waits there waits
/// no longer.
pub(crate) fn append(
    alloc: Global,
    rows: &mut IndexMap<Vec<u8>, Row>,
    trie: &mut CountedTrie,
    i: usize,
    change: Change,
    apart: bool,
) -> Result<(), (Change, AllocError)>
    requires place { i < length rows.old.entries }
    requires are { AreRows (data_in rows.old.entries) }
    requires tree { trie.old ≡ from_entries (marked (marks_of (data_in rows.old.entries))) }
    requires apart { HaveOwnKeys apart (marks_of (data_in rows.old.entries)) trie.old }
    ensures ok { OnOk result ((d : RowData)
        → IsChangedIn rows.old.entries rows.new.entries trie.new i
        (get_or (rows_in rows.old.entries) i d)
        ((get_or (rows_in rows.old.entries) i d).chain ++ change ∷ []) None) }
    ensures back { IfErr result (λ e. e.0 ≡ change) }
    ensures same { OnErr result (data_in rows.new.entries ≡ data_in rows.old.entries) }
    ensures same_tree { OnErr result (trie.new ≡ trie.old) }
{
    if let Err(error) = make_room(rows, i) {
        return Err((change, error));
    }
    let old = row_at(rows, i).marks;
    let new = Marks {
        key: old.key,
        value: newest_value(&change),
        pending_key: old.pending_key,
        pending_value: None,
    };
    let name = name_at(rows, i);
    if let Err(error) = retrie(alloc, rows, trie, name, &old, &new, apart) {
        return Err((change, error));
    }
    grow(&mut rows[i], change, new);
    Ok(())
}

/// The change waits in a row since this epoch, or nothing waits there where none is told.
fn hold(row: &mut Row, change: Change, since: Option<u64>, marks: Marks)
    ensures { (name : Vec ℕ Global) → data_of (name, row.new)
        ≡ with_row (data_of (name, row.old)) row.old.chain.items (waits change since) marks }
{
    row.waiting = match since {
        Some(since) => Some(Waiting { change, since }),
        None => None,
    };
    row.marks = marks;
}

/// The change waits in the row at a place since this epoch, or nothing waits there any longer where none is told; and
/// the tree is brought up to date.
pub(crate) fn wait(
    alloc: Global,
    rows: &mut IndexMap<Vec<u8>, Row>,
    trie: &mut CountedTrie,
    i: usize,
    change: Change,
    since: Option<u64>,
    apart: bool,
) -> Result<(), (Change, AllocError)>
    requires place { i < length rows.old.entries }
    requires are { AreRows (data_in rows.old.entries) }
    requires tree { trie.old ≡ from_entries (marked (marks_of (data_in rows.old.entries))) }
    requires apart { HaveOwnKeys apart (marks_of (data_in rows.old.entries)) trie.old }
    ensures ok { OnOk result ((d : RowData)
        → IsChangedIn rows.old.entries rows.new.entries trie.new i
        (get_or (rows_in rows.old.entries) i d)
        (get_or (rows_in rows.old.entries) i d).chain (waits change since)) }
    ensures back { IfErr result (λ e. e.0 ≡ change) }
    ensures same { OnErr result (data_in rows.new.entries ≡ data_in rows.old.entries) }
    ensures same_tree { OnErr result (trie.new ≡ trie.old) }
{
    let old = row_at(rows, i).marks;
    let new = Marks {
        key: old.key,
        value: old.value,
        pending_key: old.pending_key,
        pending_value: waiting_value(&change, since),
    };
    let name = name_at(rows, i);
    if let Err(error) = retrie_pending(alloc, rows, trie, name, &old, &new, apart) {
        return Err((change, error));
    }
    hold(&mut rows[i], change, since, new);
    Ok(())
}
