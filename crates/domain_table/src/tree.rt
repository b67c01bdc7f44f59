ghost use Rattle.std.specs.Prelude.{◌≡◌, ◌<◌, ◌++◌, ◌∷◌, ◌⊎◌, map, true, false, None, IfOk, IsSome, OnOk, OnErr};
ghost use Rattle.std.specs.List.{filter_map};
ghost use Rattle.std.specs.Ordering.{eq_by_cmp};
ghost use Rattle.std.specs.FinMap.{find, from_entries, get};
ghost use Rattle.hash_tree.specs.Entries.{key_cmp};
ghost use Rattle.domain_table.specs.Rows.{HaveOwnKeys, AreRows, IsAlone, data_in, greater, hit, lesser, marked, marks_listed, marks_of, name_entry, pending_entry, waiting_in, with_entry, with_marks};

use crate::counted_trie::CountedTrie;
use crate::listed::{list_rows, split_around};
use crate::row::{Listed, Marks, Row};
use hash_tree::Steps;
use indexmap::IndexMap;
use std::alloc::{AllocError, Global};
use std::marker::Brand;
use std::sync::ledger::{Blank, Ledger};

/// Whether two keys are one.
fn is_key(key: &[u8; 32], other: &[u8; 32]) -> bool
    ensures { result ≡ eq_by_cmp key_cmp key.now other.now }
{
    key.as_slice().cmp(other.as_slice()).is_eq()
}

/// The value of the first name with this key.
fn name_value(rows: &[Listed], key: &[u8; 32]) -> Option<[u8; 32]>
    ensures { result ≡ find key_cmp key.now (map name_entry (marks_listed rows.now)) }
{
    for listed in rows {
        if is_key(key, &listed.marks.key) {
            return Some(listed.marks.value);
        }
    }
    None
}

/// The value of the first that waits, of those with this key.
fn pending_value(rows: &[Listed], key: &[u8; 32]) -> Option<[u8; 32]>
    ensures { result ≡ find key_cmp key.now
        (filter_map pending_entry (marks_listed rows.now)) }
{
    for listed in rows {
        if listed.marks.pending_value.is_some() && is_key(key, &listed.marks.pending_key) {
            return listed.marks.pending_value;
        }
    }
    None
}

/// The value of the first name with this key, among rows with other marks between them.
fn name_at(front: &[Listed], marks: &Marks, back: &[Listed], key: &[u8; 32]) -> Option<[u8; 32]>
    ensures { result ≡ find key_cmp key.now
        (map name_entry (marks_listed front.now ++ marks.now ∷ marks_listed back.now)) }
{
    if let Some(value) = name_value(front, key) {
        return Some(value);
    }
    if is_key(key, &marks.key) {
        return Some(marks.value);
    }
    name_value(back, key)
}

/// The value of the marks' waiting change, if it has this key.
fn own_pending(marks: &Marks, key: &[u8; 32]) -> Option<[u8; 32]>
    ensures { result ≡ hit key.now (pending_entry marks.now) }
{
    let value = marks.pending_value?;
    if is_key(key, &marks.pending_key) {
        Some(value)
    } else {
        None
    }
}

/// The value of the first that waits, of those with this key, among rows with other marks between them.
fn pending_at(front: &[Listed], marks: &Marks, back: &[Listed], key: &[u8; 32]) -> Option<[u8; 32]>
    ensures { result ≡ find key_cmp key.now
        (filter_map pending_entry
        (marks_listed front.now ++ marks.now ∷ marks_listed back.now)) }
{
    if let Some(value) = pending_value(front, key) {
        return Some(value);
    }
    if let Some(value) = own_pending(marks, key) {
        return Some(value);
    }
    pending_value(back, key)
}

/// The value of a key among rows with other marks between them: names come first.
#[tactic(auto, using(crate::proofs::Keyed::find_both))]
fn value_at(front: &[Listed], marks: &Marks, back: &[Listed], key: &[u8; 32]) -> Option<[u8; 32]>
    ensures { result ≡ find key_cmp key.now
        (marked (marks_listed front.now ++ marks.now ∷ marks_listed back.now)) }
{
    if let Some(value) = name_at(front, marks, back, key) {
        return Some(value);
    }
    pending_at(front, marks, back, key)
}

/// The value of a key, where these marks are those of the name and all other rows are as they are. All rows are looked
/// at, in the order of their names. The only error is want of memory.
fn value_beside(
    alloc: Global,
    rows: &IndexMap<Vec<u8>, Row>,
    name: &[u8],
    marks: &Marks,
    key: &[u8; 32],
) -> Result<Option<[u8; 32]>, AllocError>
    requires { AreRows (data_in rows.now.entries) }
    ensures { IfOk result (λ value. value ≡ find key_cmp key.now
        (marked (with_marks name.now marks.now rows.now.entries))) }
{
    let list = list_rows(alloc, rows)?;
    let (front, back) = split_around(&list, name);
    Ok(value_at(front, marks, back, key))
}

/// The value of the key of these marks' name, where they are those of the name and all other rows are as they are. Where
/// no other has an entry under the key, no row is looked at. The only error is want of memory.
pub(crate) fn name_now(
    alloc: Global,
    rows: &IndexMap<Vec<u8>, Row>,
    name: &[u8],
    marks: &Marks,
    alone: bool,
) -> Result<Option<[u8; 32]>, AllocError>
    requires are { AreRows (data_in rows.now.entries) }
    requires others { (alone ≡ true)
        → IsAlone marks.now.key (marks_of (lesser name.now (data_in rows.now.entries)))
        (marks_of (greater name.now (data_in rows.now.entries))) }
    ensures { IfOk result (λ value. value ≡ find key_cmp marks.now.key
        (marked (with_marks name.now marks.now rows.now.entries))) }
{
    if alone {
        return Ok(Some(marks.value));
    }
    value_beside(alloc, rows, name, marks, &marks.key)
}

/// The value of the key of what waits by these marks, where they are those of the name and all other rows are as they
/// are. Where nothing else has an entry under the key, no row is looked at. The only error is want of memory.
fn pending_now(
    alloc: Global,
    rows: &IndexMap<Vec<u8>, Row>,
    name: &[u8],
    marks: &Marks,
    alone: bool,
) -> Result<Option<[u8; 32]>, AllocError>
    requires are { AreRows (data_in rows.now.entries) }
    requires others { (alone ≡ true)
        → IsAlone marks.now.pending_key (marks_of (lesser name.now (data_in rows.now.entries)))
        (marks_of (greater name.now (data_in rows.now.entries))) }
    requires own { (alone ≡ true)
        → eq_by_cmp key_cmp marks.now.pending_key marks.now.key ≡ false }
    ensures { IfOk result (λ value. value ≡ find key_cmp marks.now.pending_key
        (marked (with_marks name.now marks.now rows.now.entries))) }
{
    if alone {
        return Ok(marks.pending_value);
    }
    value_beside(alloc, rows, name, marks, &marks.pending_key)
}

/// Whether nothing else has an entry under the key of what waits by the marks, or would wait: something waits
/// there and all entries are apart, or the key has no entry.
fn waits_alone(trie: &CountedTrie, marks: &Marks, apart: bool) -> bool
    ensures { (result ≡ true) → ((apart ≡ true) × IsSome marks.now.pending_value)
        ⊎ (get trie.now marks.now.pending_key ≡ None) }
{
    if marks.pending_value.is_some() {
        return apart;
    }
    trie.get(&marks.pending_key).is_none()
}

/// Gives a key this value in the tree, or takes it out. Its hash calls are counted.
fn put<L: Ledger>(
    alloc: Global,
    trie: &mut CountedTrie,
    key: &[u8; 32],
    value: Option<[u8; 32]>,
    blank: Blank,
) -> Result<(), AllocError>
    requires name { blank.name ≡ L.name }
    requires parts { blank.parts ≡ L.parts }
    requires some { 0 < L.parts }
    ensures ok { OnOk result (trie.new ≡ with_entry trie.old key.now value) }
    ensures err { OnErr result (trie.new ≡ trie.old) }
{
    let mut steps = Steps::<L>::new(blank);
    match value {
        Some(value) => trie.set(alloc, key, value, &mut steps),
        None => {
            trie.remove(key, &mut steps);
            Ok(())
        }
    }
}

/// Gives a key in the tree this value, or takes it out.
pub(crate) fn refresh(
    alloc: Global,
    trie: &mut CountedTrie,
    key: &[u8; 32],
    value: Option<[u8; 32]>,
) -> Result<(), AllocError>
    ensures ok { OnOk result (trie.new ≡ with_entry trie.old key.now value) }
    ensures err { OnErr result (trie.new ≡ trie.old) }
{
    put::<Brand>(alloc, trie, key, value, Blank::new(1))
}

/// Brings the tree up to date where a row's marks have another value of the name.
pub(crate) fn retrie_name(
    alloc: Global,
    rows: &IndexMap<Vec<u8>, Row>,
    trie: &mut CountedTrie,
    name: &[u8],
    old: &Marks,
    new: &Marks,
    apart: bool,
) -> Result<(), AllocError>
    requires key { new.now.key ≡ old.now.key }
    requires pending_key { new.now.pending_key ≡ old.now.pending_key }
    requires pending { new.now.pending_value ≡ old.now.pending_value }
    requires are { AreRows (data_in rows.now.entries) }
    requires tree { trie.old
        ≡ from_entries (marked (with_marks name.now old.now rows.now.entries)) }
    requires apart { HaveOwnKeys apart (with_marks name.now old.now rows.now.entries) trie.old }
    ensures ok { OnOk result
        (trie.new ≡ from_entries (marked (with_marks name.now new.now rows.now.entries))) }
    ensures err { OnErr result (trie.new ≡ trie.old) }
{
    let value = name_now(alloc, rows, name, new, apart)?;
    refresh(alloc, trie, &new.key, value)?;
    Ok(())
}

/// Brings the tree up to date where a row's marks have another value of what waits.
pub(crate) fn retrie_pending(
    alloc: Global,
    rows: &IndexMap<Vec<u8>, Row>,
    trie: &mut CountedTrie,
    name: &[u8],
    old: &Marks,
    new: &Marks,
    apart: bool,
) -> Result<(), AllocError>
    requires key { new.now.key ≡ old.now.key }
    requires pending_key { new.now.pending_key ≡ old.now.pending_key }
    requires value { new.now.value ≡ old.now.value }
    requires are { AreRows (data_in rows.now.entries) }
    requires tree { trie.old
        ≡ from_entries (marked (with_marks name.now old.now rows.now.entries)) }
    requires apart { HaveOwnKeys apart (with_marks name.now old.now rows.now.entries) trie.old }
    ensures ok { OnOk result
        (trie.new ≡ from_entries (marked (with_marks name.now new.now rows.now.entries))) }
    ensures err { OnErr result (trie.new ≡ trie.old) }
{
    let alone = waits_alone(trie, old, apart);
    let value = pending_now(alloc, rows, name, new, alone)?;
    refresh(alloc, trie, &new.pending_key, value)?;
    Ok(())
}

/// Brings the tree up to date where a row's marks have other values of both. Two entries change, so it is
/// a copy that changes: after an error all is as before.
pub(crate) fn retrie_both(
    alloc: Global,
    rows: &IndexMap<Vec<u8>, Row>,
    trie: &mut CountedTrie,
    name: &[u8],
    old: &Marks,
    new: &Marks,
    apart: bool,
) -> Result<(), AllocError>
    requires key { new.now.key ≡ old.now.key }
    requires pending_key { new.now.pending_key ≡ old.now.pending_key }
    requires are { AreRows (data_in rows.now.entries) }
    requires tree { trie.old
        ≡ from_entries (marked (with_marks name.now old.now rows.now.entries)) }
    requires apart { HaveOwnKeys apart (with_marks name.now old.now rows.now.entries) trie.old }
    ensures ok { OnOk result
        (trie.new ≡ from_entries (marked (with_marks name.now new.now rows.now.entries))) }
    ensures err { OnErr result (trie.new ≡ trie.old) }
{
    let own = name_now(alloc, rows, name, new, apart)?;
    let alone = waits_alone(trie, old, apart);
    let pending = pending_now(alloc, rows, name, new, alone)?;
    let mut copy = trie.copy(alloc)?;
    refresh(alloc, &mut copy, &new.key, own)?;
    refresh(alloc, &mut copy, &new.pending_key, pending)?;
    *trie = copy;
    Ok(())
}

/// Whether the tree has as many entries as rows have, of which so many have a change that waits: then no two have one key.
pub(crate) fn are_apart(rows: &IndexMap<Vec<u8>, Row>, trie: &CountedTrie, waiting: usize) -> bool
    requires are { AreRows (data_in rows.now.entries) }
    requires wait { waiting ≡ waiting_in (data_in rows.now.entries) }
    ensures { HaveOwnKeys result (marks_of (data_in rows.now.entries)) trie.now }
{
    match trie.least().checked_sub(rows.len()) {
        None => false,
        Some(rest) => waiting <= rest,
    }
}
