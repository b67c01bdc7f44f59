ghost use Rattle.std.specs.Prelude.{◌≡◌, ◌++◌, ◌∷◌, [], List, map, IfOk, OnOk};
ghost use Rattle.std.specs.List.{cons_option, filter_map};
ghost use Rattle.std.specs.FinMap.{entries};
ghost use Rattle.hash_tree.specs.Entries.{Entry, entries_of};
ghost use Rattle.domain_table.specs.Rows.{data_in, marked, marks_listed, marks_of, name_entry, pending_entry};

use crate::listed::list_rows;
use crate::row::{Listed, Marks, Row};
use indexmap::IndexMap;
use std::alloc::{AllocError, Global};
use std::collections::BTreeMap;

/// Adds an entry in front of those that the map was made of: it is the one of its key.
fn put_first(
    list: &mut BTreeMap<[u8; 32], [u8; 32]>,
    key: &[u8; 32],
    value: &[u8; 32],
) -> Result<(), AllocError>
    ensures { OnOk result ((es : List Entry) → list.old.entries ≡ entries (entries_of es)
        → list.new.entries ≡ entries (entries_of ((key.now, value.now) ∷ es))) }
{
    list.insert(*key, *value)?;
    Ok(())
}

/// Adds the entry of what waits, if something does, in front of others.
fn put_pending(list: &mut BTreeMap<[u8; 32], [u8; 32]>, marks: &Marks) -> Result<(), AllocError>
    ensures { OnOk result ((es : List Entry) → list.old.entries ≡ entries (entries_of es)
        → list.new.entries ≡ entries (entries_of (cons_option (pending_entry marks.now) es))) }
{
    match &marks.pending_value {
        None => Ok(()),
        Some(value) => put_first(list, &marks.pending_key, value),
    }
}

/// Adds the entries of what waits in rows, from the last to the first.
fn list_pending(list: &mut BTreeMap<[u8; 32], [u8; 32]>, rows: &[Listed]) -> Result<(), AllocError>
    requires { list.old.entries ≡ [] }
    ensures { OnOk result
        (list.new.entries ≡ entries
        (entries_of (filter_map pending_entry (marks_listed rows.now)))) }
{
    let mut i = rows.len();
    while i > 0 {
        i -= 1;
        put_pending(list, &rows[i].marks)?;
    }
    Ok(())
}

/// Adds the entries of the names of rows, from the last to the first, in front of others.
fn list_names(list: &mut BTreeMap<[u8; 32], [u8; 32]>, rows: &[Listed]) -> Result<(), AllocError>
    ensures { OnOk result ((es : List Entry) → list.old.entries ≡ entries (entries_of es)
        → list.new.entries ≡ entries
        (entries_of (map name_entry (marks_listed rows.now) ++ es))) }
{
    let mut i = rows.len();
    while i > 0 {
        i -= 1;
        put_first(list, &rows[i].marks.key, &rows[i].marks.value)?;
    }
    Ok(())
}

/// The entries of what is listed, in the order of their keys.
fn entries_listed(alloc: Global, rows: &[Listed]) -> Result<Vec<([u8; 32], [u8; 32])>, AllocError>
    ensures { IfOk result (λ list.
        list.items ≡ entries (entries_of (marked (marks_listed rows.now)))) }
{
    let mut list = BTreeMap::new(alloc);
    list_pending(&mut list, rows)?;
    list_names(&mut list, rows)?;
    list.into_iter().collect(alloc)
}

/// The entries of rows, in the order of their keys. Where two have one key, names come before what waits, and
/// the lesser name first.
pub(crate) fn list_entries(
    alloc: Global,
    rows: &IndexMap<Vec<u8>, Row>,
) -> Result<Vec<([u8; 32], [u8; 32])>, AllocError>
    ensures { IfOk result (λ list.
        list.items ≡ entries (entries_of (marked (marks_of (data_in rows.now.entries))))) }
{
    let rows = list_rows(alloc, rows)?;
    entries_listed(alloc, &rows)
}
