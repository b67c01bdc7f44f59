ghost use Rattle.std.specs.Prelude.{◌≡◌, ℕ, ◌++◌, ◌∷◌, [], ◌<◌, IfOk, IsOk, OnOk, OnErr, Vec};
ghost use Rattle.std.specs.declared.alloc.Global.{Global};
ghost use Rattle.indexmap.specs.IndexMap.{spare};
ghost use Rattle.std.specs.Option.{option_map};
ghost use Rattle.domain_table.specs.Rows.{IsMissing, data_of, pending_of, rows_in};

use crate::row::{Row, Waiting};
use ar_cert::Change;
use indexmap::IndexMap;
use std::alloc::{AllocError, Global};

/// Copies of changes, in their order. The only error is want of memory.
pub fn copy_changes(alloc: Global, changes: &[Change]) -> Result<Vec<Change>, AllocError>
    ensures { IfOk result (λ copies. copies.items ≡ changes.now) }
{
    let mut copies = Vec::with_capacity(alloc, changes.len())?;
    for change in changes {
        copies.push(change.copy(alloc)?)?;
    }
    Ok(copies)
}

/// The same that waits.
fn copy_waiting(alloc: Global, waiting: &Option<Waiting>) -> Result<Option<Waiting>, AllocError>
    ensures { IfOk result (λ copy. option_map pending_of copy ≡ option_map pending_of waiting.now) }
{
    match waiting {
        None => Ok(None),
        Some(waiting) => Ok(Some(Waiting {
            change: waiting.change.copy(alloc)?,
            since: waiting.since,
        })),
    }
}

/// A row that says the same.
fn copy_row(alloc: Global, row: &Row) -> Result<Row, AllocError>
    ensures { IfOk result (λ copy.
        (name : Vec ℕ Global) → data_of (name, copy) ≡ data_of (name, row.now)) }
{
    let chain = copy_changes(alloc, row.chain.as_slice())?;
    let waiting = copy_waiting(alloc, &row.waiting)?;
    Ok(Row {
        chain,
        waiting,
        marks: row.marks,
    })
}

/// Puts a row behind others, of a name that none of them has. The only error is want of memory, and then all is as
/// before.
pub(crate) fn push_row(
    rows: &mut IndexMap<Vec<u8>, Row>,
    name: Vec<u8>,
    row: Row,
) -> Result<(), AllocError>
    requires { IsMissing name.items rows.old.entries }
    ensures ok { OnOk result (rows.new.entries ≡ rows.old.entries ++ (name, row) ∷ []) }
    ensures same { OnErr result (rows.new.entries ≡ rows.old.entries) }
    ensures room { 0 < spare rows.old → IsOk result }
{
    match rows.insert(name, row) {
        Ok(_) => Ok(()),
        Err(_) => Err(AllocError),
    }
}

/// Rows that say the same, in the same order, in memory of their own.
pub(crate) fn copy_rows(
    alloc: Global,
    rows: &IndexMap<Vec<u8>, Row>,
) -> Result<IndexMap<Vec<u8>, Row>, AllocError>
    ensures { IfOk result (λ copies. rows_in copies.entries ≡ rows_in rows.now.entries) }
{
    let mut copies = IndexMap::with_capacity(alloc, rows.len())?;
    for (name, row) in rows.iter() {
        let name = Vec::from_slice(alloc, name.as_slice())?;
        let row = copy_row(alloc, row)?;
        push_row(&mut copies, name, row)?;
    }
    Ok(copies)
}
