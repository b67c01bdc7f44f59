ghost use Rattle.std.specs.Prelude.{◌≡◌, ℕ, ◌<◌, ◌++◌, ◌∷◌, [], None, IfErr, IfOk, OnOk, OnErr, Vec, vec_len, vec_capacity};
ghost use Rattle.std.specs.declared.alloc.Global.{Global};
ghost use Rattle.indexmap.specs.IndexMap.{spare};
ghost use Rattle.std.specs.FinMap.{from_entries};
ghost use Rattle.ar_cert.specs.Certificate.{certificate_value};
ghost use Rattle.ar_names.specs.Names.{name_digest_of};
ghost use Rattle.hash_tree.specs.Strings as strings;
ghost use Rattle.domain_table.specs.Rows.{AreRows, IsCome, IsMissing, data_in, data_of, first_row, marked, marks_of, with_marks};

use crate::counted_trie::CountedTrie;
use crate::row::{Marks, Row};
use crate::row_copy::push_row;
use crate::rows::name_of;
use crate::tree::{name_now, refresh};
use ar_cert::Change;
use hash_tree::pending_key;
use indexmap::IndexMap;
use std::alloc::{AllocError, Global};

/// What a name has in the tree whose first change this is.
fn first_marks(change: &Change) -> Marks
    ensures key { result.key ≡ name_digest_of change.now.cert.name }
    ensures value { result.value ≡ certificate_value change.now.cert }
    ensures pending_key { result.pending_key ≡ strings.pending_key change.now.cert.name }
    ensures pending_value { result.pending_value ≡ None }
{
    Marks {
        key: change.cert.name.digest(),
        value: change.cert.value(),
        pending_key: pending_key(name_of(change)),
        pending_value: None,
    }
}

/// The tree with the entry of the marks of a name that no row has.
fn retrie_come(
    alloc: Global,
    rows: &IndexMap<Vec<u8>, Row>,
    trie: &mut CountedTrie,
    name: &[u8],
    marks: &Marks,
) -> Result<(), AllocError>
    requires free { marks.now.pending_value ≡ None }
    requires are { AreRows (data_in rows.now.entries) }
    requires absent { IsMissing name.now rows.now.entries }
    requires tree { trie.old ≡ from_entries (marked (marks_of (data_in rows.now.entries))) }
    ensures ok { OnOk result
        (trie.new ≡ from_entries (marked (with_marks name.now marks.now rows.now.entries))) }
    ensures err { OnErr result (trie.new ≡ trie.old) }
{
    let alone = trie.get(&marks.key).is_none();
    let value = name_now(alloc, rows, name, marks, alone)?;
    refresh(alloc, trie, &marks.key, value)?;
    Ok(())
}

/// Makes room for one more row.
fn make_place(rows: &mut IndexMap<Vec<u8>, Row>) -> Result<(), AllocError>
    ensures same { rows.new.entries ≡ rows.old.entries }
    ensures ok { OnOk result (0 < spare rows.new) }
{
    rows.reserve(1)
}

/// An empty chain with room for its first change.
fn chain_room(alloc: Global) -> Result<Vec<Change>, AllocError>
    ensures empty { IfOk result (λ chain. chain.items ≡ []) }
    ensures room { IfOk result (λ chain. vec_len chain < vec_capacity chain) }
{
    let chain = Vec::with_capacity(alloc, 1)?;
    Ok(chain)
}

/// A row of one change.
fn row_with(chain: Vec<Change>, change: Change, marks: Marks) -> Row
    requires empty { chain.items ≡ [] }
    requires room { vec_len chain < vec_capacity chain }
    ensures { (name : Vec ℕ Global) → data_of (name, result) ≡ first_row name.items change marks }
{
    let mut chain = chain;
    chain.push_reserved(change);
    Row {
        chain,
        waiting: None,
        marks,
    }
}

/// Puts the row of a name that no row has behind the others, for which there is room.
fn set_in(rows: &mut IndexMap<Vec<u8>, Row>, name: Vec<u8>, row: Row)
    requires absent { IsMissing name.items rows.old.entries }
    requires room { 0 < spare rows.old }
    ensures { rows.new.entries ≡ rows.old.entries ++ (name, row) ∷ [] }
{
    match push_row(rows, name, row) {
        Ok(()) => {}
        Err(_) => unreachable!(),
    }
}

/// The memory of a new row: its name, and a chain with room for one change.
fn memory_of(alloc: Global, change: &Change) -> Result<(Vec<u8>, Vec<Change>), AllocError>
    ensures name { IfOk result (λ parts. parts.0.items ≡ change.now.cert.name) }
    ensures empty { IfOk result (λ parts. parts.1.items ≡ []) }
    ensures room { IfOk result (λ parts. vec_len parts.1 < vec_capacity parts.1) }
{
    let name = Vec::from_slice(alloc, name_of(change))?;
    let chain = chain_room(alloc)?;
    Ok((name, chain))
}

/// Begins the chain of a name that no row has, behind the others, and brings the tree up to date.
pub(crate) fn come(
    alloc: Global,
    rows: &mut IndexMap<Vec<u8>, Row>,
    trie: &mut CountedTrie,
    change: Change,
) -> Result<(), (Change, AllocError)>
    requires are { AreRows (data_in rows.old.entries) }
    requires absent { IsMissing change.cert.name rows.old.entries }
    requires tree { trie.old ≡ from_entries (marked (marks_of (data_in rows.old.entries))) }
    ensures ok { OnOk result (IsCome rows.old.entries rows.new.entries trie.new change) }
    ensures back { IfErr result (λ e. e.0 ≡ change) }
    ensures same { OnErr result (data_in rows.new.entries ≡ data_in rows.old.entries) }
    ensures same_tree { OnErr result (trie.new ≡ trie.old) }
{
    let (name, chain) = match memory_of(alloc, &change) {
        Ok(parts) => parts,
        Err(error) => return Err((change, error)),
    };
    if let Err(error) = make_place(rows) {
        return Err((change, error));
    }
    let marks = first_marks(&change);
    if let Err(error) = retrie_come(alloc, rows, trie, name.as_slice(), &marks) {
        return Err((change, error));
    }
    set_in(rows, name, row_with(chain, change, marks));
    Ok(())
}
