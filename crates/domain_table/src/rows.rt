ghost use Rattle.std.specs.Prelude.{option_and_then, ◌≡◌, ◌<◌, length, map, ℕ, get_or, Some, None, IfSome, IfNone, IsTrue, Vec};
ghost use Rattle.std.specs.declared.alloc.Global.{Global};
ghost use Rattle.std.specs.Option.{option_map};
ghost use Rattle.std.specs.FinMap.{get, is_sorted};
ghost use Rattle.hash_tree.specs.Entries.{key_cmp};
ghost use Rattle.domain_table.specs.Tables.{chain_of, newest, size};
ghost use Rattle.domain_table.specs.Applying.{is_over, is_ripe_behind, judge, manner_of, ripen, with_room};
ghost use Rattle.domain_table.specs.Rows.{AreRows, IsMissing, Named, chain_pair, data_in, data_of, table_of, newest_at, pending_at, pending_of, pending_told};

use crate::refusal::ChangeRefusal;
use crate::row::Row;
use ar_cert::{Cert, Change, judge_change, judge_update};
use cert_policy::{Manner, PolicyRefusal};
use indexmap::IndexMap;

/// How many certificates and waiting changes a table may have.
const MOST_KEPT: usize = 4096;

/// Whether a change that waits since then has waited as long as the policy says.
fn is_over(epoch: u64, since: u64, wait: Option<u16>) -> bool
    ensures { result ≡ is_over epoch since wait }
{
    let Some(wait) = wait else {
        return false;
    };
    match since.checked_add(wait as u64) {
        Some(end) => end <= epoch,
        None => false,
    }
}

/// The newest change of a chain.
pub(crate) fn newest(chain: &[Change]) -> Option<&Change>
    ensures { option_map (λ c. c.now.cert) result ≡ newest chain.now }
{
    chain.last()
}

/// The newest certificate of a chain.
pub(crate) fn newest_certificate(chain: &[Change]) -> Option<&Cert>
    ensures { option_map (λ c. c.now) result ≡ newest chain.now }
{
    match newest(chain) {
        Some(change) => Some(&change.cert),
        None => None,
    }
}

/// Whether what waits in a row is ripe at an epoch.
pub(crate) fn is_ripe(row: &Row, epoch: u64) -> bool
    ensures { result
        ≡ is_ripe_behind epoch (newest row.now.chain.items)
        (option_map pending_of row.now.waiting) }
{
    let (Some(last), Some(waiting)) = (newest(&row.chain), &row.waiting) else {
        return false;
    };
    is_over(epoch, waiting.since, last.cert.policy.wait)
}

/// How a change that registers its name is taken, where the name has no row.
fn judge_first(change: &Change) -> Result<Manner, PolicyRefusal>
    ensures { result ≡ manner_of None None change.now }
{
    if change.objection.is_some() {
        return Err(PolicyRefusal::NotPending);
    }
    judge_change(None, change)?;
    Ok(Manner::Full)
}

/// How a change is taken behind the changes of a row as they stand at the epoch.
fn judge_next(row: &Row, epoch: u64, change: &Change) -> Result<Manner, PolicyRefusal>
    requires { 0 < length row.now.chain.items }
    ensures { (name : Vec ℕ Global) → result
        ≡ manner_of (newest_at epoch (Some (data_of (name, row.now))))
        (pending_at epoch (Some (data_of (name, row.now)))) change.now }
{
    if is_ripe(row, epoch) {
        let Some(waiting) = &row.waiting else {
            unreachable!();
        };
        return judge_update(&waiting.change.cert, None, change);
    }
    let Some(last) = newest(&row.chain) else {
        unreachable!();
    };
    match &row.waiting {
        None => judge_update(&last.cert, None, change),
        Some(waiting) => judge_update(&last.cert, Some(&waiting.change.cert.digest()), change),
    }
}

/// The place of the row of a name, among rows in the order in which they came.
pub(crate) fn find(rows: &IndexMap<Vec<u8>, Row>, name: &[u8]) -> Option<usize>
    ensures found { IfSome result (λ i. (i < length rows.now.entries)
        × ((d : Named) → (get_or rows.now.entries i d).0.items ≡ name.now)) }
    ensures absent { IfNone result (IsMissing name.now rows.now.entries) }
{
    rows.get_index_of(name)
}

/// The row at a place.
pub(crate) fn row_at(rows: &IndexMap<Vec<u8>, Row>, i: usize) -> &Row
    requires { i < length rows.now.entries }
    ensures { (d : Named) → result.now ≡ (get_or rows.now.entries i d).1 }
{
    &rows[i]
}

/// The row of a name.
pub(crate) fn row_of<'a>(rows: &'a IndexMap<Vec<u8>, Row>, name: &[u8]) -> Option<&'a Row>
    requires { IsTrue (is_sorted key_cmp (map chain_pair (data_in rows.now.entries))) }
    ensures chain { option_map (λ row. row.now.chain.items) result
        ≡ get (table_of (data_in rows.now.entries)).chains name.now }
    ensures waiting { option_and_then (λ row.
        option_map pending_of row.now.waiting) result
        ≡ get (table_of (data_in rows.now.entries)).waiting name.now }
{
    match find(rows, name) {
        Some(i) => Some(row_at(rows, i)),
        None => None,
    }
}

/// What waits in a row, and since when.
pub(crate) fn waiting_of(row: &Row) -> Option<(&Change, u64)>
    ensures { option_map pending_told result ≡ option_map pending_of row.now.waiting }
{
    let waiting = row.waiting.as_ref()?;
    Some((&waiting.change, waiting.since))
}

/// The name of a change's certificate.
pub(crate) fn name_of(change: &Change) -> &[u8]
    ensures { result.now ≡ change.now.cert.name }
{
    change.cert.name.text()
}

/// How a change is taken at an epoch among rows.
pub(crate) fn judge_rows(
    rows: &IndexMap<Vec<u8>, Row>,
    epoch: u64,
    change: &Change,
) -> Result<Manner, PolicyRefusal>
    requires { AreRows (data_in rows.now.entries) }
    ensures { result ≡ manner_of
        (newest (chain_of (ripen (table_of (data_in rows.now.entries)) epoch) change.now.cert.name))
        (get (ripen (table_of (data_in rows.now.entries)) epoch).waiting change.now.cert.name)
        change.now }
{
    match find(rows, name_of(change)) {
        Some(i) => judge_next(row_at(rows, i), epoch, change),
        None => judge_first(change),
    }
}

/// The manner, unless no place is left for it.
pub(crate) fn with_room(
    kept: usize,
    answer: Result<Manner, PolicyRefusal>,
) -> Result<Manner, ChangeRefusal>
    ensures { result ≡ with_room kept answer }
{
    match answer {
        Err(refusal) => Err(ChangeRefusal::Policy(refusal)),
        Ok(Manner::Objected) => Ok(Manner::Objected),
        Ok(manner) => {
            if kept >= MOST_KEPT {
                Err(ChangeRefusal::Full)
            } else {
                Ok(manner)
            }
        }
    }
}

/// How a change is taken at an epoch among rows that are so many certificates and waiting changes, or why it is
/// refused.
pub(crate) fn judged(
    rows: &IndexMap<Vec<u8>, Row>,
    kept: usize,
    epoch: u64,
    change: &Change,
) -> Result<Manner, ChangeRefusal>
    requires are { AreRows (data_in rows.now.entries) }
    requires count { kept ≡ size (table_of (data_in rows.now.entries)) }
    ensures { result ≡ judge (table_of (data_in rows.now.entries)) epoch change.now }
{
    with_room(kept, judge_rows(rows, epoch, change))
}
