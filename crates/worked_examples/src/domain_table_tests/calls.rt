//! The calls of a table.
use super::changes::{Tried, change_of, newest};
use ar_cert::Change;
use domain_table::{ApplyFault, ChangeRefusal, Table};
use std::alloc::Global;
use std::test::Fail;

/// What stands for a full table where a clause of the policy rule has its number.
pub(crate) const FULL: u8 = 100;
/// And for want of memory.
const MEMORY: u8 = 200;

fn number(refusal: ChangeRefusal) -> u8 {
    match refusal {
        ChangeRefusal::Policy(refusal) => refusal.number(),
        ChangeRefusal::Full => FULL,
    }
}

/// The number of the clause by which a change is refused, and 0 where it may be taken.
pub(crate) fn judged(table: &Table, epoch: u64, change: &Change) -> u8 {
    match table.judge(epoch, change) {
        Ok(()) => 0,
        Err(refusal) => number(refusal),
    }
}

fn number_of_fault(fault: ApplyFault) -> u8 {
    match fault {
        ApplyFault::Change(refusal) => number(refusal),
        ApplyFault::Memory => MEMORY,
    }
}

/// The same where it is applied.
pub(crate) fn applied(alloc: Global, table: &mut Table, epoch: u64, change: Change) -> u8 {
    match table.apply(alloc, epoch, change) {
        Ok(()) => 0,
        Err((_, fault)) => number_of_fault(fault),
    }
}

/// Tries a change, which has to be answered as it says, also where it is only judged.
fn attempt(alloc: Global, table: &mut Table, tried: &Tried) -> Result<(), Fail> {
    let change = change_of(alloc, table, tried)?;
    let judged = judged(table, tried.epoch, &change);
    let applied = applied(alloc, table, tried.epoch, change);
    if judged == tried.answer && applied == tried.answer {
        Ok(())
    } else {
        Err("a change is answered otherwise".into())
    }
}

/// Tries changes one behind the other.
pub(crate) fn play(alloc: Global, table: &mut Table, changes: &[Tried]) -> Result<(), Fail> {
    for tried in changes {
        attempt(alloc, table, tried)?;
    }
    Ok(())
}

/// Tries a change so many times, each time behind what the table then has.
pub(crate) fn repeat(
    alloc: Global,
    table: &mut Table,
    times: u32,
    tried: &Tried,
) -> Result<(), Fail> {
    for _ in 0..times {
        attempt(alloc, table, tried)?;
    }
    Ok(())
}

/// What is handed back of a change that is applied at epoch 3, and the number of its refusal.
fn refused(alloc: Global, table: &mut Table, change: Change) -> Option<(Change, u8)> {
    match table.apply(alloc, 3, change) {
        Ok(()) => None,
        Err((change, fault)) => Some((change, number_of_fault(fault))),
    }
}

/// The change that a full table hands back: the one that it was given.
pub(crate) fn handed_back(
    alloc: Global,
    table: &mut Table,
    change: Change,
) -> Result<Change, Fail> {
    let given = change.cert.digest();
    let (back, number) = refused(alloc, table, change).ok_or("taken")?;
    if number == FULL && back.cert.digest() == given {
        Ok(back)
    } else {
        Err("another change is handed back".into())
    }
}

/// The table as it ripens at an epoch, in a copy.
fn ripened(alloc: Global, table: &Table, epoch: u64) -> Result<Table, Fail> {
    let mut copy = table.copy(alloc)?;
    copy.ripen(alloc, epoch)?;
    Ok(copy)
}

fn since(table: &Table) -> Option<u64> {
    let (_, since) = table.pending(b"a.example")?;
    Some(since)
}

fn serial(table: &Table) -> Option<u64> {
    Some(newest(table)?.cert.serial)
}

/// Since when a change of a.example waits at an epoch, the serial of its newest certificate, and the root.
pub(crate) fn seen(
    alloc: Global,
    table: &Table,
    epoch: u64,
) -> Result<(Option<u64>, Option<u64>, [u8; 32]), Fail> {
    let table = ripened(alloc, table, epoch)?;
    Ok((since(&table), serial(&table), table.root()))
}
