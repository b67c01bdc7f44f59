//! A table that is full. Stored scripts show the others.
mod calls;
mod changes;
mod values;

use calls::{FULL, applied, handed_back, judged, play, repeat, seen};
use changes::{Says, Tried, registering};
use domain_table::Table;
use std::alloc::Global;
use std::test::Fail;
use values::{free, full_root};

const NOBODY: &[u8] = &[];

/// A name is registered with a wait.
fn registered() -> Tried {
    Tried::new(1, free(), &[0, 1, 2], Says::Nothing, 0)
}

/// It is recovered by authorities of which it trusts none.
fn recovered() -> Tried {
    Tried::new(2, free(), &[2, 3, 4], Says::Nothing, 0)
}

/// Its owner objects.
fn objected() -> Tried {
    Tried::new(3, free(), NOBODY, Says::Objection, 0)
}

/// The table in which a.example has 4,095 certificates, and one more waits since epoch 2.
fn full(alloc: Global) -> Result<Table, Fail> {
    let mut table = Table::new(alloc);
    repeat(alloc, &mut table, 4095, &registered())?;
    play(alloc, &mut table, &[recovered()])?;
    Ok(table)
}

#[test]
fn a_full_table_hands_a_change_back(rt: HostRuntime) -> Result<(), Fail> {
    let alloc = rt.alloc();
    let mut table = full(alloc)?;
    let back = handed_back(alloc, &mut table, registering(alloc, b'b')?)?;
    assert!(rt; seen(alloc, &table, 3)? == (Some(2), Some(4094), full_root()));
    play(alloc, &mut table, &[objected()])?;
    assert_eq!(rt; applied(alloc, &mut table, 3, back), 0);
    let last = handed_back(alloc, &mut table, registering(alloc, b'c')?)?;
    assert_eq!(rt; judged(&table, 3, &last), FULL);
    Ok(())
}
