//! Whether two of the strings that are hashed in a run collide.

ghost use Rattle.std.specs.Prelude.{◌≡◌, ◌++◌, List, ℕ, IfOk, OnOk, flat_map};
ghost use Rattle.ar_base.specs.Apart.{none_collide};
ghost use Rattle.ar_safety.specs.Hashed.{hashed, listed_tables};
ghost use Rattle.ar_safety.specs.Held.{records_of};
ghost use Rattle.domain_table.specs.Tree.{table_strings};
ghost use Rattle.hashed_strings.specs.Index.{AreNoted};
ghost use Rattle.hashed_strings.specs.Judged.{strings_in};
ghost use Rattle.run_premises.specs.Hashing.{tables_of};

use crate::forging::{honest_below, log_at};
use ar_records::{Judged, Records};
use ar_statement::{Role, has_party};
use hashed_strings::Noted;
use std::alloc::{AllocError, Global};

/// Notes the strings of the tables of a log, if it is honest.
fn note_log(
    alloc: Global,
    noted: &mut Noted,
    records: &Records,
    number: u16,
) -> Result<(), AllocError>
    ensures { OnOk result ((others : List (List ℕ)) → AreNoted noted.old others
        → AreNoted noted.new (flat_map table_strings (tables_of (records_of records.now) number)
        ++ others)) }
{
    if has_party(&records.dishonest, Role::LogServer.party(number)) {
        return Ok(());
    }
    let place = honest_below(&records.dishonest, Role::LogServer, number);
    match log_at(records, place) {
        Some(record) => noted.note_log(alloc, record),
        None => Ok(()),
    }
}

/// Notes the strings of the tables of all honest logs.
fn note_logs(alloc: Global, noted: &mut Noted, records: &Records) -> Result<(), AllocError>
    ensures { OnOk result ((others : List (List ℕ)) → AreNoted noted.old others
        → AreNoted noted.new (flat_map table_strings (listed_tables (records_of records.now))
        ++ others)) }
{
    let count = records.directory.logs() as u16;
    for number in 0..count {
        note_log(alloc, noted, records, number)?;
    }
    Ok(())
}

/// Notes the strings of what clients accepted.
fn note_judged(alloc: Global, noted: &mut Noted, judged: &[Judged]) -> Result<(), AllocError>
    ensures { OnOk result ((others : List (List ℕ)) → AreNoted noted.old others
        → AreNoted noted.new (flat_map (λ t. strings_in t.bytes) judged.now ++ others)) }
{
    let mut i = judged.len();
    while i > 0 {
        i -= 1;
        let accepted = &judged[i];
        noted.note_confirmation(alloc, &accepted.bytes)?;
    }
    Ok(())
}

/// Whether no two strings, if they differ, have one digest under SHA-256, of those that are hashed for the tables which honest
/// logs voted for or decided, and by clients for what they accepted. The only error is want of memory.
pub fn none_collide(alloc: Global, records: &Records) -> Result<bool, AllocError>
    ensures { IfOk result (λ apart. apart ≡ none_collide (hashed (records_of records.now))) }
{
    let mut noted = Noted::new(alloc);
    note_judged(alloc, &mut noted, records.judged)?;
    note_logs(alloc, &mut noted, records)?;
    Ok(noted.is_apart())
}
