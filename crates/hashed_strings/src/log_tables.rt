//! The tables that a log voted for, and those that it decided, made again from what it remembers.

ghost use Rattle.std.specs.Prelude.{◌≡◌, ◌==◌, ◌++◌, ◌∷◌, [], ℕ, All, IfOk, List, None, OnOk, Some, find, flat_map, if◌then◌else◌, map};
ghost use Rattle.std.specs.List.{filter_map};
ghost use Rattle.std.specs.Option.{option_map};
ghost use Rattle.ar_safety.specs.Hashed.{ended_table, log_tables, voted_table};
ghost use Rattle.ar_cert.specs.Changes.{IsChange};
ghost use Rattle.domain_table.specs.Applying.{apply};
ghost use Rattle.domain_table.specs.Sound.{IsSound};
ghost use Rattle.domain_table.specs.Tree.{table_strings};
ghost use Rattle.epoch_log.specs.Log.{record_of};
ghost use Rattle.epoch_log.specs.Record.{after_ending, base_of, ending};
ghost use Rattle.hashed_strings.specs.Index.{AreNoted};
ghost use Rattle.hashed_strings.specs.Made.{EachTold, Tells, changes_in, decided_at, decided_in, strings_made};
ghost use Rattle.hashed_strings.specs.Named.{AreAll};

use crate::noted::Noted;
use crate::table_strings::strings_told;
use ar_base::Items;
use ar_cert::Change;
use domain_table::{ApplyFault, Table};
use epoch_log::{Ended, How, Record, Voted};
use std::alloc::{AllocError, Global};

// ---- names

/// Puts the names of changes behind the others, each of which is in its ranges. The only error is want of memory.
fn put_names(
    alloc: Global,
    names: &mut Vec<Items<u8>>,
    changes: &[Change],
) -> Result<(), AllocError>
    ensures names { OnOk result
        (names.new.items ≡ names.old.items ++ map (λ c. c.cert.name) changes.now) }
{
    if let [change, rest @ ..] = changes {
        let name = Vec::from_slice(alloc, change.cert.name.text())?;
        names.push(Items::from_vec(name))?;
        put_names(alloc, names, rest)?;
    }
    Ok(())
}

/// Puts the names of what was voted for behind the others. The only error is want of memory.
fn put_voted(alloc: Global, names: &mut Vec<Items<u8>>, voted: &[Voted]) -> Result<(), AllocError>
    ensures { OnOk result (names.new.items ≡ names.old.items ++ flat_map (λ v.
        map (λ c. c.cert.name) v.changes) voted.now) }
{
    if let [vote, rest @ ..] = voted {
        put_names(alloc, names, vote.changes.as_slice())?;
        put_voted(alloc, names, rest)?;
    }
    Ok(())
}

/// The changes of an ending.
fn changes_of(how: &How) -> &[Change]
    ensures { result.now ≡ changes_in how.now }
{
    match how {
        How::Decided { changes, .. } => changes.as_slice(),
        How::Skipped { .. } => &[],
    }
}

/// Puts the names of what was decided behind the others. The only error is want of memory.
fn put_ended(alloc: Global, names: &mut Vec<Items<u8>>, ended: &[Ended]) -> Result<(), AllocError>
    ensures { OnOk result (names.new.items ≡ names.old.items ++ flat_map (λ x.
        map (λ c. c.cert.name) (changes_in x.how)) ended.now) }
{
    if let [epoch, rest @ ..] = ended {
        put_names(alloc, names, changes_of(&epoch.how))?;
        put_ended(alloc, names, rest)?;
    }
    Ok(())
}

// ---- ranges

/// That each field of each change is in its range.
fn told(changes: &[Change])
    ensures { All IsChange changes.now }
{
    for change in changes {
        change.told();
    }
}

/// The same of what was voted for.
fn voted_told(voted: &[Voted])
    ensures { All (λ v. All IsChange v.changes) voted.now }
{
    for vote in voted {
        told(vote.changes.as_slice());
    }
}

/// The same of what was decided.
fn ended_told(ended: &[Ended])
    ensures { All (λ x. All IsChange (changes_in x.how)) ended.now }
{
    for epoch in ended {
        told(changes_of(&epoch.how));
    }
}

// ---- tables

/// Applies a copy of a change at an epoch, and says whether it is taken. The only error is want of memory.
fn apply_one(
    alloc: Global,
    epoch: u64,
    table: &mut Table,
    change: &Change,
) -> Result<bool, AllocError>
    ensures { IfOk result (λ is_taken.
        (if is_taken then Some table.new else None) ≡ apply table.old epoch (change.now ∷ [])) }
{
    match table.apply(alloc, epoch, change.copy(alloc)?) {
        Ok(()) => Ok(true),
        Err((_, ApplyFault::Memory)) => Err(AllocError),
        Err((_, ApplyFault::Change(_))) => Ok(false),
    }
}

/// The table behind an epoch with these changes; none where one is refused. The only error is want of memory.
#[tactic(auto, using(crate::proofs::Bases::apply_steps))]
fn applied(
    alloc: Global,
    epoch: u64,
    table: &Table,
    changes: &[Change],
) -> Result<Option<Table>, AllocError>
    requires sound { IsSound table.now }
    requires are { All IsChange changes.now }
    ensures { IfOk result (λ after. after ≡ apply table.now epoch changes.now) }
{
    let mut after = table.copy(alloc)?;
    for change in changes {
        let is_taken = apply_one(alloc, epoch, &mut after, change)?;
        if !is_taken {
            return Ok(None);
        }
    }
    after.ripen(alloc, epoch)?;
    Ok(Some(after))
}

/// The entry of an epoch.
fn entry_of(ended: &[Ended], epoch: u64) -> Option<&Ended>
    ensures { option_map (λ x. x.now) result ≡ find (λ x. x.epoch == epoch) ended.now }
{
    ended.iter().find(|x| x.epoch == epoch)
}

/// How an epoch ended.
#[tactic(auto, unfolding(epoch_log::specs::Record::ending))]
fn ending(ended: &[Ended], epoch: u64) -> Option<&How>
    ensures { option_map (λ how. how.now) result ≡ ending ended.now epoch }
{
    match entry_of(ended, epoch) {
        Some(x) => Some(&x.how),
        None => None,
    }
}

/// The changes of an epoch, if it was decided.
fn decided(how: &How) -> Option<&[Change]>
    ensures { option_map (λ changes. changes.now) result ≡ decided_in how.now }
{
    match how {
        How::Decided { changes, .. } => Some(changes.as_slice()),
        How::Skipped { .. } => None,
    }
}

/// The changes by which an epoch was decided, if it was.
fn decided_at(ended: &[Ended], epoch: u64) -> Option<&[Change]>
    ensures { option_map (λ changes. changes.now) result ≡ decided_at ended.now epoch }
{
    match ending(ended, epoch) {
        Some(how) => decided(how),
        None => None,
    }
}

/// The table behind an epoch that begins with this one. The only error is want of memory.
#[tactic(auto, using(crate::proofs::Bases::base_steps))]
fn behind(
    alloc: Global,
    ended: &[Ended],
    names: &[Items<u8>],
    epoch: u64,
    table: Table,
) -> Result<Table, AllocError>
    requires sound { IsSound table }
    requires told { EachTold names.now ended.now }
    ensures { IfOk result (λ after. after ≡ after_ending epoch (ending ended.now epoch) table) }
{
    let Some(changes) = decided_at(ended, epoch) else {
        return Ok(table);
    };
    match applied(alloc, epoch, &table, changes)? {
        Some(after) => Ok(after),
        None => Ok(table),
    }
}

/// The table in which an epoch begins. The only error is want of memory.
#[tactic(auto, using(crate::proofs::Bases::base_steps))]
fn base_of(
    alloc: Global,
    ended: &[Ended],
    names: &[Items<u8>],
    epoch: u64,
) -> Result<Table, AllocError>
    requires { EachTold names.now ended.now }
    ensures { IfOk result (λ table. table ≡ base_of ended.now epoch) }
{
    let mut table = Table::new(alloc);
    for before in 0..epoch {
        table = behind(alloc, ended, names, before, table)?;
    }
    Ok(table)
}

// ---- strings

/// Notes the strings of a table, all of whose names these are. The only error is want of memory.
#[tactic(auto, using(crate::proofs::Bases::table_steps))]
fn note_table(
    alloc: Global,
    noted: &mut Noted,
    names: &[Items<u8>],
    table: &Table,
) -> Result<(), AllocError>
    requires { AreAll names.now table.now }
    ensures { OnOk result ((others : List (List ℕ)) → AreNoted noted.old others
        → AreNoted noted.new (table_strings table.now ++ others)) }
{
    let strings = strings_told(alloc, table, names)?;
    noted.note_all(alloc, &strings)?;
    Ok(())
}

/// Notes the strings of the table to which changes lead in an epoch. The only error is want of memory.
#[tactic(auto, using(crate::proofs::Bases::base_steps, crate::proofs::Bases::table_steps))]
fn note_epoch(
    alloc: Global,
    noted: &mut Noted,
    names: &[Items<u8>],
    ended: &[Ended],
    epoch: u64,
    changes: &[Change],
) -> Result<(), AllocError>
    requires ended { EachTold names.now ended.now }
    requires changes { All (Tells names.now) changes.now }
    ensures { OnOk result ((others : List (List ℕ)) → AreNoted noted.old others
        → AreNoted noted.new (strings_made (apply (base_of ended.now epoch) epoch changes.now)
        ++ others)) }
{
    let base = base_of(alloc, ended, names, epoch)?;
    match applied(alloc, epoch, &base, changes)? {
        Some(table) => note_table(alloc, noted, names, &table)?,
        None => (),
    }
    Ok(())
}

/// Notes the strings of the tables that were voted for. The only error is want of memory.
#[tactic(auto, using(crate::proofs::Bases::table_steps))]
fn note_voted(
    alloc: Global,
    noted: &mut Noted,
    names: &[Items<u8>],
    ended: &[Ended],
    voted: &[Voted],
) -> Result<(), AllocError>
    requires ended { EachTold names.now ended.now }
    requires voted { All (λ v. All (Tells names.now) v.changes) voted.now }
    ensures { OnOk result ((others : List (List ℕ)) → AreNoted noted.old others
        → AreNoted noted.new (flat_map table_strings (filter_map (voted_table ended.now) voted.now)
        ++ others)) }
{
    let mut i = voted.len();
    while i > 0 {
        i -= 1;
        let vote = &voted[i];
        note_epoch(
            alloc,
            noted,
            names,
            ended,
            vote.epoch,
            vote.changes.as_slice(),
        )?;
    }
    Ok(())
}

/// Notes the strings of the table of an epoch that ended, if it was decided. The only error is want of memory.
#[tactic(auto, using(crate::proofs::Bases::table_steps))]
fn note_ending(
    alloc: Global,
    noted: &mut Noted,
    names: &[Items<u8>],
    ended: &[Ended],
    epoch: &Ended,
) -> Result<(), AllocError>
    requires ended { EachTold names.now ended.now }
    requires changes { All (Tells names.now) (changes_in epoch.now.how) }
    ensures { OnOk result ((others : List (List ℕ)) → AreNoted noted.old others
        → AreNoted noted.new (strings_made (ended_table ended.now epoch.now.epoch epoch.now.how)
        ++ others)) }
{
    match decided(&epoch.how) {
        Some(changes) => note_epoch(alloc, noted, names, ended, epoch.epoch, changes)?,
        None => (),
    }
    Ok(())
}

/// Notes the strings of the tables that were decided. The only error is want of memory.
#[tactic(auto, using(crate::proofs::Bases::table_steps))]
fn note_ended(
    alloc: Global,
    noted: &mut Noted,
    names: &[Items<u8>],
    ended: &[Ended],
) -> Result<(), AllocError>
    requires { EachTold names.now ended.now }
    ensures { OnOk result ((others : List (List ℕ)) → AreNoted noted.old others
        → AreNoted noted.new
        (flat_map table_strings (filter_map (λ x.
        ended_table ended.now x.epoch x.how) ended.now) ++ others)) }
{
    let mut i = ended.len();
    while i > 0 {
        i -= 1;
        note_ending(alloc, noted, names, ended, &ended[i])?;
    }
    Ok(())
}

impl Noted {
    /// Notes the strings that are hashed for the tables that a log voted for, and for those that it decided. The only error is want
    /// of memory.
    #[tactic(auto, using(crate::proofs::Bases::table_steps, crate::proofs::Telling::tell_steps))]
    pub fn note_log(&mut self, alloc: Global, log: &Record) -> Result<(), AllocError>
        ensures { OnOk result ((others : List (List ℕ)) → AreNoted self.old others
            → AreNoted self.new (flat_map table_strings (log_tables (record_of log.now))
            ++ others)) }
    {
        voted_told(&log.voted);
        ended_told(&log.ended);
        let mut names = Vec::new(alloc);
        put_voted(alloc, &mut names, &log.voted)?;
        put_ended(alloc, &mut names, &log.ended)?;
        note_ended(alloc, self, &names, &log.ended)?;
        note_voted(alloc, self, &names, &log.ended, &log.voted)?;
        Ok(())
    }
}
