//! What honest parties and clients hold, of which the theorem speaks.

ghost use Rattle.std.specs.Prelude.{◌≡◌, ◌++◌, ◌∷◌, [], IfOk, OnOk, map};
ghost use Rattle.std.specs.List.{filter_map};
ghost use Rattle.std.specs.Option.{option_map};
ghost use Rattle.epoch_log.specs.Log.{record_of};
ghost use Rattle.ar_records.specs.Records.{held_by};

use crate::judged::Judged;
use ar_nodes::{Forger, HonestAuthority, HonestLog};
use ar_statement::{Party, SeenText};
use authority_core::AuthorityRecord;
use epoch_log::Record;
use owner_check::OwnerCheck;
use party_keys::Directory;
use std::alloc::{AllocError, Global};
use std::marker::Model;

/// What honest parties and clients hold: all of which the safety theorem speaks.
#[derive(Drop)]
pub struct Records<'a> {
    /// The clients' directory.
    pub directory: &'a Directory,
    /// The dishonest logs and authorities, in the order in which they became so.
    pub dishonest: Vec<Party>,
    /// What each honest log remembers, ascending by its number.
    pub logs: Vec<&'a Record>,
    /// What each honest authority remembers, ascending by its number.
    pub authorities: Vec<&'a AuthorityRecord>,
    /// What clients accepted, or by which they hold that a name has no certificate.
    pub judged: &'a [Judged],
    /// The Rolls that the clients' directory learnt, each with its party.
    pub learned: &'a [SeenText],
}

// Clauses see the records.
impl<'a> Model for Records<'a> {
    ghost use Rattle.std.specs.Prelude.{map};
    ghost use Rattle.ar_safety.specs.Held.{Held};
    ghost use Rattle.epoch_log.specs.Log.{record_of};

    ghost Value = { Held };

    ghost view = { λ r. record {
      directory = r.directory.now;
      dishonest = r.dishonest.items;
      logs = map (λ log. record_of log.now) r.logs.items;
      authorities = map (λ authority. authority.now) r.authorities.items;
      judged = r.judged.now;
      learned = r.learned.now;
    } };
}

// ---- each list of records

/// The dishonest parties. The only error is want of memory.
fn dishonest_parties(alloc: Global, forgers: &[Forger]) -> Result<Vec<Party>, AllocError>
    ensures { IfOk result (λ parties. parties.items ≡ map (λ forger. forger.party) forgers.now) }
{
    let mut parties = Vec::with_capacity(alloc, forgers.len())?;
    for forger in forgers {
        parties.push(forger.party)?;
    }
    Ok(parties)
}

/// Puts the record of a log behind others, where it is honest. The only error is want of memory.
fn put_log<'a>(records: &mut Vec<&'a Record>, node: &'a Option<HonestLog>) -> Result<(), AllocError>
    ensures { OnOk result (map (λ log. record_of log.now) records.new.items
        ≡ map (λ log. record_of log.now) records.old.items ++ filter_map (λ node.
        option_map (λ n. n.core.log.past) node) (node.now ∷ [])) }
{
    if let Some(node) = node {
        records.push(node.log.core.record())?;
    }
    Ok(())
}

/// The records of the honest logs. The only error is want of memory.
fn log_records(alloc: Global, logs: &[Option<HonestLog>]) -> Result<Vec<&Record>, AllocError>
    ensures { IfOk result (λ records. map (λ log. record_of log.now) records.items
        ≡ filter_map (λ node. option_map (λ n. n.core.log.past) node) logs.now) }
{
    let mut records = Vec::with_capacity(alloc, logs.len())?;
    for node in logs {
        put_log(&mut records, node)?;
    }
    Ok(records)
}

/// Puts the record of an authority behind others, where it is honest. The only error is want of memory.
fn put_authority<'a, C: OwnerCheck>(
    records: &mut Vec<&'a AuthorityRecord>,
    node: &'a Option<HonestAuthority<C>>,
) -> Result<(), AllocError>
    ensures { OnOk result (map (λ authority. authority.now) records.new.items
        ≡ map (λ authority. authority.now) records.old.items ++ filter_map (λ node.
        option_map (λ n. n.state.past) node) (node.now ∷ [])) }
{
    if let Some(node) = node {
        records.push(node.authority.core.state.record())?;
    }
    Ok(())
}

/// The records of the honest authorities. The only error is want of memory.
fn authority_records<C: OwnerCheck>(
    alloc: Global,
    authorities: &[Option<HonestAuthority<C>>],
) -> Result<Vec<&AuthorityRecord>, AllocError>
    ensures { IfOk result (λ records. map (λ authority. authority.now) records.items
        ≡ filter_map (λ node. option_map (λ n. n.state.past) node) authorities.now) }
{
    let mut records = Vec::with_capacity(alloc, authorities.len())?;
    for node in authorities {
        put_authority(&mut records, node)?;
    }
    Ok(records)
}

impl<'a> Records<'a> {
    /// The records of these honest logs and authorities, and all that clients accepted and learnt, as they stand: under the
    /// clients' directory, with the dishonest parties in the order in which they became so. The only error is want of memory.
    pub fn of<C: OwnerCheck>(
        alloc: Global,
        directory: &'a Directory,
        forgers: &[Forger],
        logs: &'a [Option<HonestLog>],
        authorities: &'a [Option<HonestAuthority<C>>],
        judged: &'a [Judged],
        learned: &'a [SeenText],
    ) -> Result<Records<'a>, AllocError>
        ensures { IfOk result (λ records.
            records ≡ held_by directory.now forgers.now logs.now authorities.now judged.now
            learned.now) }
    {
        Ok(Records {
            directory,
            dishonest: dishonest_parties(alloc, forgers)?,
            logs: log_records(alloc, logs)?,
            authorities: authority_records(alloc, authorities)?,
            judged,
            learned,
        })
    }
}
