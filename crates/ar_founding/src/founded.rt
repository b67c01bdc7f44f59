//! Logs and authorities before they are there: all that takes memory.

ghost use Rattle.std.specs.Prelude.{◌≡◌, ◌+◌, map, IfOk};
ghost use Rattle.ar_base.specs.Gives.{GivesUnless};
ghost use Rattle.ar_statement.specs.declared.party.Role.TheVariants.{Authority, LogServer};
ghost use Rattle.lms_tree.specs.Signature.{lms_signature_len_of};
ghost use Rattle.party_keys.specs.Directory.{directory_of};
ghost use Rattle.std.specs.Result.{result_ok};
ghost use Rattle.ar_nodes.specs.Finding.{named};
ghost use Rattle.ar_founding.specs.FirstKeys.{first_of, first_ring, keys_made, key_for, keys_for};
ghost use Rattle.ar_founding.specs.Founded.{founded_of, founded_with, fresh_cores, fresh_states};
ghost use Rattle.ar_founding.specs.Founding.{fresh_core, fresh_state};
ghost use Rattle.ar_nodes.specs.declared.fault.WorldFault.TheVariants.{Memory};

use crate::directories::Directories;
use crate::first_keys::{FirstKeys, make_first_keys};
use crate::setup::Setup;
use ar_nodes::{AuthorityState, LogCore, WorldFault};
use ar_statement::Role;
use key_roll::KeyRing;
use lms_tree::LmsPublic;
use party_keys::{Directory, is_party_count};
use report_text::Happening;
use std::alloc::{AllocError, Global};
use std::marker::Model;

/// The directories, where each log and each authority begins, the rings of the authorities, and what is told.
#[derive(Drop)]
pub struct Founded {
    /// The directory of the first keys, twice.
    pub directories: Directories,
    /// Where each log begins.
    pub cores: Vec<LogCore>,
    /// Where each authority begins.
    pub states: Vec<AuthorityState>,
    /// The ring of each authority.
    pub rings: Vec<KeyRing>,
    /// What is told.
    pub said: Vec<Happening>,
}

// Clauses see each of these. Clients begin with the same directory.
impl Model for Founded {
    ghost use Rattle.std.specs.Prelude.{◌≡◌};
    ghost use Rattle.ar_founding.specs.Founded.{Founded as Parts};

    ghost Value = { Parts };

    ghost view = { λ f. record {
      genesis = f.directories.genesis;
      cores = f.cores.items;
      states = f.states.items;
      rings = f.rings.items;
      said = f.said.items;
    } };

    ghost invariant = { λ f. f.directories.clients ≡ f.directories.genesis };
}

/// How many bytes a signature of a log or authority has, with the generation in front.
fn signature_len(setup: &Setup) -> u16
    ensures { result ≡ 4 + lms_signature_len_of setup.now.lms setup.now.ots }
{
    12 + setup.ots.signature_len() as u16 + 32 * setup.lms.height() as u16
}

/// Where a log begins. The only error is want of memory.
fn fresh_core(
    alloc: Global,
    setup: &Setup,
    genesis: &Directory,
    number: u16,
) -> Result<LogCore, AllocError>
    ensures { IfOk result (λ core.
        core ≡ fresh_core genesis.now number (key_for setup.now LogServer number)) }
{
    let directory = genesis.copy(alloc)?;
    let len = signature_len(setup) as usize;
    Ok(LogCore::new(alloc, number, directory, setup.lms.leaves(), len))
}

/// Where an authority begins. The only error is want of memory.
fn fresh_state(
    alloc: Global,
    setup: &Setup,
    genesis: &Directory,
    number: u16,
) -> Result<AuthorityState, AllocError>
    ensures { IfOk result (λ state.
        state ≡ fresh_state genesis.now number (key_for setup.now Authority number)) }
{
    let directory = genesis.copy(alloc)?;
    let len = signature_len(setup);
    Ok(AuthorityState::new(alloc, number, directory, setup.lms.leaves(), len))
}

/// Where each log begins. The only error is want of memory.
fn fresh_cores(
    alloc: Global,
    setup: &Setup,
    genesis: &Directory,
) -> Result<Vec<LogCore>, AllocError>
    ensures { IfOk result (λ cores. cores.items ≡ fresh_cores setup.now genesis.now) }
{
    let mut cores = Vec::new(alloc);
    for number in 0..setup.logs {
        cores.push(fresh_core(alloc, setup, genesis, number)?)?;
    }
    Ok(cores)
}

/// Where each of so many authorities begins. The only error is want of memory.
fn fresh_states(
    alloc: Global,
    setup: &Setup,
    genesis: &Directory,
    count: u16,
) -> Result<Vec<AuthorityState>, AllocError>
    ensures { IfOk result (λ states. states.items ≡ fresh_states setup.now genesis.now count) }
{
    let mut states = Vec::new(alloc);
    for number in 0..count {
        states.push(fresh_state(alloc, setup, genesis, number)?)?;
    }
    Ok(states)
}

/// The directory of the first keys, where there may be so many parties.
fn genesis(
    alloc: Global,
    logs: &[LmsPublic],
    authorities: Vec<LmsPublic>,
    quorum: u16,
) -> Result<Directory, WorldFault>
    ensures { GivesUnless Memory (λ genesis.
        genesis) result (named 1 (result_ok (directory_of logs.now authorities.items quorum))) }
{
    let logs = Vec::from_slice(alloc, logs)?;
    match Directory::new(logs, authorities, quorum as usize) {
        Ok(genesis) => Ok(genesis),
        Err(_) => Err(WorldFault::Absent(1)),
    }
}

/// All that begins with this directory. The only error is want of memory.
fn found_with(
    alloc: Global,
    setup: &Setup,
    count: u16,
    genesis: Directory,
    rings: Vec<KeyRing>,
    said: Vec<Happening>,
) -> Result<Founded, AllocError>
    requires rings { rings.items ≡ map first_ring (keys_for setup.now Authority count) }
    requires said { said.items ≡ keys_made setup.now Authority count }
    ensures { IfOk result (λ founded. founded ≡ founded_with setup.now count genesis) }
{
    let cores = fresh_cores(alloc, setup, &genesis)?;
    let states = fresh_states(alloc, setup, &genesis, count)?;
    let clients = genesis.copy(alloc)?;
    Ok(Founded {
        directories: Directories { genesis, clients },
        cores,
        states,
        rings,
        said,
    })
}

/// Where the logs begin, whose first keys these are, and so many authorities, whose keys are made.
#[tactic(auto, using(crate::proofs::FirstParties::few_parties))]
pub fn found(
    alloc: Global,
    setup: &Setup,
    logs: &FirstKeys,
    count: u16,
) -> Result<Founded, WorldFault>
    requires { logs.now ≡ first_of (keys_for setup.now LogServer setup.now.logs) }
    ensures { GivesUnless Memory (λ founded. founded) result (founded_of setup.now count) }
{
    if !is_party_count(count as usize) {
        return Err(WorldFault::Absent(1));
    }
    let (keys, said) = make_first_keys(alloc, setup, Role::Authority, count)?;
    let FirstKeys { rings, publics } = keys;
    let genesis = genesis(alloc, &logs.publics, publics, setup.quorum)?;
    let founded = found_with(alloc, setup, count, genesis, rings, said)?;
    Ok(founded)
}
