//! What a log holds.
ghost use Rattle.std.specs.Prelude.{◌≡◌, ◌<◌, OnOk};
ghost use Rattle.ar_council.specs.Council.{council_of};
ghost use Rattle.domain_table.specs.Tables.{no_table};
ghost use Rattle.epoch_log.specs.Calls.{fresh};
ghost use Rattle.epoch_log.specs.Log.{HasRoomFor, IsLog, parts_of, state_in, untried};
ghost use Rattle.epoch_log.specs.State.{epoch_of};

use crate::{Newest, Record};
use ar_base::Items;
use domain_table::Table;
use key_roll::RollBook;
use party_keys::Directory;
use std::alloc::{AllocError, Global};
use vote_quorum::Value;

/// What is counted of a log: its number, what it says, and its signature; `None` stands for what is the log's own, which was
/// counted without one.
pub(crate) type Counted<V> = (u16, V, Option<Items<u8>>);

/// A ballot that is counted.
pub(crate) type CountedVote = Counted<Value>;

/// A status that is counted.
pub(crate) type CountedStatus = Counted<Option<Value>>;

/// The table in which the current epoch begins, and the one to which the changes of the log's own vote lead from there. That
/// is kept from the vote until the epoch ends, so that a decision for these changes need not try them once more.
#[derive(Drop)]
pub(crate) struct Tables {
    pub(crate) base: Table,
    pub(crate) tried: Option<Table>,
}

/// What a log holds. Where it stands by that is `state_in`, and what it keeps is `IsLog`.
#[derive(Drop)]
pub(crate) struct Parts {
    pub(crate) number: u16,
    pub(crate) directory: Directory,
    pub(crate) past: Record,
    /// The ballots that are counted in the current epoch, logs ascending.
    pub(crate) votes: Vec<CountedVote>,
    /// The statuses that are counted in the current epoch, logs ascending.
    pub(crate) statuses: Vec<CountedStatus>,
    pub(crate) newest: Option<Newest>,
    pub(crate) tables: Tables,
}

/// What a log holds that has done nothing yet.
fn nothing_yet(alloc: Global, number: u16, directory: Directory, leaves: u32) -> Parts
    requires { 0 < leaves }
    ensures parts { parts_of result ≡ record {
      state = fresh number (council_of directory) leaves;
      keys = directory;
    } }
    ensures tables { result.tables ≡ untried no_table }
{
    Parts {
        number,
        directory,
        past: Record {
            seen: Vec::new(alloc),
            signed: RollBook::new(alloc, leaves),
            voted: Vec::new(alloc),
            stated: Vec::new(alloc),
            ended: Vec::new(alloc),
            confirmed: Vec::new(alloc),
        },
        votes: Vec::new(alloc),
        statuses: Vec::new(alloc),
        newest: None,
        tables: Tables {
            base: Table::new(alloc),
            tried: None,
        },
    }
}

impl Parts {
    /// What a log holds that has done nothing yet.
    pub(crate) fn new(alloc: Global, number: u16, directory: Directory, leaves: u32) -> Parts
        requires { 0 < leaves }
        ensures parts { parts_of result
            ≡ record { state = fresh number (council_of directory) leaves; keys = directory } }
        ensures kept { IsLog result }
    {
        nothing_yet(alloc, number, directory, leaves)
    }

    /// Takes memory for so many texts seen and statements signed, and for one entry more of each other list.
    pub(crate) fn reserve(
        &mut self,
        alloc: Global,
        seen: usize,
        signed: usize,
    ) -> Result<(), AllocError>
        ensures same { parts_of self.new ≡ parts_of self.old }
        ensures tables { self.new.tables ≡ self.old.tables }
        ensures room { OnOk result (HasRoomFor seen signed self.new) }
    {
        self.past.reserve(alloc, seen, signed)?;
        self.votes.reserve(1)?;
        self.statuses.reserve(1)
    }

    /// The current epoch.
    pub(crate) fn epoch(&self) -> u64
        requires { IsLog self.now }
        ensures { result ≡ epoch_of (state_in self.now) }
    {
        self.past.ended.len() as u64 + 1
    }
}
