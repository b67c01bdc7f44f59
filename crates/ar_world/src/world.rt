//! A world between two lines.

ghost use Rattle.std.specs.Prelude.{◌≡◌, length};
ghost use Rattle.std.specs.Option.{option_map};
ghost use Rattle.epoch_log.specs.Log.{record_of};
ghost use Rattle.ar_nodes.specs.Parties.{checks_told};
ghost use Rattle.ar_world.specs.Records.{HasParties, bytes_at, past_at, taken_at};
ghost use Rattle.ar_world.specs.State.{first_world};

use crate::drafted::Drafted;
use crate::phase::Phase;
use ar_founding::{Directories, FirstKeys, Setup};
use ar_nodes::finding::honest;
use ar_nodes::{Forger, HonestAuthority, HonestLog, LogEvent, Pool};
use ar_records::Judged;
use ar_statement::SeenText;
use epoch_log::Record;
use owner_check::OwnerCheck;
use owner_core::Owner;
use party_keys::Directory;
use std::alloc::Global;
use std::marker::Model;

/// All parties and the pool of messages, which the lines of a script move.
///
/// The checks are those of the authorities, in their order; an authority that is there owns its check.
#[derive(Drop)]
pub struct World<C: OwnerCheck> {
    pub(crate) phase: Phase,
    pub(crate) setup: Setup,
    /// The keys of the logs, until these are there.
    pub(crate) log_keys: FirstKeys,
    pub(crate) checks: Vec<C>,
    /// Each log by its number, none where it is dishonest.
    pub(crate) logs: Vec<Option<HonestLog>>,
    /// Each authority by its number, none where it is dishonest.
    pub(crate) authorities: Vec<Option<HonestAuthority<C>>>,
    pub(crate) forgers: Vec<Forger>,
    pub(crate) owners: Vec<Owner>,
    /// None until the authorities are there.
    pub(crate) directories: Option<Directories>,
    /// The Rolls that the clients' directory learnt.
    pub(crate) learned: Vec<SeenText>,
    pub(crate) judged: Vec<Judged>,
    pub(crate) drafts: Vec<Drafted>,
    pub(crate) pool: Pool,
}

// Clauses see the world as plain data.
impl<C: OwnerCheck> Model for World<C> {
    ghost use Rattle.ar_world.specs.Kept.{IsKeptWorld, clients_in, genesis_in};
    ghost use Rattle.ar_nodes.specs.Parties.{checks_told};
    ghost use Rattle.ar_world.specs.State.{World as State};

    ghost Value = { State };

    ghost view = { λ w. record {
      phase = w.phase;
      setup = w.setup;
      checks = checks_told C.told C.answers w.checks.items;
      logs = w.logs.items;
      authorities = w.authorities.items;
      forgers = w.forgers.items;
      owners = w.owners.items;
      genesis = genesis_in w.directories;
      clients = clients_in w.directories;
      learned = w.learned.items;
      judged = w.judged.items;
      drafts = w.drafts.items;
      pool = w.pool.messages;
    } };

    ghost invariant = { λ w. IsKeptWorld w.phase w.setup w.log_keys w.directories w.drafts.items
        w.logs.items };
}

impl<C: OwnerCheck> World<C> {
    /// The world before the first line, with these checks of owners, of which the authority with the number 0 takes the
    /// first. It takes no memory.
    pub fn new(alloc: Global, checks: Vec<C>) -> World<C>
        ensures { result ≡ first_world (checks_told C.told C.answers checks.items) }
    {
        World {
            phase: Phase::Beginning,
            setup: Setup::plain(),
            log_keys: FirstKeys::none(alloc),
            checks,
            logs: Vec::new(alloc),
            authorities: Vec::new(alloc),
            forgers: Vec::new(alloc),
            owners: Vec::new(alloc),
            directories: None,
            learned: Vec::new(alloc),
            judged: Vec::new(alloc),
            drafts: Vec::new(alloc),
            pool: Pool::new(alloc),
        }
    }

    /// How many messages there are.
    pub fn messages(&self) -> u64
        ensures { result ≡ length self.now.pool }
    {
        self.pool.len() as u64
    }

    /// The bytes of a message of the pool, of which the first has the number 1; `None` where there is no such message.
    pub fn message(&self, number: u64) -> Option<&[u8]>
        ensures { option_map (λ bytes. bytes.now) result ≡ bytes_at self.now number }
    {
        let message = self.pool.get(number)?;
        Some(message.bytes.as_slice())
    }

    /// What a log did without refusing, in order; `None` where there is no honest log with this number.
    pub fn taken(&self, log: u16) -> Option<&[LogEvent]>
        ensures { option_map (λ taken. taken.now) result ≡ taken_at self.now log }
    {
        let node = honest(&self.logs, log)?;
        Some(node.taken.as_slice())
    }

    /// What a log remembers; `None` where there is no honest log with this number.
    pub fn record(&self, log: u16) -> Option<&Record>
        ensures { option_map (λ kept. record_of kept.now) result ≡ past_at self.now log }
    {
        let node = honest(&self.logs, log)?;
        Some(node.log.core.record())
    }

    /// What the setup said, of which `make_key` of `ar_founding` makes the first key of a log or an authority again.
    pub fn setup(&self) -> &Setup
        ensures { result.now ≡ self.now.setup }
    {
        &self.setup
    }

    /// The directory of the first keys, with which each party begins.
    pub fn genesis(&self) -> &Directory
        requires { HasParties self.now }
        ensures { result.now ≡ self.now.genesis }
    {
        let Some(known) = &self.directories else {
            unreachable!()
        };
        &known.genesis
    }

    /// The directory that clients know: that of the first keys, with the Rolls that it learnt.
    pub fn clients(&self) -> &Directory
        requires { HasParties self.now }
        ensures { result.now ≡ self.now.clients }
    {
        let Some(known) = &self.directories else {
            unreachable!()
        };
        &known.clients
    }
}
