ghost use Rattle.std.specs.Prelude.{◌≡◌};
ghost use Rattle.std.specs.Option.{option_map};
ghost use Rattle.ar_nodes.specs.Parties.{check_told};
ghost use Rattle.station.specs.Kept.{IsStation};
ghost use Rattle.station.specs.Station.{a_log, an_authority, station_told};

use crate::delivery::Delivery;
use crate::state::StationState;
use crate::taking::{authority_takes, log_takes};
use ar_bytes::are_bytes;
use ar_message::Unsigned;
use authority_core::{Authority, AuthorityCore};
use key_roll::KeyRing;
use log_core::{Log, LogCore};
use node_core::Core;
use owner_check::{Outcome, OwnerCheck};
use report_text::Code;
use std::alloc::{AllocError, Global};

/// A log or an authority without its keys, as it stands under a lock.
#[derive(Drop)]
pub enum Station<C: OwnerCheck> {
    /// A log.
    Log(LogCore),
    /// An authority, with the check that it asks until it retires.
    Authority(AuthorityCore<C>),
}

impl<C: OwnerCheck> Station<C> {
    /// The station of a log, and the keys that sign what it replies. It takes no memory.
    pub fn of_log(log: Log) -> (Station<C>, KeyRing)
        ensures station { station_told C.told C.answers result.0 ≡ a_log log.core }
        ensures ring { result.1 ≡ log.ring }
        ensures kept { IsStation (station_told C.told C.answers result.0) result.1.keys }
    {
        let (core, ring) = log.split();
        core.told();
        (Station::Log(core), ring)
    }

    /// The station of an authority, and the keys that sign what it replies. It takes no memory.
    pub fn of_authority(authority: Authority<C>) -> (Station<C>, KeyRing)
        ensures station { station_told C.told C.answers result.0
            ≡ an_authority authority.core.state
            (option_map (check_told C.told C.answers) authority.core.check) }
        ensures ring { result.1 ≡ authority.ring }
        ensures kept { IsStation (station_told C.told C.answers result.0) result.1.keys }
    {
        let (core, ring) = authority.split();
        core.state.told();
        (Station::Authority(core), ring)
    }
}

impl<C: OwnerCheck + Send> Core for Station<C> {
    type Input = Delivery;

    type Note = Option<Outcome>;

    type Reply = Result<Unsigned, Code>;

    type State = StationState;

    ghost use Rattle.station.specs.Station.{IsNoted, replied_at, station_told};

    ghost state = { station_told C.told C.answers };

    ghost next = { replied_at };

    ghost legal = { IsNoted };

    fn step(
        &mut self,
        alloc: Global,
        input: &Delivery,
    ) -> Result<(Result<Unsigned, Code>, Option<Outcome>), AllocError> {
        let bytes = input.bytes.as_slice();
        are_bytes(bytes);
        match self {
            Station::Log(core) => {
                let reply = log_takes(core, alloc, bytes)?;
                Ok((reply, None))
            }
            Station::Authority(core) => authority_takes(core, alloc, bytes),
        }
    }
}
