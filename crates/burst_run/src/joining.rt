//! Logs and authorities come back to their places, with what was brought to them.

ghost use Rattle.std.specs.Prelude.{◌≡◌, map, IfOk, OnOk};
ghost use Rattle.std.specs.List.{AllByRecursion};
ghost use Rattle.station.specs.Kept.{IsStation};
ghost use Rattle.station.specs.Station.{station_told};
ghost use Rattle.burst_run.specs.Laying.{HasPlace, all_back_in, apart_with, back_in, homes_in};

use crate::signer::Signer;
use ar_nodes::{HonestAuthority, HonestLog, Reply};
use ar_statement::Party;
use ar_world::Parties;
use authority_core::Authority;
use log_core::Log;
use node_crowd::Taken;
use owner_check::{Outcome, OwnerCheck};
use station::{Delivery, Station};
use std::alloc::{AllocError, Global};
use std::marker::Model;

/// What was brought to a party, in the order in which it took it, and what it replied.
#[derive(Drop)]
pub(crate) struct Visit {
    /// The party.
    pub(crate) party: Party,
    /// The deliveries that it took, each with the note of the step.
    pub(crate) history: Vec<(Delivery, Option<Outcome>)>,
    /// The reply to each of them.
    pub(crate) replies: Vec<Reply>,
}

// Clauses see the lists, however much room they keep.
impl Model for Visit {
    ghost use Rattle.burst_run.specs.Laying.{VisitParts};

    ghost Value = { VisitParts };

    ghost view = { λ v.
        record { party = v.party; history = v.history.items; replies = v.replies.items } };
}

/// A party comes back to its place.
fn put_back<C: OwnerCheck + Send>(parties: &mut Parties<C>, station: Station<C>, signer: Signer)
    requires kept { IsStation (station_told C.told C.answers station) signer.ring.keys }
    requires place { HasPlace (homes_in parties.old)
        signer.party.number (station_told C.told C.answers station) }
    ensures { homes_in parties.new
        ≡ back_in (homes_in parties.old)
        (apart_with signer (station_told C.told C.answers station)) }
{
    let Signer { party, ring, taken } = signer;
    let place = party.number as usize;
    match station {
        Station::Log(core) => {
            let log = Log::of(core, ring);
            parties.logs[place] = Some(HonestLog { log, taken });
        }
        Station::Authority(core) => {
            let authority = Authority::of(core, ring);
            parties.authorities[place] = Some(HonestAuthority { authority });
        }
    }
}

/// All parties come back to their places, and what was brought to them is told.
pub(crate) fn put_all_back<C: OwnerCheck + Send>(
    alloc: Global,
    parties: &mut Parties<C>,
    all: Vec<Taken<Station<C>, Signer, Reply>>,
) -> Result<Vec<Visit>, AllocError>
    requires kept { AllByRecursion (λ taken.
        IsStation (station_told C.told C.answers taken.core) taken.finish.ring.keys) all.items }
    requires places { AllByRecursion (λ taken. HasPlace
        (homes_in parties.old)
        taken.finish.party.number (station_told C.told C.answers taken.core)) all.items }
    ensures back { OnOk result (homes_in parties.new
        ≡ all_back_in (homes_in parties.old)
        (map (λ taken. apart_with taken.finish (station_told C.told C.answers taken.core))
        all.items)) }
    ensures visits { IfOk result (λ visits. visits.items ≡ map (λ taken.
        record {
          party = taken.finish.party;
          history = taken.history.items;
          replies = taken.replies.items;
        }) all.items) }
{
    let mut visits = Vec::new(alloc);
    for taken in all {
        let Taken {
            core,
            history,
            finish,
            replies,
        } = taken;
        visits.push(Visit {
            party: finish.party,
            history,
            replies,
        })?;
        put_back(parties, core, finish);
    }
    Ok(visits)
}
