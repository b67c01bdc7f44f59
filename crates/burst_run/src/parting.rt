//! Logs and authorities are taken out of their places, and their stations stand apart from their keys.

ghost use Rattle.std.specs.Prelude.{◌≡◌, [], is_some, true, map, None, IfOk, OnOk, slice_set};
ghost use Rattle.std.specs.List.{AllByRecursion};
ghost use Rattle.ar_nodes.specs.Finding.{honest_in};
ghost use Rattle.ar_statement.specs.declared.party.Role.TheVariants as roles;
ghost use Rattle.station.specs.Kept.{IsStation};
ghost use Rattle.station.specs.Station.{station_told};
ghost use Rattle.burst_run.specs.Laying.{CanLeave, AreAway, StandsIn, StandsSo, apart_with, is_in, left_by, left_by_all, homes_in};

use crate::signer::Signer;
use ar_nodes::{HonestAuthority, HonestLog};
use ar_statement::{Party, Role};
use ar_world::Parties;
use node_crowd::Desk;
use owner_check::OwnerCheck;
use station::Station;
use std::alloc::{AllocError, Global};

/// The desk of a log that is honest, which leaves its place.
#[tactic(auto, using(ar_nodes::proofs::Spots::spots))]
fn log_desk<C: OwnerCheck + Send>(
    logs: &mut [Option<HonestLog>],
    party: Party,
) -> Desk<Station<C>, Signer>
    requires role { party.role ≡ roles.LogServer }
    requires there { is_some (honest_in logs.old party.number) ≡ true }
    ensures stands { StandsIn (record { logs = logs.old; authorities = [] })
        roles.LogServer party.number
        (apart_with result.finish (station_told C.told C.answers result.core)) }
    ensures kept { IsStation (station_told C.told C.answers result.core) result.finish.ring.keys }
    ensures left { logs.new ≡ slice_set logs.old party.number None }
{
    let Some(node) = logs[party.number as usize].take() else {
        unreachable!()
    };
    let HonestLog { log, taken } = node;
    let (core, ring) = Station::of_log(log);
    Desk {
        core,
        finish: Signer { party, ring, taken },
    }
}

/// The desk of an authority that is honest, which leaves its place.
#[tactic(auto, using(ar_nodes::proofs::Spots::spots))]
fn authority_desk<C: OwnerCheck + Send>(
    alloc: Global,
    authorities: &mut [Option<HonestAuthority<C>>],
    party: Party,
) -> Desk<Station<C>, Signer>
    requires role { party.role ≡ roles.Authority }
    requires there { is_some (honest_in authorities.old party.number) ≡ true }
    ensures stands { StandsIn (record { logs = []; authorities = authorities.old })
        roles.Authority party.number
        (apart_with result.finish (station_told C.told C.answers result.core)) }
    ensures kept { IsStation (station_told C.told C.answers result.core) result.finish.ring.keys }
    ensures left { authorities.new ≡ slice_set authorities.old party.number None }
{
    let Some(node) = authorities[party.number as usize].take() else {
        unreachable!()
    };
    let (core, ring) = Station::of_authority(node.authority);
    Desk {
        core,
        finish: Signer {
            party,
            ring,
            taken: Vec::new(alloc),
        },
    }
}

/// The desk of a log or authority that is honest, which leaves its place.
fn desk<C: OwnerCheck + Send>(
    alloc: Global,
    parties: &mut Parties<C>,
    party: Party,
) -> Desk<Station<C>, Signer>
    requires { is_in (homes_in parties.old)
        party.role party.number ≡ true }
    ensures stands { StandsSo (homes_in parties.old)
        party (apart_with result.finish (station_told C.told C.answers result.core)) }
    ensures kept { IsStation (station_told C.told C.answers result.core) result.finish.ring.keys }
    ensures left { homes_in parties.new
        ≡ left_by (homes_in parties.old) party }
{
    match party.role {
        Role::LogServer => log_desk(&mut parties.logs, party),
        Role::Authority => authority_desk(alloc, &mut parties.authorities, party),
        Role::Owner | Role::Client => unreachable!(),
    }
}

/// The desks of these parties, which leave their places.
#[tactic(auto, using(crate::proofs::PartingLemmas::leaving_laws))]
pub(crate) fn desks_of<C: OwnerCheck + Send>(
    alloc: Global,
    parties: &mut Parties<C>,
    stations: &[Party],
) -> Result<Vec<Desk<Station<C>, Signer>>, AllocError>
    requires { CanLeave (homes_in parties.old)
        stations.now }
    ensures stand { IfOk result (λ desks. AreAway
        (homes_in parties.old) stations.now
        (map (λ desk. apart_with desk.finish (station_told C.told C.answers desk.core))
        desks.items)) }
    ensures kept { IfOk result (λ desks. AllByRecursion (λ desk.
        IsStation (station_told C.told C.answers desk.core) desk.finish.ring.keys) desks.items) }
    ensures left { OnOk result (homes_in parties.new
        ≡ left_by_all (homes_in parties.old) stations.now) }
{
    let mut desks = Vec::new(alloc);
    for station in stations {
        desks.push(desk(alloc, parties, *station))?;
    }
    Ok(desks)
}
