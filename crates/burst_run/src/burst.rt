ghost use Rattle.std.specs.Prelude.{◌≡◌, ◌<◌, ◌≤◌, List, length, map, is_some, true, None, Err, IfOk};
ghost use Rattle.std.specs.List.{AllByRecursion, range_with_len};
ghost use Rattle.ar_statement.specs.declared.party.Party.{Party as Whom};
ghost use Rattle.ar_world.specs.Finding.{message_at};
ghost use Rattle.node_crowd.specs.Along.{EachFrom};
ghost use Rattle.node_crowd.specs.Bringing.{AreNumbered, TakesDealt, brought_to, own_of};
ghost use Rattle.node_crowd.specs.Working.{IsTaken};
ghost use Rattle.seat_orders.specs.Carrying.{inputs_of};
ghost use Rattle.station.specs.Kept.{IsStation, signed_reply};
ghost use Rattle.station.specs.Station.{IsNoted, replied_at, station_told};
ghost use Rattle.burst_run.specs.Bursts.{AreOrders, IsDeliverable, Sequence, burst_made, may_join, station_at};
ghost use Rattle.burst_run.specs.Laying.{is_in, homes_in};
ghost use Rattle.burst_run.specs.Stations.{Deliveries};
ghost use Rattle.burst_run.specs.Visiting.{AreVisits};

use crate::errands::errands_of;
use crate::joining::{Visit, put_all_back};
use crate::parting::desks_of;
use crate::settling::settle_all;
use crate::signer::Signer;
use crate::stations::stations_of;
use ar_base::Items;
use ar_nodes::{Reply, WorldFault};
use ar_statement::{Party, Role};
use ar_world::{Parties, World};
use node_crowd::{Desk, Errand, Gate, Taken, crowd};
use owner_check::OwnerCheck;
use report_text::Happening;
use station::{Delivery, Station};
use std::alloc::{AllocError, Global};
use std::sync::Wait;
use std::thread::Threads;

/// How many deliveries a burst may have.
pub const MOST_IN_BURST: usize = 64;

/// Whether a delivery may join a burst that has these already, or why not: `Absent(1)` where there is no such message, `Absent(2)` where
/// the party is no honest log or authority, and `Limit` where the pool, or the burst, has no room.
pub fn may_join<C: OwnerCheck>(
    world: &World<C>,
    deliveries: &[(u64, Party)],
    message: u64,
    who: Party,
) -> Result<(), WorldFault>
    ensures { result ≡ may_join world.now deliveries.now message who }
{
    match who.role {
        Role::LogServer | Role::Authority => world.can_deliver(message, who)?,
        Role::Owner | Role::Client => return Err(no_station(world, message)),
    }
    if deliveries.len() >= MOST_IN_BURST {
        return Err(WorldFault::Limit);
    }
    Ok(())
}

/// Why a message does not go to a party in a burst that is no log or authority.
fn no_station<C: OwnerCheck>(world: &World<C>, message: u64) -> WorldFault
    ensures { (deliveries : Deliveries) (who : Whom) → station_at world.now who ≡ None
        → may_join world.now deliveries message who ≡ Err result }
{
    match world.message(message) {
        Some(_) => WorldFault::Absent(2),
        None => WorldFault::Absent(1),
    }
}

/// The workers bring all errands to these desks.
fn bring<C: OwnerCheck + Send, R: Threads + Wait + Sync, G: Gate>(
    rt: &R,
    alloc: Global,
    gate: &G,
    desks: Vec<Desk<Station<C>, Signer>>,
    errands: Vec<Errand<Delivery>>,
    workers: u16,
) -> Result<Vec<Taken<Station<C>, Signer, Reply>>, AllocError>
    requires some { 0 < workers }
    requires kept { AllByRecursion (λ desk.
        IsStation (station_told C.told C.answers desk.core) desk.finish.ring.keys) desks.items }
    requires there { AllByRecursion (λ errand. errand.place < length desks.items) errands.items }
    ensures finish { IfOk result (λ all.
        map (λ taken. taken.finish) all.items ≡ map (λ desk. desk.finish) desks.items) }
    ensures taken { IfOk result (λ all. EachFrom (λ place desk taken.
        IsTaken replied_at IsNoted (signed_reply desk.finish.ring.keys)
        (station_told C.told C.answers desk.core)
        (map (λ worker. brought_to place (own_of workers worker errands.items))
        (range_with_len 0 workers))
        taken.history.items (station_told C.told C.answers taken.core)
        taken.replies.items) 0 desks.items all.items) }
    ensures orders { IfOk result (λ all. AreNumbered (λ input. input.j) 0 errands.items
        → EachFrom (λ place desk taken. TakesDealt (λ input. input.j) workers errands.items place
        (inputs_of taken.history.items)) 0 desks.items all.items) }
{
    match crowd(rt, alloc, gate, desks, errands, workers as usize) {
        Ok(all) => Ok(all),
        Err(_) => Err(AllocError),
    }
}

/// The workers bring the deliveries to the parties of a world, which come back to their places.
fn visit_all<C: OwnerCheck + Send, R: Threads + Wait + Sync, G: Gate>(
    rt: &R,
    alloc: Global,
    gate: &G,
    world: &World<C>,
    parties: &mut Parties<C>,
    deliveries: &[(u64, Party)],
    workers: u16,
) -> Result<Vec<Visit>, AllocError>
    requires some { 0 < workers }
    requires messages { AllByRecursion
        (λ d. is_some (message_at world.now d.0) ≡ true) deliveries.now }
    requires parties { AllByRecursion (λ d. is_in (homes_in parties.old)
        d.1.role d.1.number ≡ true) deliveries.now }
    ensures { IfOk result (λ visits. AreVisits world.now workers deliveries.now
        (homes_in parties.old)
        (homes_in parties.new) visits.items) }
{
    let stations = stations_of(alloc, deliveries)?;
    let errands = errands_of(alloc, world, &stations, deliveries)?;
    let desks = desks_of(alloc, parties, &stations)?;
    let all = bring(rt, alloc, gate, desks, errands, workers)?;
    let visits = put_all_back(alloc, parties, all)?;
    Ok(visits)
}

/// So many workers bring the deliveries of a burst, each from a thread of its own where one can be made: the world behind the burst, and
/// what happens, with the orders in which the parties took their deliveries.
///
/// Worker w has the deliveries whose number, from 0, has w as its remainder by the number of workers, and brings them in their order. The
/// one error is want of memory, which ends the burst and gives the world up. It waits for the locks of the parties, and returns if it gets
/// them.
pub fn run_burst<C: OwnerCheck + Send, R: Threads + Wait + Sync, G: Gate>(
    rt: &R,
    alloc: Global,
    gate: &G,
    world: World<C>,
    deliveries: &[(u64, Party)],
    workers: u16,
) -> Result<(World<C>, Items<Happening>), AllocError>
    requires workers { (0 < workers) × (workers ≤ 16) }
    requires there { AllByRecursion (IsDeliverable world) deliveries.now }
    ensures { IfOk result (λ made. (orders : List Sequence)
        × AreOrders workers deliveries.now orders
        × (burst_made deliveries.now world orders ≡ (made.0, made.1))) }
{
    let (rest, mut parties) = world.part(alloc);
    let visits = visit_all(rt, alloc, gate, &rest, &mut parties, deliveries, workers)?;
    let mut world = rest.join(parties);
    let said = settle_all(alloc, &mut world, visits)?;
    Ok((world, said))
}
