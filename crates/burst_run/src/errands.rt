//! Each delivery of a burst as an errand, with a copy of the message.

ghost use Rattle.std.specs.Prelude.{◌≡◌, is_some, position, true, IfOk};
ghost use Rattle.std.specs.List.{AllByRecursion, position_or_len};
ghost use Rattle.ar_statement.specs.Claims.{has_party, is_party};
ghost use Rattle.ar_world.specs.Finding.{message_at};
ghost use Rattle.burst_run.specs.Laying.{brought_for, errand_for, errands_from};

use ar_base::Items;
use ar_statement::Party;
use ar_world::World;
use node_crowd::Errand;
use owner_check::OwnerCheck;
use station::Delivery;
use std::alloc::{AllocError, Global};

/// The place of a party among others.
fn place_of(stations: &[Party], who: Party) -> Option<usize>
    ensures { result ≡ position (is_party who) stations.now }
{
    stations.iter().position(|station| who.is_same(station))
}

/// The place of a party that is among these.
#[tactic(auto, using(crate::proofs::Among::place_laws))]
fn place_among(stations: &[Party], who: Party) -> usize
    requires { has_party stations.now who ≡ true }
    ensures { result ≡ position_or_len (is_party who) stations.now }
{
    let Some(place) = place_of(stations, who) else {
        unreachable!()
    };
    place
}

/// The delivery with this number, of this message.
#[tactic(auto, using(crate::proofs::LayingLemmas::brought_laws))]
fn delivery<C: OwnerCheck>(
    alloc: Global,
    world: &World<C>,
    j: u64,
    message: u64,
) -> Result<Delivery, AllocError>
    requires { is_some (message_at world.now message) ≡ true }
    ensures { IfOk result (λ delivery. delivery ≡ brought_for world.now j message) }
{
    let Some(bytes) = world.message(message) else {
        unreachable!()
    };
    Ok(Delivery {
        j,
        message,
        bytes: Items::from_vec(Vec::from_slice(alloc, bytes)?),
    })
}

/// The delivery with this number as an errand.
fn errand<C: OwnerCheck>(
    alloc: Global,
    world: &World<C>,
    stations: &[Party],
    number: u64,
    message: u64,
    who: Party,
) -> Result<Errand<Delivery>, AllocError>
    requires message { is_some (message_at world.now message) ≡ true }
    requires station { has_party stations.now who ≡ true }
    ensures { IfOk result (λ errand.
        errand ≡ errand_for world.now stations.now number (message, who)) }
{
    let place = place_among(stations, who);
    let input = delivery(alloc, world, number, message)?;
    Ok(Errand {
        number,
        place,
        input,
    })
}

/// Each delivery as an errand to the place of its party among the stations.
#[tactic(auto, using(crate::proofs::LayingLemmas::errand_laws))]
pub(crate) fn errands_of<C: OwnerCheck>(
    alloc: Global,
    world: &World<C>,
    stations: &[Party],
    deliveries: &[(u64, Party)],
) -> Result<Vec<Errand<Delivery>>, AllocError>
    requires messages { AllByRecursion
        (λ d. is_some (message_at world.now d.0) ≡ true) deliveries.now }
    requires stations { AllByRecursion (λ d. has_party stations.now d.1 ≡ true) deliveries.now }
    ensures { IfOk result (λ errands.
        errands.items ≡ errands_from world.now stations.now 0 deliveries.now) }
{
    let mut errands = Vec::new(alloc);
    for (place, (message, who)) in deliveries.iter().enumerate() {
        errands.push(errand(alloc, world, stations, place as u64, *message, *who)?)?;
    }
    Ok(errands)
}
