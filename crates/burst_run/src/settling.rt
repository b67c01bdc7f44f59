//! What parties replied is settled, party by party, and told.

ghost use Rattle.std.specs.Prelude.{◌≡◌, [], ◌∷◌, length, map, IfOk, OnOk, is_some, true};
ghost use Rattle.std.specs.List.{AllByRecursion};
ghost use Rattle.ar_world.specs.Finding.{message_at};
ghost use Rattle.ar_world.specs.State.{printing};
ghost use Rattle.burst_run.specs.Laying.{each_settled, visits_settled};

use crate::joining::Visit;
use ar_base::Items;
use ar_nodes::Reply;
use ar_statement::Party;
use ar_world::World;
use owner_check::{Outcome, OwnerCheck};
use report_text::Happening;
use station::Delivery;
use std::alloc::{AllocError, Global};

/// The order in which a party took its deliveries.
fn order_of(
    alloc: Global,
    history: &[(Delivery, Option<Outcome>)],
) -> Result<Items<u64>, AllocError>
    ensures { IfOk result (λ taken. taken ≡ map (λ call. call.0.j) history.now) }
{
    let mut taken = Vec::new(alloc);
    for call in history {
        taken.push(call.0.j)?;
    }
    Ok(Items::from_vec(taken))
}

/// Each reply of a party is settled, in the order in which it took the deliveries, and what happens comes behind what is told.
fn settle_each<C: OwnerCheck>(
    alloc: Global,
    world: &mut World<C>,
    said: &mut Vec<Happening>,
    party: Party,
    history: Vec<(Delivery, Option<Outcome>)>,
    replies: Vec<Reply>,
) -> Result<(), AllocError>
    requires many { length replies.items ≡ length history.items }
    requires there { AllByRecursion
        (λ call. is_some (message_at world.old call.0.message) ≡ true) history.items }
    ensures { OnOk result ((world.new, said.new.items)
        ≡ printing said.old.items (each_settled world.old party history.items replies.items)) }
{
    let mut rest = replies.into_iter();
    for (delivery, _) in history {
        let Some(reply) = rest.next() else {
            unreachable!()
        };
        let more = world.settle(alloc, delivery.message, party, reply)?;
        said.append(&mut more.into_vec())?;
    }
    Ok(())
}

/// The order of a party is told, and its replies are settled.
fn settle_visit<C: OwnerCheck>(
    alloc: Global,
    world: &mut World<C>,
    said: &mut Vec<Happening>,
    visit: Visit,
) -> Result<(), AllocError>
    requires many { length visit.replies ≡ length visit.history }
    requires there { AllByRecursion
        (λ call. is_some (message_at world.old call.0.message) ≡ true) visit.history }
    ensures { OnOk result ((world.new, said.new.items)
        ≡ printing said.old.items (visits_settled world.old (visit ∷ []))) }
{
    let Visit {
        party,
        history,
        replies,
    } = visit;
    let taken = order_of(alloc, &history)?;
    said.push(Happening::Order { party, taken })?;
    settle_each(alloc, world, said, party, history, replies)
}

/// What the parties replied is settled, party by party, and what happens is told.
pub(crate) fn settle_all<C: OwnerCheck>(
    alloc: Global,
    world: &mut World<C>,
    visits: Vec<Visit>,
) -> Result<Items<Happening>, AllocError>
    requires many { AllByRecursion
        (λ visit. length visit.replies ≡ length visit.history) visits.items }
    requires there { AllByRecursion (λ visit. AllByRecursion
        (λ call. is_some (message_at world.old call.0.message) ≡ true) visit.history) visits.items }
    ensures { IfOk result (λ said. (world.new, said) ≡ visits_settled world.old visits.items) }
{
    let mut said = Vec::new(alloc);
    for visit in visits {
        settle_visit(alloc, world, &mut said, visit)?;
    }
    Ok(Items::from_vec(said))
}
