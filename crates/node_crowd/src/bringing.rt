ghost use Rattle.std.specs.Prelude.{◌≡◌, ◌++◌, [], ◌∷◌, List, ℕ, IfOk, IfErr, OnOk};
ghost use Rattle.shared_node.specs.Seats.{Answered, IsSeatOf, SeesOn};
ghost use Rattle.node_crowd.specs.Stalls.{HasServed, IsStallOf};

use crate::booth::Booth;
use crate::finish::Finish;
use crate::gate::Gate;
use crate::stall::Stall;
use node_core::Core;
use shared_node::{Seat, Served, SharedNode};
use std::alloc::{AllocError, Global};
use std::sync::Wait;

/// Asks the node for the errand of this number, for which the gate was passed: that alone is why it takes the gate and the number.
fn ask<C: Core, R: Wait, G: Gate>(
    rt: &R,
    alloc: Global,
    gate: &G,
    number: u64,
    node: &SharedNode<C>,
    seat: &mut Seat<C>,
    input: C::Input,
) -> Result<Served<C::Reply>, AllocError>
    requires passed { G.passed gate.now number }
    requires own { IsSeatOf node.now seat.old }
    ensures ok { IfOk result (λ answer.
        Answered C.next C.legal node.now.first seat.old input answer.place answer.reply
        seat.new) }
    ensures noted { IfOk result (λ answer. G.noted gate.now number answer.place) }
    ensures err { IfErr result (λ _. SeesOn seat.old seat.new) }
{
    match node.ask(rt, alloc, seat, input) {
        Ok(answer) => {
            gate.after(number, &answer.place);
            Ok(answer)
        }
        Err((_, error)) => Err(error),
    }
}

/// Brings an errand to a booth behind the gate, and keeps what is finished of the reply, with its place.
pub(crate) fn bring<C: Core, F: Finish<C, T>, T: Drop, R: Wait, G: Gate>(
    rt: &R,
    alloc: Global,
    gate: &G,
    booth: &Booth<C, F>,
    stall: &mut Stall<C, T>,
    number: u64,
    input: C::Input,
) -> Result<(), AllocError>
    requires fits { F.fits booth.now.finish booth.now.node.first }
    requires own { IsStallOf booth.now.node stall.old }
    ensures own { IsStallOf booth.now.node stall.new }
    ensures share { stall.new.seat.share ≡ stall.old.seat.share }
    ensures served { OnOk result ((brought : List C.Input)
        → HasServed C.next booth.now.node (F.finished booth.now.finish) stall.old brought
        → HasServed C.next booth.now.node (F.finished booth.now.finish) stall.new
        (brought ++ input ∷ [])) }
    ensures passed { OnOk result (G.passed gate.now number) }
    ensures noted { OnOk result ((place : ℕ)
        × (stall.new.seat.own ≡ stall.old.seat.own ++ place ∷ [])
        × G.noted gate.now number place) }
{
    stall.told.reserve(1)?;
    gate.before(number);
    let answer = ask(rt, alloc, gate, number, &booth.node, &mut stall.seat, input)?;
    let Served { place, reply } = answer;
    stall
        .told
        .push_reserved((place.number(), booth.finish.finish(reply)));
    Ok(())
}
