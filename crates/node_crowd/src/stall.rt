ghost use Rattle.std.specs.Prelude.{◌≡◌, ◌↔◌, Err, IfOk, OnErr, OnOk};
ghost use Rattle.ar_seats.specs.declared.split_fault.SplitFault.TheVariants.{Narrow};
ghost use Rattle.shared_node.specs.Seats.{IsSeatOf};
ghost use Rattle.node_crowd.specs.Stalls.{IsIdle, IsJoined, IsSplit};

use node_core::Core;
use shared_node::{SeatOf, SharedNode, SplitFault};
use std::alloc::{AllocError, Global};
use std::marker::Model;

/// A seat of a node, with the place and the finished reply of each of its calls.
pub(crate) type Stall<C, T> = StallOf<
    C,
    <C as Core>::Input,
    <C as Core>::Note,
    <C as Core>::State,
    T,
>;

/// The same by the types of the core, of its inputs, of its notes and of its states, so that it can be moved to a thread.
#[derive(Drop)]
pub(crate) struct StallOf<C, I, N, S, T> {
    pub(crate) seat: SeatOf<C, I, N, S>,
    pub(crate) told: Vec<(u64, T)>,
}

// Clauses see the seat and what was told.
impl<C, I, N, S, T> Model for StallOf<C, I, N, S, T> {
    ghost use Rattle.node_crowd.specs.Stalls.{StallParts};

    ghost Value = { StallParts S I N T };

    ghost view = { λ s. record { seat = s.seat; told = s.told.items } };
}

/// Splits a stall at which nothing was done: the new one has half of its share. It is `Narrow` exactly where the share is 1, and
/// then the stall is as before.
#[tactic(auto, using(crate::proofs::OneLemmas::is_split))]
pub(crate) fn split<C: Core, T>(
    alloc: Global,
    node: &SharedNode<C>,
    stall: &mut Stall<C, T>,
) -> Result<Stall<C, T>, SplitFault>
    requires idle { IsIdle node.now stall.old }
    ensures split { IfOk result (λ given. IsSplit node.now stall.old stall.new given) }
    ensures narrow { result ≡ Err Narrow ↔ (stall.old.seat.share ≡ 1) }
    ensures err { OnErr result (stall.new ≡ stall.old) }
{
    let seat = node.split(alloc, &mut stall.seat)?;
    Ok(StallOf {
        seat,
        told: Vec::new(alloc),
    })
}

/// Takes in another stall of the node, with all that it was told.
pub(crate) fn join<C: Core, T: Drop>(
    node: &SharedNode<C>,
    stall: &mut Stall<C, T>,
    other: Stall<C, T>,
) -> Result<(), AllocError>
    requires own { IsSeatOf node.now stall.old.seat }
    requires other { IsSeatOf node.now other.seat }
    ensures { OnOk result (IsJoined C.next node.now stall.old other stall.new) }
{
    let StallOf { seat, mut told } = other;
    stall.told.append(&mut told)?;
    node.join(&mut stall.seat, seat);
    Ok(())
}
