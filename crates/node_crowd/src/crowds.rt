ghost use Rattle.std.specs.Prelude.{◌≡◌, ◌<◌, ◌≤◌, ℕ, IfErr, IfOk, OnOk, length, map};
ghost use Rattle.std.specs.List.{AllByRecursion, AllZip, range_with_len};
ghost use Rattle.ar_seats.specs.declared.split_fault.SplitFault.TheVariants.{Memory};
ghost use Rattle.seat_orders.specs.Carrying.{inputs_of};
ghost use Rattle.node_crowd.specs.Along.{EachFrom};
ghost use Rattle.node_crowd.specs.Bringing.{AreNumbered, TakesDealt, brought_to, own_of};
ghost use Rattle.node_crowd.specs.Stalls.{CanBeSplit, IsIdle, IsStallOf, share_at};
ghost use Rattle.node_crowd.specs.Working.{IsTaken, RowGathers};

use crate::booth::Booth;
use crate::closing::close_all;
use crate::dealing::deal;
use crate::desk::{Desk, Taken};
use crate::errand::Errand;
use crate::finish::Finish;
use crate::gate::Gate;
use crate::gathering::gather;
use crate::opening::open_all;
use crate::sharing::{lists_of, tasks_of};
use crate::stall::Stall;
use crate::working::work_all;
use node_core::Core;
use shared_node::SplitFault;
use std::alloc::Global;
use std::sync::Wait;
use std::thread::Threads;

/// So many workers bring errands to these booths, whose base, at which nothing was done, then has gathered all of it.
fn bring_all<C: Core, F: Finish<C, T>, T: Send + Drop, R: Threads + Wait + Sync, G: Gate>(
    rt: &R,
    alloc: Global,
    gate: &G,
    nodes: &Vec<Booth<C, F>>,
    base: &mut [Stall<C, T>],
    errands: Vec<Errand<C::Input>>,
    workers: usize,
) -> Result<(), SplitFault>
    requires some { 0 < workers }
    requires fits { AllByRecursion (λ booth. F.fits booth.finish booth.node.first) nodes.now.items }
    requires idle { AllZip (λ booth stall. IsIdle booth.node stall) nodes.now.items base.old }
    requires there { AllByRecursion (λ errand.
        errand.place < length nodes.now.items) errands.items }
    ensures own { OnOk result (AllZip (λ booth stall.
        IsStallOf booth.node stall) nodes.now.items base.new) }
    ensures gathers { OnOk result (RowGathers (λ booth. booth.node) C.next (λ booth.
        F.finished booth.finish) nodes.now.items base.new
        (λ place. map (λ worker.
        brought_to place (own_of workers worker errands.items))
        (range_with_len 0 workers))) }
    ensures shares { OnOk result ((place : ℕ) → share_at place base.new ≡ share_at place base.old) }
    ensures narrow { CanBeSplit workers base.old → IfErr result (λ error. error ≡ Memory) }
{
    let booths = nodes.as_slice();
    let rows = deal(alloc, booths, base, workers)?;
    let lists = lists_of(alloc, errands, workers)?;
    let tasks = tasks_of(alloc, rows, lists)?;
    let worked = work_all(rt, alloc, gate, nodes, tasks)?;
    gather(booths, base, worked)?;
    Ok(())
}

/// The same of a base that is a vector, which comes back.
fn gathered<C: Core, F: Finish<C, T>, T: Send + Drop, R: Threads + Wait + Sync, G: Gate>(
    rt: &R,
    alloc: Global,
    gate: &G,
    nodes: &Vec<Booth<C, F>>,
    base: Vec<Stall<C, T>>,
    errands: Vec<Errand<C::Input>>,
    workers: usize,
) -> Result<Vec<Stall<C, T>>, SplitFault>
    requires some { 0 < workers }
    requires fits { AllByRecursion (λ booth. F.fits booth.finish booth.node.first) nodes.now.items }
    requires idle { AllZip (λ booth stall. IsIdle booth.node stall) nodes.now.items base.items }
    requires there { AllByRecursion (λ errand.
        errand.place < length nodes.now.items) errands.items }
    ensures gathers { IfOk result (λ made.
        RowGathers (λ booth. booth.node) C.next (λ booth. F.finished booth.finish)
        nodes.now.items made.items
        (λ place. map (λ worker.
        brought_to place (own_of workers worker errands.items))
        (range_with_len 0 workers))) }
    ensures shares { IfOk result (λ made.
        (place : ℕ) → share_at place made.items ≡ share_at place base.items) }
    ensures narrow { CanBeSplit workers base.items → IfErr result (λ error. error ≡ Memory) }
{
    let mut made = base;
    bring_all(
        rt,
        alloc,
        gate,
        nodes,
        made.as_mut_slice(),
        errands,
        workers,
    )?;
    Ok(made)
}

/// So many workers bring errands to the cores of these desks: each worker its own, in their order, from a thread of its own where
/// one can be made. What each core then gives back has its history and all replies.
///
/// It is `Narrow` where there are more workers than the share of a node can be split for, which is halved for each: never where
/// they are 32 at most. After an error the cores are gone. It waits for the locks of the nodes, and returns if it gets them.
pub fn crowd<C: Core, F: Finish<C, T> + Drop, T: Send + Drop, R: Threads + Wait + Sync, G: Gate>(
    rt: &R,
    alloc: Global,
    gate: &G,
    desks: Vec<Desk<C, F>>,
    errands: Vec<Errand<C::Input>>,
    workers: usize,
) -> Result<Vec<Taken<C, F, T>>, SplitFault>
    requires some { 0 < workers }
    requires fits { AllByRecursion (λ desk. F.fits desk.finish (C.state desk.core)) desks.items }
    requires there { AllByRecursion (λ errand. errand.place < length desks.items) errands.items }
    ensures finish { IfOk result (λ all.
        map (λ taken. taken.finish) all.items ≡ map (λ desk. desk.finish) desks.items) }
    ensures taken { IfOk result (λ all.
        EachFrom (λ place desk taken. IsTaken C.next C.legal (F.finished desk.finish)
        (C.state desk.core)
        (map (λ worker. brought_to place (own_of workers worker errands.items))
        (range_with_len 0 workers))
        taken.history.items (C.state taken.core) taken.replies.items) 0 desks.items all.items) }
    ensures orders { IfOk result (λ all. (number : C.Input → ℕ) → AreNumbered number 0 errands.items
        → EachFrom (λ place desk taken.
        TakesDealt number workers errands.items place (inputs_of taken.history.items))
        0 desks.items all.items) }
    ensures narrow { workers ≤ 32 → IfErr result (λ error. error ≡ Memory) }
{
    let opened = open_all(alloc, desks)?;
    let (booths, base) = opened;
    let made = gathered(rt, alloc, gate, &booths, base, errands, workers)?;
    let all = close_all(alloc, booths, made)?;
    Ok(all)
}
