ghost use Rattle.std.specs.Prelude.{◌≡◌, List, IfOk};
ghost use Rattle.std.specs.List.{AllZip};
ghost use Rattle.ar_seats.specs.Shares.{whole};
ghost use Rattle.node_crowd.specs.Along.{Abreast};
ghost use Rattle.node_crowd.specs.Stalls.{HasGathered};
ghost use Rattle.node_crowd.specs.Working.{IsTaken};

use crate::booth::Booth;
use crate::desk::Taken;
use crate::finish::Finish;
use crate::laying::in_order;
use crate::stall::{Stall, StallOf};
use node_core::Core;
use shared_node::Closed;
use std::alloc::{AllocError, Global};

/// Closes a node by the stall that has the whole share, and puts the replies in the order of the history.
fn close<C: Core, F: Finish<C, T> + Drop, T: Drop>(
    alloc: Global,
    booth: Booth<C, F>,
    stall: Stall<C, T>,
) -> Result<Taken<C, F, T>, AllocError>
    requires gathered { (lists : List (List C.Input))
        × HasGathered C.next booth.node (F.finished booth.finish) stall lists }
    requires all { stall.seat.share ≡ whole }
    ensures finish { IfOk result (λ taken. taken.finish ≡ booth.finish) }
    ensures taken { IfOk result (λ taken.
        (lists : List (List C.Input)) → HasGathered C.next booth.node
        (F.finished booth.finish) stall lists
        → IsTaken C.next C.legal
        (F.finished booth.finish) booth.node.first lists taken.history.items
        (C.state taken.core) taken.replies.items) }
{
    let Booth { node, finish } = booth;
    let StallOf { seat, told } = stall;
    let Closed { core, history } = node.close(seat);
    let replies = in_order(alloc, told)?;
    Ok(Taken {
        core,
        history,
        finish,
        replies,
    })
}

/// Closes each node by the stall at its place.
pub(crate) fn close_all<C: Core, F: Finish<C, T> + Drop, T: Drop>(
    alloc: Global,
    booths: Vec<Booth<C, F>>,
    base: Vec<Stall<C, T>>,
) -> Result<Vec<Taken<C, F, T>>, AllocError>
    requires gathered { AllZip (λ booth stall.
        ((lists : List (List C.Input)) × HasGathered C.next booth.node (F.finished booth.finish)
        stall lists) × (stall.seat.share ≡ whole)) booths.items base.items }
    ensures { IfOk result (λ all.
        Abreast (λ booth stall taken.
        (taken.finish ≡ booth.finish) × ((lists : List (List C.Input))
        → HasGathered C.next booth.node (F.finished booth.finish) stall lists
        → IsTaken C.next C.legal
        (F.finished booth.finish) booth.node.first lists taken.history.items
        (C.state taken.core) taken.replies.items)) booths.items base.items all.items) }
{
    let mut all = Vec::new(alloc);
    let mut rest = booths.into_iter();
    for stall in base {
        let Some(booth) = rest.next() else {
            unreachable!()
        };
        let taken = close(alloc, booth, stall)?;
        all.push(taken)?;
    }
    Ok(all)
}
