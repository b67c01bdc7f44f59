ghost use Rattle.std.specs.Prelude.{◌≡◌, IfOk};
ghost use Rattle.ar_seats.specs.Shares.{whole};
ghost use Rattle.node_crowd.specs.Along.{Abreast};
ghost use Rattle.node_crowd.specs.Stalls.{IsIdle};
ghost use Rattle.node_crowd.specs.Working.{IsOpened};

use crate::booth::Booth;
use crate::desk::Desk;
use crate::stall::{Stall, StallOf};
use node_core::Core;
use shared_node::SharedNode;
use std::alloc::{AllocError, Global};

/// A node of a core, and its first stall.
fn open<C: Core, F: Drop, T>(
    alloc: Global,
    desk: Desk<C, F>,
) -> Result<(Booth<C, F>, Stall<C, T>), AllocError>
    ensures first { IfOk result (λ made. made.0.node.first ≡ C.state desk.core) }
    ensures finish { IfOk result (λ made. made.0.finish ≡ desk.finish) }
    ensures idle { IfOk result (λ made. IsIdle made.0.node made.1) }
    ensures share { IfOk result (λ made. made.1.seat.share ≡ whole) }
{
    let Desk { core, finish } = desk;
    let Ok((node, seat)) = SharedNode::new(alloc, core) else {
        return Err(AllocError);
    };
    let booth = Booth { node, finish };
    let told = Vec::new(alloc);
    Ok((booth, StallOf { seat, told }))
}

/// A node of each core, and a row of their first stalls.
pub(crate) fn open_all<C: Core, F: Drop, T: Drop>(
    alloc: Global,
    desks: Vec<Desk<C, F>>,
) -> Result<(Vec<Booth<C, F>>, Vec<Stall<C, T>>), AllocError>
    ensures { IfOk result (λ made. Abreast
        (λ desk booth stall.
        IsOpened C.state desk.core desk.finish booth.node booth.finish stall) desks.items
        made.0.items
        made.1.items) }
{
    let mut booths = Vec::new(alloc);
    let mut base = Vec::new(alloc);
    for desk in desks {
        let opened = open(alloc, desk)?;
        booths.push(opened.0)?;
        base.push(opened.1)?;
    }
    Ok((booths, base))
}
