ghost use Rattle.std.specs.Prelude.{◌≡◌, ℕ, OnOk};
ghost use Rattle.std.specs.List.{AllByRecursion};
ghost use Rattle.node_crowd.specs.Bringing.{brought_to};
ghost use Rattle.node_crowd.specs.Stalls.{share_at};
ghost use Rattle.node_crowd.specs.Working.{IsReady, RowServes};

use crate::booth::Booth;
use crate::bringing::bring;
use crate::errand::Errand;
use crate::finish::Finish;
use crate::gate::Gate;
use crate::stall::Stall;
use node_core::Core;
use std::alloc::{AllocError, Global};
use std::sync::Wait;

/// Brings the errands of a worker in their order, each to its node, from a row at which nothing was done.
pub(crate) fn serve<C: Core, F: Finish<C, T>, T: Drop, R: Wait, G: Gate>(
    rt: &R,
    alloc: Global,
    gate: &G,
    booths: &[Booth<C, F>],
    row: &mut [Stall<C, T>],
    errands: Vec<Errand<C::Input>>,
) -> Result<(), AllocError>
    requires fits { AllByRecursion (λ booth. F.fits booth.finish booth.node.first) booths.now }
    requires ready { IsReady (λ booth. booth.node) booths.now row.old errands.items }
    ensures served { OnOk result (RowServes (λ booth.
        booth.node) C.next (λ booth. F.finished booth.finish) booths.now row.new
        (λ place. brought_to place errands.items)) }
    ensures shares { OnOk result ((place : ℕ) → share_at place row.new ≡ share_at place row.old) }
{
    for errand in errands {
        let Errand {
            number,
            place,
            input,
        } = errand;
        bring(
            rt,
            alloc,
            gate,
            &booths[place],
            &mut row[place],
            number,
            input,
        )?;
    }
    Ok(())
}
