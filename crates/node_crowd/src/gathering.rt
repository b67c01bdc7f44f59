ghost use Rattle.std.specs.Prelude.{◌≡◌, ◌+◌, ℕ, OnOk};
ghost use Rattle.std.specs.List.{AllByRecursion, AllZip};
ghost use Rattle.ar_seats.specs.Totals.{total};
ghost use Rattle.node_crowd.specs.Stalls.{IsIdle, IsStallOf, share_at};
ghost use Rattle.node_crowd.specs.Working.{Gathers};

use crate::booth::Booth;
use crate::finish::Finish;
use crate::joining::join_row;
use crate::row::Row;
use crate::stall::Stall;
use node_core::Core;
use std::alloc::AllocError;

/// Joins the rows of all workers into the base, at which nothing was done: it has gathered what they served, and their shares.
pub(crate) fn gather<C: Core, F: Finish<C, T>, T: Drop>(
    booths: &[Booth<C, F>],
    base: &mut [Stall<C, T>],
    rows: Vec<Row<C, T>>,
) -> Result<(), AllocError>
    requires base { AllZip (λ booth stall. IsIdle booth.node stall) booths.now base.old }
    requires rows { AllByRecursion (λ row. AllZip (λ booth stall. IsStallOf booth.node stall)
        booths.now row.stalls.items) rows.items }
    ensures own { OnOk result (AllZip (λ booth stall.
        IsStallOf booth.node stall) booths.now base.new) }
    ensures gathers { OnOk result (Gathers (λ booth.
        booth.node) C.next (λ booth. F.finished booth.finish)
        (λ row. row.stalls.items) booths.now base.new rows.items) }
    ensures shares { OnOk result ((place : ℕ)
        → share_at place base.new ≡ share_at place base.old + total
        (λ row. share_at place row.stalls.items) rows.items) }
{
    for row in rows {
        join_row(booths, base, row)?;
    }
    Ok(())
}
