ghost use Rattle.std.specs.Prelude.{◌≡◌, ◌+◌, ℕ, IfErr, IfOk, OnOk, length};
ghost use Rattle.std.specs.List.{AllByRecursion, AllZip};
ghost use Rattle.ar_seats.specs.Totals.{total};
ghost use Rattle.ar_seats.specs.declared.split_fault.SplitFault.TheVariants.{Memory};
ghost use Rattle.node_crowd.specs.Along.{Along};
ghost use Rattle.node_crowd.specs.Stalls.{CanBeSplit, IsIdle, IsSplit, share_at};

use crate::booth::Booth;
use crate::row::Row;
use crate::stall::{Stall, split};
use node_core::Core;
use shared_node::SplitFault;
use std::alloc::Global;

/// Deals a row: a stall at each node, each split from that of the base. It is `Narrow` where the share of one of these is 1.
fn deal_row<C: Core, F, T: Drop>(
    alloc: Global,
    booths: &[Booth<C, F>],
    base: &mut [Stall<C, T>],
) -> Result<Row<C, T>, SplitFault>
    requires { AllZip (λ booth stall. IsIdle booth.node stall) booths.now base.old }
    ensures split { IfOk result (λ row.
        Along (λ booth old new given.
        IsSplit booth.node old new given) booths.now base.old base.new row.stalls.items) }
    ensures narrow { CanBeSplit 1 base.old → IfErr result (λ error. error ≡ Memory) }
{
    let mut stalls = Vec::new(alloc);
    for place in 0..booths.len() {
        let given = split(alloc, &booths[place].node, &mut base[place])?;
        stalls.reserve(1)?;
        stalls.push_reserved(given);
    }
    Ok(Row { stalls })
}

/// Deals a row to each worker. The shares of all rows and of what is left in the base are together what the base had, at each node.
///
/// It is `Narrow` where the base's share at a node is too small to be split once more: a share is halved for each worker. After an
/// error the seats that were dealt are gone, with their shares, so that the nodes cannot be closed any more.
pub fn deal<C: Core, F, T: Drop>(
    alloc: Global,
    booths: &[Booth<C, F>],
    base: &mut [Stall<C, T>],
    workers: usize,
) -> Result<Vec<Row<C, T>>, SplitFault>
    requires idle { AllZip (λ booth stall. IsIdle booth.node stall) booths.now base.old }
    ensures base { OnOk result (AllZip (λ booth stall.
        IsIdle booth.node stall) booths.now base.new) }
    ensures many { IfOk result (λ rows. length rows.items ≡ workers) }
    ensures rows { IfOk result (λ rows.
        AllByRecursion (λ row.
        AllZip (λ booth stall.
        IsIdle booth.node stall) booths.now row.stalls.items) rows.items) }
    ensures shares { IfOk result (λ rows. (place : ℕ)
        → share_at place base.new + total (λ row.
        share_at place row.stalls.items) rows.items ≡ share_at place base.old) }
    ensures narrow { CanBeSplit workers base.old → IfErr result (λ error. error ≡ Memory) }
{
    let mut rows = Vec::new(alloc);
    for _ in 0..workers {
        let row = deal_row(alloc, booths, base)?;
        rows.reserve(1)?;
        rows.push_reserved(row);
    }
    Ok(rows)
}
