ghost use Rattle.std.specs.Prelude.{OnOk};
ghost use Rattle.std.specs.List.{AllZip};
ghost use Rattle.node_crowd.specs.Along.{Along};
ghost use Rattle.node_crowd.specs.Stalls.{IsJoined, IsStallOf};

use crate::booth::Booth;
use crate::row::Row;
use crate::stall::{Stall, join};
use node_core::Core;
use std::alloc::AllocError;

/// Joins a row into the base: each stall into that of the base at its node.
pub fn join_row<C: Core, F, T: Drop>(
    booths: &[Booth<C, F>],
    base: &mut [Stall<C, T>],
    row: Row<C, T>,
) -> Result<(), AllocError>
    requires base { AllZip (λ booth stall. IsStallOf booth.node stall) booths.now base.old }
    requires row { AllZip (λ booth stall. IsStallOf booth.node stall) booths.now row.stalls.items }
    ensures { OnOk result (Along (λ booth old other new.
        IsJoined C.next booth.node old other new) booths.now base.old row.stalls.items
        base.new) }
{
    let Row { stalls } = row;
    let mut place = 0;
    for other in stalls {
        join(&booths[place].node, &mut base[place], other)?;
        place += 1;
    }
    Ok(())
}
