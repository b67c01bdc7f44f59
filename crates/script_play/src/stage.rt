//! Where a script stands.

ghost use Rattle.std.specs.Prelude.{◌≡◌};
ghost use Rattle.ar_world.specs.ar_nodes.Parties.{checks_told};
ghost use Rattle.script_play.specs.Playing.{begun};

use crate::counts::Counts;
use ar_world::World;
use owner_check::OwnerCheck;
use std::alloc::Global;
use std::marker::Model;

/// Where a script that is played stands, between two of its lines.
#[derive(Drop)]
pub struct Stage<C: OwnerCheck> {
    /// The world behind the lines so far.
    pub world: World<C>,
    /// The judgements of its clients so far.
    pub counts: Counts,
}

// Clauses see both.
impl<C: OwnerCheck> Model for Stage<C> {
    ghost use Rattle.script_play.specs.Playing.{Stand};

    ghost Value = { Stand };

    ghost view = { λ s. record { world = s.world; counts = s.counts } };
}

impl<C: OwnerCheck> Stage<C> {
    /// Where each script begins. The checks are those of the authorities, in their order.
    pub fn begin(alloc: Global, checks: Vec<C>) -> Stage<C>
        ensures { result ≡ begun (checks_told C.told C.answers checks.items) }
    {
        Stage {
            world: World::new(alloc, checks),
            counts: Counts::none(),
        }
    }
}
