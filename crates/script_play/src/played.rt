//! What a script came to.

ghost use Rattle.std.specs.Prelude.{◌≡◌, ◌<◌};
ghost use Rattle.script_play.specs.Played.{run_status};

use crate::counts::Counts;
use ar_world::{Cause, World};
use owner_check::OwnerCheck;
use std::marker::Model;

/// What a script came to.
#[derive(Drop)]
pub struct Played<C: OwnerCheck> {
    /// The world behind its last line, or before the line that was refused.
    pub world: World<C>,
    /// The judgements of its clients.
    pub counts: Counts,
    /// The number of the line that was refused, and why; none where each was taken.
    pub refused: Option<(u64, Cause)>,
}

// Clauses see the world as plain data.
impl<C: OwnerCheck> Model for Played<C> {
    ghost use Rattle.script_play.specs.Playing.{Played as Parts};

    ghost Value = { Parts };

    ghost view = { λ p. record { world = p.world; counts = p.counts; refused = p.refused } };
}

impl<C: OwnerCheck> Played<C> {
    /// The status of a program that played the script: 3 where a line was refused, and else 0.
    pub fn status(&self) -> u8
        ensures status { result ≡ run_status self.now.refused }
        ensures bound { result < 4 }
    {
        match self.refused {
            Some(_) => 3,
            None => 0,
        }
    }
}
