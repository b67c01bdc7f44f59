//! What honest parties and clients of a world hold, of which the theorem speaks.

ghost use Rattle.std.specs.Prelude.{◌≡◌, IfOk};
ghost use Rattle.ar_world.specs.Founding.{is_peopled};
ghost use Rattle.ar_world.specs.Records.{HasParties, held_of};

use crate::order::is_peopled;
use crate::world::World;
use ar_records::{Judged, Records};
use owner_check::OwnerCheck;
use std::alloc::{AllocError, Global};

impl<C: OwnerCheck> World<C> {
    /// What clients accepted, or by which they hold that a name has no certificate, in the order in which they judged.
    pub fn judged(&self) -> &[Judged]
        ensures { result.now ≡ self.now.judged }
    {
        self.judged.as_slice()
    }

    /// Whether the logs and authorities are there: since the line `authorities` was taken.
    pub fn has_parties(&self) -> bool
        ensures { result ≡ is_peopled self.now.phase }
    {
        is_peopled(self.phase)
    }

    /// All that honest parties and clients hold of which the safety theorem speaks: the records of all honest logs and
    /// authorities, and all that clients accepted and learnt, as they stand. The only error is want of memory.
    pub fn records(&self, alloc: Global) -> Result<Records<'_>, AllocError>
        requires { HasParties self.now }
        ensures { IfOk result (λ records. records ≡ held_of self.now) }
    {
        let Some(known) = &self.directories else {
            unreachable!()
        };
        Records::of(
            alloc,
            &known.clients,
            &self.forgers,
            &self.logs,
            &self.authorities,
            &self.judged,
            &self.learned,
        )
    }
}
