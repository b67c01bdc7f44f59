//! The steps of honest authorities.

ghost use Rattle.std.specs.Prelude.{◌≡◌, ◌<◌, ◌≤◌, length, Some, IfOk};
ghost use Rattle.authority_core.specs.RollRows.{roll_row};
ghost use Rattle.authority_core.specs.State.{most_sent};
ghost use Rattle.lms_tree.specs.Key.{public_of};
ghost use Rattle.lms_tree.specs.KeyParts.{KeyParts};
ghost use Rattle.ar_nodes.specs.Acting.{RepliesBy, RepliesBySome, authority_took, authority_turned};
ghost use Rattle.ar_nodes.specs.Parties.{next_of};

use crate::codes::authority_code;
use crate::fault::WorldFault;
use crate::parties::HonestAuthority;
use crate::replying::Reply;
use authority_core::{AuthorityRefusal, answer};
use owner_check::OwnerCheck;
use std::alloc::Global;

impl<C: OwnerCheck> HonestAuthority<C> {
    /// Tells a proof that the authority has a key. It does nothing.
    pub fn told(&self)
        ensures { 0 < length self.now.keys }
    {
        let _authority = &self.authority;
    }

    /// The authority takes a message.
    pub(crate) fn take(&mut self, alloc: Global, bytes: &[u8]) -> Result<Reply, WorldFault>
        ensures row { RepliesBySome result self.old self.new
            (λ says. authority_took says self.old bytes.now) }
        ensures few { IfOk result (λ reply. IfOk reply (λ sent. length sent.messages ≤ most_sent)) }
    {
        match answer(&mut self.authority, alloc, bytes) {
            Ok(sent) => Ok(Ok(sent)),
            Err(AuthorityRefusal::Memory) => Err(WorldFault::Memory),
            Err(refusal) => Ok(Err(authority_code(refusal))),
        }
    }

    /// The authority goes on to its next key.
    pub(crate) fn roll(&mut self, alloc: Global) -> Result<Reply, WorldFault>
        ensures row { (next : KeyParts) → next_of self.old.keys ≡ Some next
            → RepliesBy result self.old self.new
            (authority_turned self.old next (roll_row self.old.state (public_of next))) }
        ensures few { IfOk result (λ reply. IfOk reply (λ sent. length sent.messages ≤ most_sent)) }
    {
        match self.authority.roll(alloc) {
            Ok(sent) => Ok(Ok(sent)),
            Err(AuthorityRefusal::Memory) => Err(WorldFault::Memory),
            Err(refusal) => Ok(Err(authority_code(refusal))),
        }
    }
}
