//! Who signed a statement, and who a proposal or a decision beside the endorsers of its changes.

ghost use Rattle.std.specs.Prelude.{◌++◌, ◌∷◌, [], All, flat_map};
ghost use Rattle.ar_base.specs.Gives.{GivesUnless};
ghost use Rattle.ar_cert.specs.Changes.{IsChange};
ghost use Rattle.ar_statement.specs.Claims.{claim_of, signer_of};
ghost use Rattle.ar_claims.specs.Lists.{endorsements_in};
ghost use Rattle.log_sending.specs.Signers.{signers};
ghost use Rattle.party_keys.specs.Signers.{signed_by};
ghost use Rattle.log_sending.specs.declared.refusal.LogRefusal.TheVariants as refusals;

use crate::LogRefusal;
use crate::log_core::LogCore;
use ar_cert::Change;
use ar_statement::Statement;
use log_sending::Signers;
use party_keys::Directory;
use std::alloc::Global;

/// That the signer of a statement has signed it.
pub(crate) fn has_signed(
    alloc: Global,
    directory: &Directory,
    statement: &Statement,
    signature: &[u8],
) -> Result<(), LogRefusal>
    ensures { GivesUnless refusals.Memory (λ unit. unit) result
        (signers directory.now
        (signed_by (signer_of (claim_of statement.now)) (claim_of statement.now) signature.now
        ∷ [])) }
{
    let mut signers = Signers::new(alloc);
    signers.add(statement, signature)?;
    signers.check(directory)
}

impl LogCore {
    /// That these have signed, and then the endorsers of the changes. The endorsements of a change that is queued were
    /// verified when it was queued, and are not verified again.
    pub(crate) fn have_signed<'a>(
        &self,
        front: Signers<'a>,
        changes: &'a [Change],
    ) -> Result<(), LogRefusal>
        requires { All IsChange changes.now }
        ensures { GivesUnless refusals.Memory (λ unit.
            unit) result (signers self.now.keys
            (front.entry ++ flat_map endorsements_in changes.now)) }
    {
        self.told();
        let mut all = front;
        all.add_changes(&self.queue, changes)?;
        all.check(self.log.directory())
    }
}
