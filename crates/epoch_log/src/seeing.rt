//! The endorsements of changes, as they are seen.
ghost use Rattle.std.specs.Prelude.{◌≡◌, ◌++◌, flat_map, IfOk, OnOk};
ghost use Rattle.epoch_log.specs.Calls.{endorsements_of};

use ar_cert::Change;
use ar_council::seen_text;
use ar_statement::{Role, SeenText, Statement};
use std::alloc::{AllocError, Global};

/// Appends the endorsements of a change, as they are seen.
fn push_endorsements(list: &mut Vec<SeenText>, change: &Change) -> Result<(), AllocError>
    ensures { OnOk result (list.new.items ≡ list.old.items ++ endorsements_of change.now) }
{
    let certificate = change.cert.digest();
    for endorsement in change.endorsements.as_slice() {
        let authority = endorsement.authority;
        let statement = Statement::Endorse {
            authority,
            certificate,
        };
        list.push(seen_text(Role::Authority.party(authority), &statement))?;
    }
    Ok(())
}

/// The endorsements of a change, as they are seen.
pub(crate) fn endorsements(alloc: Global, change: &Change) -> Result<Vec<SeenText>, AllocError>
    ensures { IfOk result (λ list. list.items ≡ endorsements_of change.now) }
{
    let mut list = Vec::new(alloc);
    push_endorsements(&mut list, change)?;
    Ok(list)
}

/// Appends the endorsements of each of these changes.
pub(crate) fn push_all_endorsements(
    list: &mut Vec<SeenText>,
    changes: &[Change],
) -> Result<(), AllocError>
    ensures { OnOk result
        (list.new.items ≡ list.old.items ++ flat_map endorsements_of changes.now) }
{
    for change in changes {
        push_endorsements(list, change)?;
    }
    Ok(())
}
