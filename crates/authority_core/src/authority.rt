ghost use Rattle.std.specs.Prelude.{◌≡◌, ◌≤◌, ◌∷◌, [], length, IfOk, IsOk, Err, Some, is_none, MatchResult};
ghost use Rattle.ar_message.specs.Messages.{message_in};
ghost use Rattle.authority_core.specs.Calls.{fresh_authority};
ghost use Rattle.authority_core.specs.Checked.{ChecksBy, FailsByFault};
ghost use Rattle.authority_core.specs.EndorseRow.{outcome_by};
ghost use Rattle.authority_core.specs.Keyed.{SendsBy};
ghost use Rattle.authority_core.specs.Row.{asked_in, row};
ghost use Rattle.authority_core.specs.State.{most_sent};
ghost use Rattle.key_roll.specs.Ring.{ring_signature_len};
ghost use Rattle.lms_tree.specs.LmsKind.{leaves_of};
ghost use Rattle.authority_core.specs.declared.refusal.AuthorityRefusal.TheVariants as refusal;

use crate::keyless::AuthorityCore;
use crate::refusal::AuthorityRefusal;
use crate::state::AuthorityState;
use ar_message::{Sent, fill};
use key_roll::{KeyRing, ring_signature_len};
use keyed_core::Keyed;
use lms_tree::LmsKey;
use owner_check::OwnerCheck;
use party_keys::Directory;
use std::alloc::{AllocError, Global};

/// An authority with its keys: what it sends is signed.
pub type Authority<C> = Keyed<AuthorityCore<C>>;

/// The authority with this number that has done nothing yet, with its key of generation 0 and the check that it asks.
/// The only error is want of memory, and then the check comes back.
pub fn new_authority<C: OwnerCheck>(
    alloc: Global,
    number: u16,
    directory: Directory,
    key: LmsKey,
    check: C,
) -> Result<Authority<C>, (C, AllocError)>
    ensures { MatchResult result
        (λ made. made ≡ record {
          core = record {
            state = record {
              me = number;
              keys = directory;
              signature_len = ring_signature_len key;
              past = fresh_authority (leaves_of key.lms);
            };
            check = Some check;
          };
          ring = record { keys = key ∷ []; room = 0 };
        })
        (λ refused. refused.0 ≡ check) }
{
    let leaves = key.leaves();
    let len = ring_signature_len(&key);
    match KeyRing::new(alloc, key) {
        Ok(ring) => {
            let state = AuthorityState::new(alloc, number, directory, leaves, len);
            let core = AuthorityCore {
                state,
                check: Some(check),
            };
            Ok(Keyed { core, ring })
        }
        Err((_key, error)) => Err((check, error)),
    }
}

/// An authority takes a message: what it sends for it, signed, or why it refuses.
///
/// It is the step of its core (`AuthorityCore::step` says when each refusal comes, and what stays then), with the signatures in
/// the places that it leaves blank. The answer is by what the check answered; `Memory` may stand in its place,
/// but not in that of `Form`.
pub fn answer<C: OwnerCheck>(
    authority: &mut Authority<C>,
    alloc: Global,
    bytes: &[u8],
) -> Result<Sent, AuthorityRefusal>
    // The answer, signed, and where the authority stands then.
    ensures row { SendsBy authority.old.ring.keys result authority.old.core.state
        authority.new.core.state
        (row authority.old.core.state (is_none authority.old.core.check) (message_in bytes.now)
        (outcome_by result)) }
    // How many messages it sends at most.
    ensures few { IfOk result (λ sent. length sent.messages ≤ most_sent) }
    ensures ring { authority.new.ring ≡ authority.old.ring }
    // The check is there where it was, its list has this answer behind it where it was asked, what it tells stays, and the
    // answer is by what it tells.
    ensures checks { ChecksBy C.told C.answers authority.old.core.check authority.new.core.check
        (asked_in (message_in bytes.now)) result }
    // When it failed.
    ensures fault { FailsByFault C.faults authority.old.core.check authority.new.core.check result }
    // When memory may be wanting.
    ensures memory { result ≡ Err refusal.Memory → IsOk (message_in bytes.now) }
{
    authority.core.state.told();
    let unsigned = authority.core.step(alloc, bytes)?;
    Ok(fill(&authority.ring, unsigned))
}
