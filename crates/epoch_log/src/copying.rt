//! What is counted, with the signatures, in memory of its own.
ghost use Rattle.std.specs.Prelude.{◌≡◌, ◌<◌, IfOk};
ghost use Rattle.std.specs.Option.{option_map};
ghost use Rattle.epoch_log.specs.Calls.{with_status, with_vote};

use crate::counting::{count_status, count_vote};
use crate::parts::{Counted, CountedStatus, CountedVote};
use ar_base::Items;
use ar_cert::copy_signature;
use std::alloc::{AllocError, Global};
use vote_quorum::Value;

/// A copy of a signature, where there is one.
fn signature_copy(alloc: Global, signature: Option<&[u8]>) -> Result<Option<Items<u8>>, AllocError>
    ensures { IfOk result (λ copy. copy ≡ option_map (λ s. s.now) signature.entry) }
{
    match signature {
        Some(signature) => Ok(Some(Items::from_vec(Vec::from_slice(alloc, signature)?))),
        None => Ok(None),
    }
}

/// Copies of what is counted.
pub(crate) fn counted_copies<V: Copy>(
    alloc: Global,
    counted: &[Counted<V>],
) -> Result<Vec<Counted<V>>, AllocError>
    ensures { IfOk result (λ list. list.items ≡ counted.now) }
{
    let mut list = Vec::new(alloc);
    for one in counted {
        list.push((one.0, one.1, copy_signature(alloc, &one.2)?))?;
    }
    Ok(list)
}

/// Copies of the counted ballots, where this one is counted too.
pub(crate) fn votes_with(
    alloc: Global,
    votes: &[CountedVote],
    log: u16,
    value: &Value,
    signature: Option<&[u8]>,
) -> Result<Vec<CountedVote>, AllocError>
    ensures { IfOk result (λ list.
        list.items ≡ with_vote votes.now
        (log, value.now, option_map (λ s. s.now) signature.entry)) }
{
    let signature = signature_copy(alloc, signature)?;
    let mut list = counted_copies(alloc, votes)?;
    list.reserve(1)?;
    count_vote(&mut list, (log, *value, signature));
    Ok(list)
}

/// Copies of the counted statuses, where this one is counted too.
pub(crate) fn statuses_with(
    alloc: Global,
    statuses: &[CountedStatus],
    log: u16,
    value: &Option<Value>,
    signature: Option<&[u8]>,
) -> Result<Vec<CountedStatus>, AllocError>
    ensures { IfOk result (λ list.
        list.items ≡ with_status statuses.now
        (log, value.now, option_map (λ s. s.now) signature.entry)) }
{
    let signature = signature_copy(alloc, signature)?;
    let mut list = counted_copies(alloc, statuses)?;
    list.reserve(1)?;
    count_status(&mut list, (log, *value, signature));
    Ok(list)
}
