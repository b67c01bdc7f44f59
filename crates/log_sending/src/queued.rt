//! Whether a change is queued, and whether two lists are of the same changes.

ghost use Rattle.std.specs.Prelude.{◌≡◌};
ghost use Rattle.log_sending.specs.Queued.{are_same_changes, is_queued};

use ar_cert::Change;

/// Whether an equal change is queued, with the same signatures. It takes no memory.
pub fn is_queued(queue: &[Change], change: &Change) -> bool
    ensures { result ≡ is_queued queue.now change.now }
{
    queue.iter().any(|other| other.is_same(change))
}

/// Keeps of a change what was found of the handover of an equal one that is queued, so that it is not verified again. It
/// takes no memory.
pub(crate) fn recall_queued(queue: &[Change], change: &mut Change)
    ensures { change.new ≡ change.old }
{
    for other in queue {
        if change.recall(other) {
            return;
        }
    }
}

/// Whether both are of the same changes, in one order and with the same signatures. It takes no memory.
pub(crate) fn are_same(changes: &[Change], others: &[Change]) -> bool
    ensures { result ≡ are_same_changes changes.now others.now }
{
    match changes {
        [] => others.is_empty(),
        [change, rest @ ..] => match others {
            [] => false,
            [other, others @ ..] => change.is_same(other) && are_same(rest, others),
        },
    }
}
