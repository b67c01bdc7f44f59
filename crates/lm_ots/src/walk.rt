ghost use Rattle.std.specs.Prelude.{◌≡◌, ◌+◌, ◌<◌, ◌≤◌, ℕ, List, [], slice_index, slice_index_or};
ghost use Rattle.lm_ots.specs.Ways.{AllLeadTo, end_of, FourLeadTo};

use crate::chain::chain;
use crate::chains::{Chains, Four, Queue, ROOM};
use crate::queue::longest_first;

// More than the steps of all chains together.
const MOST_STEPS: usize = 256 * ROOM;

/// Takes each of the first `count` chains to its end.
///
/// Four of them go side by side, and where one is at its end, the next of the queue takes its lane. Which chain goes when
/// is a matter of speed alone: what is left then, which is nothing, is taken to its end by itself.
pub(crate) fn walk(id: &[u8; 16], leaf: u32, count: usize, chains: &mut Chains)
    requires { count ≤ 268 }
    ensures { (i : ℕ) → i < count
        → slice_index_or chains.new.values i [] ≡ end_of id.now leaf chains.old i }
{
    let queue = longest_first(count, chains);
    let mut four = Four::first(chains);
    four.take_first(chains, &queue);
    take_turns(id, leaf, &queue, chains, &mut four);
    four.put_all_back(chains);
    finish(id, leaf, count, chains);
}

// Lets the chains that wait take the lanes of those that are at their end, until all are.
fn take_turns(id: &[u8; 16], leaf: u32, queue: &Queue, chains: &mut Chains, four: &mut Four)
    ensures others { (end : ℕ → List ℕ) → AllLeadTo id.now leaf chains.old end
        → FourLeadTo id.now leaf four.old end
        → AllLeadTo id.now leaf chains.new end }
    ensures four { (end : ℕ → List ℕ) → AllLeadTo id.now leaf chains.old end
        → FourLeadTo id.now leaf four.old end
        → FourLeadTo id.now leaf four.new end }
{
    let mut waiting = 4;
    for _turn in 0..MOST_STEPS {
        waiting = four.refill(chains, waiting, queue);
        let steps = four.steps_together();
        if steps == 0 {
            return;
        }
        advance(id, leaf, steps, four);
    }
}

// So many steps of the four chains, each up to its end.
fn advance(id: &[u8; 16], leaf: u32, steps: u8, four: &mut Four)
    ensures { (end : ℕ → List ℕ) → FourLeadTo id.now leaf four.old end
        → FourLeadTo id.now leaf four.new end }
{
    for _step in 0..steps {
        four.step(id, leaf);
    }
}

// Takes each of the first `count` chains that is not at its end there.
fn finish(id: &[u8; 16], leaf: u32, count: usize, chains: &mut Chains)
    requires { count ≤ 268 }
    ensures { (i : ℕ) → i < count
        → slice_index_or chains.new.values i [] ≡ end_of id.now leaf chains.old i }
{
    for i in 0..count {
        chains.values[i] = end(id, leaf, i, chains);
    }
}

// The end of a chain, which it may have reached.
fn end(id: &[u8; 16], leaf: u32, i: usize, chains: &Chains) -> [u8; 32]
    requires { i < 268 }
    ensures { result ≡ end_of id.now leaf chains.now i }
{
    let next = chains.next[i];
    let end = chains.ends[i];
    let value = &chains.values[i];
    if next < end {
        chain(id, leaf, i as u16, next, end, value)
    } else {
        *value
    }
}
