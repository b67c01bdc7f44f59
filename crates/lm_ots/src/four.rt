ghost use Rattle.std.specs.Prelude.{◌≡◌, ◌+◌, ◌<◌, ◌≤◌, ℕ, List, [], nat_lt, if◌then◌else◌, slice_index, slice_index_or};
ghost use Rattle.lm_ots.specs.Ways.{AllLeadTo, FourLeadTo};

use crate::chains::{Chains, Four, Queue};
use hash_lanes::FourValues;

impl Four {
    /// The first four chains.
    pub(crate) fn first(chains: &Chains) -> Four
        ensures { (id : List ℕ) (leaf : ℕ) (end : ℕ → List ℕ) → AllLeadTo id leaf chains.now end
            → FourLeadTo id leaf result end }
    {
        Four {
            numbers: [0, 1, 2, 3],
            next: [
                chains.next[0],
                chains.next[1],
                chains.next[2],
                chains.next[3],
            ],
            ends: [
                chains.ends[0],
                chains.ends[1],
                chains.ends[2],
                chains.ends[3],
            ],
            values: FourValues::new(&[
                chains.values[0],
                chains.values[1],
                chains.values[2],
                chains.values[3],
            ]),
        }
    }

    /// Takes the first four chains of the queue, over those that are there.
    pub(crate) fn take_first(&mut self, chains: &Chains, queue: &Queue)
        ensures { (id : List ℕ) (leaf : ℕ) (end : ℕ → List ℕ) → AllLeadTo id leaf chains.now end
            → FourLeadTo id leaf self.old end → FourLeadTo id leaf self.new end }
    {
        for lane in 0..4 {
            self.take(chains, lane, queue.numbers[lane] as usize);
        }
    }

    /// Gives each lane whose chain is at its end the next chain of the queue, as long as there is one.
    /// Those from `waiting` on wait; it returns from where on they do then.
    pub(crate) fn refill(&mut self, chains: &mut Chains, waiting: usize, queue: &Queue) -> usize
        ensures four { (id : List ℕ) (leaf : ℕ) (end : ℕ → List ℕ)
            → AllLeadTo id leaf chains.old end
            → FourLeadTo id leaf self.old end → FourLeadTo id leaf self.new end }
        ensures others { (id : List ℕ) (leaf : ℕ) (end : ℕ → List ℕ)
            → AllLeadTo id leaf chains.old end
            → FourLeadTo id leaf self.old end → AllLeadTo id leaf chains.new end }
    {
        let mut waiting = waiting;
        for lane in 0..4 {
            if waiting < queue.len && self.ends[lane] <= self.next[lane] {
                self.put_back(chains, lane);
                self.take(chains, lane, queue.numbers[waiting] as usize);
                waiting += 1;
            }
        }
        waiting
    }

    /// Puts the chains of all lanes back.
    pub(crate) fn put_all_back(&self, chains: &mut Chains)
        ensures { (id : List ℕ) (leaf : ℕ) (end : ℕ → List ℕ) → AllLeadTo id leaf chains.old end
            → FourLeadTo id leaf self.now end → AllLeadTo id leaf chains.new end }
    {
        for lane in 0..4 {
            self.put_back(chains, lane);
        }
    }

    // Puts the chain of a lane back.
    fn put_back(&self, chains: &mut Chains, lane: usize)
        requires { lane < 4 }
        ensures { (id : List ℕ) (leaf : ℕ) (end : ℕ → List ℕ) → AllLeadTo id leaf chains.old end
            → FourLeadTo id leaf self.now end → AllLeadTo id leaf chains.new end }
    {
        let number = self.numbers[lane] as usize;
        chains.values[number] = self.values.value(lane);
        chains.next[number] = self.next[lane];
        chains.ends[number] = self.ends[lane];
    }

    // Takes a chain into a lane, over the one that is there.
    fn take(&mut self, chains: &Chains, lane: usize, number: usize)
        requires lane { lane < 4 }
        requires number { number < 268 }
        ensures { (id : List ℕ) (leaf : ℕ) (end : ℕ → List ℕ) → AllLeadTo id leaf chains.now end
            → FourLeadTo id leaf self.old end → FourLeadTo id leaf self.new end }
    {
        self.numbers[lane] = number as u16;
        self.next[lane] = chains.next[number];
        self.ends[lane] = chains.ends[number];
        self.values.put(lane, &chains.values[number]);
    }

    /// How many steps there are until the first of the chains that are not at their end is there: 0 where all are.
    pub(crate) fn steps_together(&self) -> u8 {
        let mut least = 0;
        for lane in 0..4 {
            let left = self.ends[lane].saturating_sub(self.next[lane]);
            if left != 0 && (least == 0 || left < least) {
                least = left;
            }
        }
        least
    }

    /// A step of each chain that is not at its end.
    #[inline(always)]
    pub(crate) fn step(&mut self, id: &[u8; 16], leaf: u32)
        ensures { (end : ℕ → List ℕ) → FourLeadTo id.now leaf self.old end
            → FourLeadTo id.now leaf self.new end }
    {
        let moves = [
            self.next[0] < self.ends[0],
            self.next[1] < self.ends[1],
            self.next[2] < self.ends[2],
            self.next[3] < self.ends[3],
        ];
        self.values
            .step_where(id, &[leaf; 4], &self.numbers, &self.next, &moves);
        self.next = [
            next_of(self.next[0], self.ends[0]),
            next_of(self.next[1], self.ends[1]),
            next_of(self.next[2], self.ends[2]),
            next_of(self.next[3], self.ends[3]),
        ];
    }
}

// The step behind `step`, or `step` where the chain is at its end.
#[inline(always)]
fn next_of(step: u8, end: u8) -> u8
    ensures { result ≡ (if nat_lt step end then step + 1 else step) }
{
    if step < end { step + 1 } else { step }
}
