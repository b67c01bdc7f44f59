use crowd_run::Gate;
use shared_node::Place;
use std::sync::atomic::{AtomicBool, Ordering};

// How often a thread looks for the other one before it goes on alone.
const MOST_TURNS: u32 = 200_000_000;

/// A place at which two threads meet: who comes to it sets a flag, and waits for the other's.
#[derive(Drop)]
pub(crate) struct Meeting {
    first: AtomicBool,
    second: AtomicBool,
    missed: AtomicBool,
}

impl Meeting {
    /// Where nobody is yet.
    pub(crate) fn new() -> Meeting {
        Meeting {
            first: AtomicBool::new(false),
            second: AtomicBool::new(false),
            missed: AtomicBool::new(false),
        }
    }

    /// Whether each found the other.
    pub(crate) fn is_met(&self) -> bool {
        self.first.load(Ordering::SeqCst)
            && self.second.load(Ordering::SeqCst)
            && !self.missed.load(Ordering::SeqCst)
    }

    /// Waits for the other one, for a while. The first is who comes before number 0, and the second who comes before another number.
    pub(crate) fn meet(&self, number: u64) {
        let (own, other) = if number == 0 {
            (&self.first, &self.second)
        } else {
            (&self.second, &self.first)
        };
        own.store(true, Ordering::SeqCst);
        for _ in 0..MOST_TURNS {
            if other.load(Ordering::SeqCst) {
                return;
            }
        }
        self.missed.store(true, Ordering::SeqCst);
    }
}

impl Gate for Meeting {
    ghost passed = { λ _ _. Unit {0} };

    ghost noted = { λ _ _ _. Unit {0} };

    fn before(&self, number: u64) {
        self.meet(number);
    }

    fn after(&self, _number: u64, _place: &Place) {}
}
