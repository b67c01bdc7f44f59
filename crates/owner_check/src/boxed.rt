use crate::{AskFault, OwnerCheck};
use std::alloc::{AllocError, Global};

/// A check in a box, whose type is known at run time alone. It is the check that it holds: what it tells,
/// its answers and its faults are those.
#[derive(Drop)]
pub struct Boxed {
    /// The check that is asked; its box was made by the caller.
    pub check: Box<dyn OwnerCheck>,
}

impl OwnerCheck for Boxed {
    ghost told = { λ b. (OwnerCheck-box b.check).told b.check.value };

    ghost answers = { λ b. (OwnerCheck-box b.check).answers b.check.value };

    ghost faults = { λ b. (OwnerCheck-box b.check).faults b.check.value };

    fn ask(&mut self, alloc: Global, name: &[u8], key: &[u8; 56]) -> Result<bool, AskFault> {
        self.check.ask(alloc, name, key)
    }

    fn learn(&mut self, alloc: Global, name: &[u8], key: &[u8; 56]) -> Result<(), AllocError> {
        self.check.learn(alloc, name, key)
    }

    fn forget(&mut self, name: &[u8], key: &[u8; 56]) {
        self.check.forget(name, key);
    }
}
