use crate::stall::Stall;
use node_core::Core;

/// A stall at each node: what a worker has.
#[derive(Drop)]
pub(crate) struct Row<C: Core, T> {
    pub(crate) stalls: Vec<Stall<C, T>>,
}
