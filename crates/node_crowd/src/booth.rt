use node_core::Core;
use shared_node::SharedNode;

/// A node, and what finishes the replies of its core outside of its lock, as a ring that signs them.
#[derive(Drop)]
pub struct Booth<C: Core, F> {
    /// The node.
    pub node: SharedNode<C>,
    /// What finishes its replies.
    pub finish: F,
}
