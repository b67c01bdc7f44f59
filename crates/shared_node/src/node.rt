ghost use Rattle.std.specs.Prelude.{◌≡◌, IfOk, IfErr};
ghost use Rattle.shared_node.specs.Answers.{AddsCall, IsAsBefore};

use node_core::Core;
use std::alloc::{AllocError, Global};

/// A core with the calls that it answered.
#[derive(Drop)]
pub(crate) struct Node<C, I, N> {
    /// In its state after these calls.
    pub core: C,
    /// The inputs of the calls in their order, each with its note.
    pub history: Vec<(I, N)>,
}

/// The node of a core.
pub(crate) type NodeOf<C> = Node<C, <C as Core>::Input, <C as Core>::Note>;

/// Lets the core answer an input, and keeps the call. Room for the call is taken before the step, so
/// that the only error, want of memory, leaves no trace; then the input comes back.
pub(crate) fn answer<C: Core>(
    alloc: Global,
    node: &mut NodeOf<C>,
    input: C::Input,
) -> Result<C::Reply, (C::Input, AllocError)>
    ensures ok { IfOk result (λ reply.
        AddsCall C.state C.next C.legal node.old input reply node.new) }
    ensures err { IfErr result (λ refused.
        (refused.0 ≡ input) × IsAsBefore C.state node.old node.new) }
{
    if node.history.reserve(1).is_err() {
        return Err((input, AllocError));
    }
    match node.core.step(alloc, &input) {
        Ok((reply, note)) => {
            node.history.push_reserved((input, note));
            Ok(reply)
        }
        Err(error) => Err((input, error)),
    }
}
