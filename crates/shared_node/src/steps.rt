//! The rule of a node's table, and what each of its atomic steps tells.

use crate::held::Held;
use crate::node::NodeOf;
use crate::seat::HeldOf;
use atomic_table::{Join, Play, Split, TableRule};
use node_core::Core;
use std::marker::PhantomData;
use std::snapshot::Snapshot;

/// The rule of a table that was made with this core.
pub(crate) struct NodeRule<C> {
    core: PhantomData<C>,
}

impl<C: Core> TableRule<Option<NodeOf<C>>, HeldOf<C>, Snapshot<C>> for NodeRule<C> {
    ghost use Rattle.shared_node.specs.Rule.{IsKept};
    ghost use Rattle.shared_node.specs.Steps.{first_view};

    ghost holds = { λ core. IsKept C.state C.next C.legal (C.state core.value) };

    ghost first = { λ core. first_view (C.state core.value) };
}

/// A load of the history's length.
pub(crate) struct Look;

impl<C: Core> Play<Option<NodeOf<C>>, HeldOf<C>> for Look {
    ghost use Rattle.shared_node.specs.Steps.{Looks};

    ghost then = { λ step. Looks };
}

/// An exchange of the number of holders, by which a seat takes the core out.
pub(crate) struct Enter;

impl<C: Core> Play<Option<NodeOf<C>>, HeldOf<C>> for Enter {
    ghost use Rattle.shared_node.specs.Steps.{Enters};

    ghost then = { λ step. Enters C.state C.next C.legal };
}

/// An addition to the history's length.
pub(crate) struct Count;

impl<C: Core> Play<Option<NodeOf<C>>, HeldOf<C>> for Count {
    ghost use Rattle.shared_node.specs.Steps.{Counts};

    ghost then = { λ step. Counts };
}

/// A store of the number of holders, by which a seat gives the core back.
pub(crate) struct Leave;

impl<C: Core> Play<Option<NodeOf<C>>, HeldOf<C>> for Leave {
    ghost use Rattle.shared_node.specs.Steps.{LeavesSeat};

    ghost then = { λ step. LeavesSeat };
}

/// A load behind a join.
pub(crate) struct Compare;

impl<C: Core> Play<Option<NodeOf<C>>, HeldOf<C>> for Compare {
    ghost use Rattle.shared_node.specs.Steps.{Compares};

    ghost then = { λ step. Compares };
}

/// How a view is split.
pub(crate) struct Halve;

impl<S, I, N> Split<Held<S, I, N>> for Halve {
    ghost use Rattle.shared_node.specs.Steps.{left_view, given_view};

    ghost left = { left_view };

    ghost right = { given_view };
}

/// How two views are joined.
pub(crate) struct Unite;

impl<S, I, N> Join<Held<S, I, N>> for Unite {
    ghost use Rattle.shared_node.specs.Steps.{joined_view, spent_view};

    ghost both = { joined_view };

    ghost spent = { spent_view };
}
