ghost use Rattle.std.specs.Prelude.{◌≡◌, ◌<◌, ◌≤◌};
ghost use Rattle.ar_seats.specs.Shares.{whole};

use crate::held::Held;
use crate::node::{Node, NodeOf};
use ar_seats::Share;
use node_core::Core;
use std::marker::Model;

pub(crate) type HeldOf<C> = Held<<C as Core>::State, <C as Core>::Input, <C as Core>::Note>;

pub(crate) type Token<C> = atomic_table::Seat<Option<NodeOf<C>>, HeldOf<C>>;

/// A seat of a node, with which one thread asks.
pub type Seat<C> = SeatOf<C, <C as Core>::Input, <C as Core>::Note, <C as Core>::State>;

/// A seat, by the types of the node's core, of its inputs, of its notes and of its states. It is named without the core's trait, so
/// that seats of a core that is a type parameter can be moved to threads.
#[derive(Drop)]
pub struct SeatOf<C, I, N, S> {
    pub(crate) token: atomic_table::Seat<Option<Node<C, I, N>>, Held<S, I, N>>,
    pub(crate) share: Share,
}

// Clauses see the seat's node and what the seat knows. The share that it keeps is that of its view.
impl<C, I, N, S> Model for SeatOf<C, I, N, S> {
    ghost use Rattle.std.specs.Prelude.{◌≡◌, ◌<◌, [], false};
    ghost use Rattle.shared_node.specs.Seats.{SeatParts};

    ghost Value = { SeatParts S I N };

    ghost view = { λ s. record {
      table = s.token.table_id;
      first = s.token.me.0.first;
      seen = s.token.me.0.seen;
      own = s.token.me.0.own;
      share = s.token.me.0.share;
    } };

    ghost invariant = { λ s. (s.token.me.1 ≡ []) × (s.token.me.0.holds ≡ false)
        × (s.share ≡ s.token.me.0.share) × (0 < s.share) };
}

impl<C, I, N, S> SeatOf<C, I, N, S> {
    /// The seat's share, a number from 1 to 2^32.
    pub fn share(&self) -> u64
        ensures share { result ≡ self.now.share }
        ensures bounds { (0 < result) × (result ≤ whole) }
    {
        self.share.parts()
    }
}
