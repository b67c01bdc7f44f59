ghost use Rattle.std.specs.Prelude.{◌≡◌, ◌<◌, ◌↔◌, [], ◌∷◌, ◌++◌, true, false, length, Some, None, Err, IsOk, IfOk, IfErr, OnErr};
ghost use Rattle.ar_seats.specs.Shares.{whole};
ghost use Rattle.ar_seats.specs.Numbers.{HasEachBelow, IsRising};
ghost use Rattle.ar_base.specs.Prefixes.{BeginsWith};
ghost use Rattle.node_core.specs.History.{Replays};
ghost use Rattle.shared_node.specs.Seats.{IsSeatOf, Answered, SeesOn, first_seat, left_seat, given_seat, joined_seat};
ghost use Rattle.ar_seats.specs.declared.split_fault.SplitFault.TheVariants.{Narrow};

use crate::node::{Node, NodeOf, answer};
use crate::seat::{HeldOf, Token};
use crate::steps::{Compare, Count, Enter, Halve, Leave, Look, NodeRule, Unite};
use crate::{Closed, Place, Seat, SeatOf, Served, SplitFault};
use ar_seats::Share;
use atomic_table::Table;
use node_core::Core;
use std::alloc::{AllocError, Global};
use std::marker::Model;
use std::snapshot::Snapshot;
use std::sync::{Mutex, Wait};

type NodeTable<C> = Table<Option<NodeOf<C>>, HeldOf<C>, Snapshot<C>, NodeRule<C>, Global>;

/// A core that many threads ask. It lies in one place, and each thread has a seat.
#[derive(Drop)]
pub struct SharedNode<C: Core> {
    // The first word is the length of the history, the second how many seats have the core.
    table: NodeTable<C>,
    // Threads wait here for their turn.
    lock: Mutex<()>,
}

// Clauses see which node it is, and the state of the core that it began with.
impl<C: Core> Model for SharedNode<C> {
    ghost use Rattle.std.specs.Prelude.{◌≡◌};
    ghost use Rattle.shared_node.specs.Seats.{NodeParts};

    ghost Value = { NodeParts C.State };

    ghost view = { λ node. record {
      table = node.table.shared.table_id;
      first = C.state node.table.shared.key.value;
    } };

    ghost invariant = { λ node. (node.table.shared.table_id.words ≡ 2)
        × (node.table.shared.table_id.slots ≡ 1) };
}

impl<C: Core> SharedNode<C> {
    /// A node of this core, with an empty history, and its first seat. The only error is want of
    /// memory, and then the core comes back.
    pub fn new(alloc: Global, core: C) -> Result<(SharedNode<C>, Seat<C>), (C, AllocError)>
        ensures first { IfOk result (λ made. made.0.first ≡ C.state core) }
        ensures seat { IfOk result (λ made. made.1 ≡ first_seat made.0 whole) }
        ensures err { IfErr result (λ refused. refused.0 ≡ core) }
    {
        let first = Snapshot::of(&core);
        let mut slots = Vec::new(alloc);
        if slots.reserve(1).is_err() {
            return Err((core, AllocError));
        }
        let node = Node {
            core,
            history: Vec::new(alloc),
        };
        slots.push_reserved(Some(node));
        match Table::new(alloc, &[0, 0], slots, &first) {
            Ok((table, token)) => {
                let lock = Mutex::new(());
                let share = Share::whole();
                Ok((SharedNode { table, lock }, SeatOf { token, share }))
            }
            Err(mut refused) => match refused.slots.pop() {
                Some(Some(node)) => Err((node.core, AllocError)),
                _ => unreachable!(),
            },
        }
    }

    // Takes the core out, as soon as no seat has it.
    fn take<R: Wait>(&self, rt: &R, token: &mut Token<C>) -> NodeOf<C>
        requires own { (token.old.table_id ≡ self.now.table)
            × (token.old.me.0.first ≡ Some self.now.first) }
        requires free { (token.old.me.1 ≡ []) × (token.old.me.0.holds ≡ false)
            × (0 < token.old.me.0.share) }
        ensures own { token.new.table_id ≡ token.old.table_id }
        ensures taken { token.new.me
            ≡ (
              record token.old.me.0 { seen = result.history.items; holds = true },
              (0, None)
                  ∷ [],
            ) }
        ensures later { BeginsWith result.history.items token.old.me.0.seen }
        ensures replays { Replays C.next C.legal self.now.first result.history.items
            (C.state result.core) }
    {
        for _ in rt.forever() {
            let holders = self.table.shared.compare_exchange::<Enter>(token, 1, 0, 1);
            if holders == 0 {
                return match self.table.shared.exchange(token, 0, None) {
                    Some(node) => node,
                    None => unreachable!(),
                };
            }
        }
        unreachable!()
    }

    // Gives the core back, with the calls beside it.
    fn leave(&self, token: &mut Token<C>, node: NodeOf<C>)
        requires own { (token.old.table_id ≡ self.now.table)
            × (token.old.me.0.first ≡ Some self.now.first) }
        requires has { (token.old.me.1 ≡ (0, None) ∷ []) × (token.old.me.0.holds ≡ true)
            × (0 < token.old.me.0.share) }
        requires seen { node.history.items ≡ token.old.me.0.seen }
        requires replays { Replays C.next C.legal self.now.first node.history.items
            (C.state node.core) }
        ensures own { token.new.table_id ≡ token.old.table_id }
        ensures left { token.new.me ≡ (record token.old.me.0 { holds = false }, []) }
    {
        self.table.shared.exchange(token, 0, Some(node));
        self.table.shared.store::<Leave>(token, 1, 0);
    }

    // Counts the call that was put behind what the seat had seen, and gives the core back.
    fn count(&self, token: &mut Token<C>, node: NodeOf<C>) -> u64
        requires own { (token.old.table_id ≡ self.now.table)
            × (token.old.me.0.first ≡ Some self.now.first) }
        requires has { (token.old.me.1 ≡ (0, None) ∷ []) × (token.old.me.0.holds ≡ true)
            × (0 < token.old.me.0.share) }
        requires call { (call : _) × (node.history.items ≡ token.old.me.0.seen ++ call ∷ []) }
        requires replays { Replays C.next C.legal self.now.first node.history.items
            (C.state node.core) }
        ensures own { token.new.table_id ≡ token.old.table_id }
        ensures place { result ≡ length token.old.me.0.seen }
        ensures left { token.new.me
            ≡ (
              record token.old.me.0 {
                seen = node.history.items;
                own = token.old.me.0.own ++ result ∷ [];
                holds = false;
              },
              [],
            ) }
    {
        self.table.shared.exchange(token, 0, Some(node));
        let place = self.table.shared.fetch_add::<Count>(token, 0, 1);
        self.table.shared.store::<Leave>(token, 1, 0);
        place
    }

    /// Asks the core. The call is then the last of the history, and the reply is the one that the core
    /// gives at its place. Meanwhile other calls wait for the node's lock; no clause speaks of it.
    ///
    /// The only error is want of memory: then the input comes back, and the call is not in the history.
    /// It waits for the lock, and returns if it gets it.
    pub fn ask<R: Wait>(
        &self,
        rt: &R,
        alloc: Global,
        seat: &mut Seat<C>,
        input: C::Input,
    ) -> Result<Served<C::Reply>, (C::Input, AllocError)>
        requires { IsSeatOf self.now seat.old }
        ensures ok { IfOk result (λ answer.
            Answered C.next C.legal self.now.first seat.old input answer.place answer.reply
            seat.new) }
        ensures input { IfErr result (λ refused. refused.0 ≡ input) }
        ensures err { OnErr result (SeesOn seat.old seat.new) }
    {
        let _turn = self.lock.lock(rt);
        let mut node = self.take(rt, &mut seat.token);
        match answer(alloc, &mut node, input) {
            Ok(reply) => {
                let place = Place::new(self.count(&mut seat.token, node));
                Ok(Served { place, reply })
            }
            Err(refused) => {
                self.leave(&mut seat.token, node);
                Err(refused)
            }
        }
    }

    /// The length of the history, which the seat then has seen. It takes no lock and does not wait.
    pub fn look(&self, seat: &mut Seat<C>) -> u64
        requires { IsSeatOf self.now seat.old }
        ensures length { result ≡ length seat.new.seen }
        ensures seen { SeesOn seat.old seat.new }
    {
        self.table.shared.load::<Look>(&mut seat.token, 0)
    }

    /// Gives a new seat the lesser half of the share, for another thread. It is `Narrow` exactly where
    /// the share is 1, and does not ask for memory as it stands.
    pub fn split(&self, _alloc: Global, seat: &mut Seat<C>) -> Result<Seat<C>, SplitFault>
        requires { IsSeatOf self.now seat.old }
        ensures wide { IsOk result ↔ (1 < seat.old.share) }
        ensures narrow { result ≡ Err Narrow ↔ (seat.old.share ≡ 1) }
        ensures left { IfOk result (λ given. seat.new ≡ left_seat seat.old) }
        ensures given { IfOk result (λ given. given ≡ given_seat seat.old) }
        ensures err { OnErr result (seat.new ≡ seat.old) }
    {
        let Some(share) = seat.share.split() else {
            return Err(SplitFault::Narrow);
        };
        let token = self.table.shared.split_seat::<Halve>(&mut seat.token);
        Ok(SeatOf { token, share })
    }

    /// Takes in another seat of the node, with its share and its calls. The seat has then seen what
    /// the one of the two that saw more has seen, which begins with what the other one has seen.
    pub fn join(&self, seat: &mut Seat<C>, other: Seat<C>)
        requires own { IsSeatOf self.now seat.old }
        requires other { IsSeatOf self.now other }
        ensures joined { seat.new ≡ joined_seat seat.old other }
        ensures seen { BeginsWith seat.new.seen seat.old.seen
            × BeginsWith seat.new.seen other.seen }
        ensures rising { IsRising seat.new.own }
    {
        let SeatOf { token, share } = other;
        self.table.shared.join_seat::<Unite>(&mut seat.token, token);
        self.table.shared.load::<Compare>(&mut seat.token, 0);
        seat.share.join(share);
    }

    /// Gives the node up: the core, and the history that leads to its state. The history begins with
    /// what the seat has seen, and its calls are the seat's own, each once.
    pub fn close(self, seat: Seat<C>) -> Closed<C>
        requires own { IsSeatOf self seat }
        requires all { seat.share ≡ whole }
        ensures replays { Replays C.next C.legal self.first result.history.items
            (C.state result.core) }
        ensures seen { BeginsWith result.history.items seat.seen }
        ensures own { HasEachBelow (length result.history.items) seat.own }
    {
        let SharedNode { table, lock: _ } = self;
        let SeatOf { token, share: _ } = seat;
        let mut closed = table.close_with(token);
        let slot = closed.take(0);
        closed.free();
        match slot {
            Some(Node { core, history }) => Closed { core, history },
            None => unreachable!(),
        }
    }
}
