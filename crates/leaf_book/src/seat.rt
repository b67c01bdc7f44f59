ghost use Rattle.std.specs.Prelude.{◌≡◌, ◌<◌, ◌≤◌};
ghost use Rattle.ar_seats.specs.Shares.{whole};

use crate::held::Held;
use ar_seats::Share;
use atomic_table::Seat;
use std::marker::Model;

/// A seat of a book, with which one thread draws leaves.
#[derive(Drop)]
pub struct LeafSeat {
    pub(crate) seat: Seat<(), Held>,
    pub(crate) share: Share,
}

// Clauses see the seat's book and what the seat knows. The share that it keeps is that of its view.
impl Model for LeafSeat {
    ghost use Rattle.std.specs.Prelude.{◌≡◌, ◌<◌, []};
    ghost use Rattle.leaf_book.specs.Book.{LeafSeatParts};

    ghost Value = { LeafSeatParts };

    ghost view = { λ s. record {
      book = record { table = s.seat.table_id; leaves = s.seat.me.0.leaves };
      share = s.seat.me.0.share;
      drawn = s.seat.me.0.drawn;
      over = s.seat.me.0.over;
      seen = s.seat.me.0.seen;
    } };

    ghost invariant = { λ s. (s.seat.me.1 ≡ []) × (s.share ≡ s.seat.me.0.share) × (0 < s.share) };
}

impl LeafSeat {
    /// The seat's share, a number from 1 to 2^32.
    pub fn share(&self) -> u64
        ensures share { result ≡ self.now.share }
        ensures bounds { (0 < result) × (result ≤ whole) }
    {
        self.share.parts()
    }
}
