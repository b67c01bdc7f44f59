ghost use Rattle.std.specs.Prelude.{◌≡◌, ◌+◌, ◌<◌, ◌≤◌, IsNone, IfNone, IfSome, ◌↔◌};
ghost use Rattle.ar_seats.specs.Shares.{given_of, left_of, whole};

use std::marker::Model;

/// The share of a seat: a number from 1 to 2^32.
///
/// It cannot be copied. All shares that come of one whole share are together 2^32.
#[derive(Debug, Drop)]
pub struct Share {
    parts: u64,
}

// Clauses see the number.
impl Model for Share {
    ghost use Rattle.std.specs.Prelude.{ℕ, ◌<◌, ◌≤◌};
    ghost use Rattle.ar_seats.specs.Shares.{whole};

    ghost Value = { ℕ };

    ghost view = { λ share. share.parts };

    ghost invariant = { λ share. (0 < share.parts) × (share.parts ≤ whole) };
}

impl Share {
    /// All of it.
    pub fn whole() -> Share
        ensures { result ≡ whole }
    {
        Share { parts: 1 << 32 }
    }

    /// The number.
    pub fn parts(&self) -> u64
        ensures number { result ≡ self.now }
        ensures bounds { (0 < result) × (result ≤ whole) }
    {
        self.parts
    }

    /// Keeps the greater half and gives the rest. There is none exactly where the share is 1, which
    /// then stays.
    pub fn split(&mut self) -> Option<Share>
        ensures none { IsNone result ↔ (self.old ≡ 1) }
        ensures stays { IfNone result (self.new ≡ self.old) }
        ensures halves { IfSome result (λ share.
            (share ≡ given_of self.old) × (self.new ≡ left_of self.old)) }
    {
        if self.parts == 1 {
            return None;
        }
        let given = self.parts / 2;
        self.parts -= given;
        Some(Share { parts: given })
    }

    /// Takes in another share of the same whole.
    pub fn join(&mut self, other: Share)
        requires { self.old + other ≤ whole }
        ensures { self.new ≡ self.old + other }
    {
        self.parts += other.parts;
    }
}
