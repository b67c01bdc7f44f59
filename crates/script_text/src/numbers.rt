ghost use Rattle.std.specs.Prelude.{◌≡◌, ◌==◌, ◌<◌, ◌≤◌, ◌∷◌, ◌++◌, [], length};

use std::marker::Model;

/// At most 16 numbers, which are kept without memory of their own.
#[derive(Debug, Drop)]
pub struct NumberList {
    len: usize,
    list: [u64; 16],
}

// Clauses see the numbers in order.
impl Model for NumberList {
    ghost use Rattle.std.specs.Prelude.{ℕ, List, ◌≤◌, take};

    ghost Value = { List ℕ };

    ghost view = { λ n. take n.len n.list };

    ghost invariant = { λ n. n.len ≤ 16 };
}

impl NumberList {
    /// No numbers.
    pub fn new() -> NumberList
        ensures { result ≡ [] }
    {
        NumberList {
            len: 0,
            list: [0; 16],
        }
    }

    /// The numbers.
    pub fn as_slice(&self) -> &[u64]
        ensures { result.now ≡ self.now }
    {
        &self.list[..self.len]
    }

    /// How many numbers there are.
    pub fn len(&self) -> usize
        ensures value { result ≡ length self.now }
        ensures most { result ≤ 16 }
    {
        self.len
    }

    /// Whether there is no number.
    pub fn is_empty(&self) -> bool
        ensures { result ≡ (length self.now == 0) }
    {
        self.len == 0
    }

    /// The numbers with one more.
    pub(crate) fn with(self, number: u64) -> NumberList
        requires { length self < 16 }
        ensures { result ≡ self ++ (number ∷ []) }
    {
        let mut list = self.list;
        list[self.len] = number;
        NumberList {
            len: self.len + 1,
            list,
        }
    }
}
