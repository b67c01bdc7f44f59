ghost use Rattle.std.specs.Prelude.{◌≡◌, ◌==◌, [], length};

use std::alloc::Global;
use std::marker::Model;

/// A list that contracts see as the list of its items, however much room it keeps.
///
/// It stands in fields of types that are compared with a definition's value, where a `Vec` would
/// bring its capacity with it. It is made from a `Vec`, and gives it back, without memory.
#[derive(Debug, Drop)]
pub struct Items<T> {
    vec: Vec<T>,
}

// Clauses see the items in order.
impl<T> Model for Items<T> {
    ghost use Rattle.std.specs.Prelude.{List};

    ghost Value = { List T };

    ghost view = { λ a. a.vec.items };
}

impl<T> Items<T> {
    /// No items. It takes no memory.
    pub fn new(alloc: Global) -> Items<T>
        ensures { result ≡ [] }
    {
        Items {
            vec: Vec::new(alloc),
        }
    }

    /// The items of a vector, which is kept as it is.
    pub fn from_vec(vec: Vec<T>) -> Items<T>
        ensures { result ≡ vec.items }
    {
        Items { vec }
    }

    /// The vector with the items.
    pub fn into_vec(self) -> Vec<T>
        ensures { result.items ≡ self }
    {
        self.vec
    }

    /// The items.
    pub fn as_slice(&self) -> &[T]
        ensures { result.now ≡ self.now }
    {
        self.vec.as_slice()
    }

    /// How many items there are.
    pub fn len(&self) -> usize
        ensures { result ≡ length self.now }
    {
        self.vec.len()
    }

    /// Whether there is no item.
    pub fn is_empty(&self) -> bool
        ensures { result ≡ (length self.now == 0) }
    {
        self.vec.is_empty()
    }
}
