ghost use Rattle.std.specs.Prelude.{◌≡◌, ◌<◌, ◌-◌, ◌++◌, ◌∷◌, [], length, max, position, OnOk, OnErr};

use crate::Printed;
use crate::places::{note, walk};
use indexmap::IndexMap;
use std::alloc::{AllocError, Global};
use std::marker::Model;

/// A list in which the first item that is what is sought is found by its print.
#[derive(Debug, Drop)]
pub struct OnceList<T: Printed> {
    items: Vec<T>,
    // The first place of each print.
    places: IndexMap<u128, usize>,
    // For how many more items memory was taken.
    room: usize,
}

// Clauses see the items and the room.
impl<T: Printed> Model for OnceList<T> {
    ghost use Rattle.std.specs.Prelude.{◌+◌, ◌≤◌, nat_eq, vec_len, vec_capacity};
    ghost use Rattle.indexmap.specs.IndexMap.{get, spare};
    ghost use Rattle.once_list.specs.Index.{IsIndexOf};
    ghost use Rattle.once_list.specs.Kept.{Kept};

    ghost Value = { Kept T };

    ghost view = { λ l. record { items = l.items.items; room = l.room } };

    ghost invariant = { λ l. (vec_len l.items + l.room ≤ vec_capacity l.items)
        × (l.room ≤ spare l.places)
        × IsIndexOf T.print (get nat_eq l.places) l.items.items };
}

impl<T: Printed> OnceList<T> {
    /// The list without items. It takes no memory.
    pub fn new(alloc: Global) -> OnceList<T>
        ensures { result ≡ record { items = []; room = 0 } }
    {
        OnceList {
            items: Vec::new(alloc),
            places: IndexMap::new(alloc),
            room: 0,
        }
    }

    /// Takes memory for `n` more items, where there is room for fewer. The only error is want of memory: it comes only
    /// where there is room for fewer, and then the list is as it was. The allocator is the one that the list was made with.
    pub fn reserve(&mut self, n: usize) -> Result<(), AllocError>
        ensures ok { OnOk result (self.new ≡ record self.old { room = max self.old.room n }) }
        ensures err { OnErr result (self.new ≡ self.old) }
        ensures memory { OnErr result (self.old.room < n) }
    {
        if n <= self.room {
            return Ok(());
        }
        self.items.reserve(n)?;
        self.places.reserve(n)?;
        self.room = n;
        Ok(())
    }

    /// Adds an item behind the others. There is room for it, and no memory is taken.
    pub fn push(&mut self, item: T)
        requires { 0 < self.old.room }
        ensures { self.new ≡ record {
          items = self.old.items ++ item ∷ [];
          room = self.old.room - 1;
        } }
    {
        let place = self.items.len();
        note(&mut self.places, item.print(), place);
        self.items.push_reserved(item);
        self.room -= 1;
    }

    /// The place of the first item that is what is sought, from 0.
    pub fn place(&self, sought: &T::Sought) -> Option<usize>
        ensures { result ≡ position (T.same sought.now) self.now.items }
    {
        match self.places.get(&T::sought_print(sought)) {
            Some(first) => walk(&self.items, sought, *first),
            None => None,
        }
    }

    /// How many items there are.
    pub fn len(&self) -> usize
        ensures { result ≡ length self.now.items }
    {
        self.items.len()
    }

    /// For how many more items memory was taken.
    pub fn room(&self) -> usize
        ensures { result ≡ self.now.room }
    {
        self.room
    }

    /// The items in order.
    pub fn list(&self) -> &[T]
        ensures { result.now ≡ self.now.items }
    {
        &self.items
    }
}
