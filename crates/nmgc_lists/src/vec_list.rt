//! Items that always lie in a vector.
//!
//! A `List` checks at each access whether its items lie in itself or in a vector. Items that are accessed all the time are in
//! a `VecList`: the registers of a mutator, the rings of a marker. An access is then an access to the vector. The memory for
//! the items as a list is allocated at the beginning, so the conversion takes none.
//!
//! Easy to get wrong: nothing can be added. A list that has to grow is a `Room`.
ghost use Rattle.std.specs.Prelude.{◌≡◌};

use crate::list::{List, ListMemory};
use std::marker::Model;

/// A list whose items lie in a vector of its own. Contracts see it as a list.
#[derive(Drop)]
pub struct VecList<T> {
    items: Vec<T>,
    place: ListMemory<T>,
}

impl<T> Model for VecList<T> {
    ghost use Rattle.std.specs.Prelude.{List};

    ghost Value = { List T };

    ghost view = { λ p. p.items.items };
}

impl<T> VecList<T> {
    ghost use Rattle.std.specs.Borrow.{sem};
    ghost use Rattle.nmgc_lists.specs.PlacedLends.{LendsItems};

    /// Makes a list of a vector's items. `place` is the memory that `into_list` will use. Takes no memory.
    pub fn from_vec(items: Vec<T>, place: ListMemory<T>) -> Self
        ensures { result ≡ items.items }
    {
        VecList { items, place }
    }

    /// Returns the items in order. Takes no memory.
    pub fn items(&self) -> &[T]
        ensures { result.now ≡ self.now }
    {
        self.items.as_slice()
    }

    /// Lends the items in order, for writing. Takes no memory.
    pub fn items_mut(&mut self) -> &mut [T]
        ensures* writes_back { sem 𝓛 (LendsItems T.row self.entry result) }
        ensures value { result.now ≡ self.old }
    {
        self.items.as_mut_slice()
    }

    /// Turns the list into a `List` with the same items, and returns it. Takes no memory, and constant time.
    pub fn into_list(self) -> List<T>
    where
        T: Drop,
        ensures { result ≡ self }
    {
        let VecList { items, place } = self;
        List::from_vec_in(items, place)
    }
}
