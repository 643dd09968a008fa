//! A list that takes its memory before it is filled.
//!
//! Parts of the collector may not fail half way. They reserve room while a failure is still harmless, and add items later,
//! when no memory may be taken. So contracts see two things of a room: its items, and the number of further items for which
//! it has room. Only adding an item uses room up, for one item.
ghost use Rattle.std.specs.Prelude.{◌≡◌, ◌+◌, ◌<◌, ◌≤◌, [], ◌∷◌, ◌++◌, length, OnOk, OnErr, IfSome, IfNone};

use crate::NoMemory;
use std::alloc::Global;
use std::marker::Model;

/// A list of items in order, and room for more.
#[derive(Drop)]
pub struct Room<T> {
    items: Vec<T>,
}

impl<T> Model for Room<T> {
    ghost use Rattle.std.specs.Prelude.{◌-◌, vec_len, vec_capacity};
    ghost use Rattle.nmgc_lists.specs.Room.{Room, room_code};

    ghost Value = { Room T };

    ghost coded = { room_code T.code };

    ghost view = { λ a. record {
      items = a.items.items;
      spare = vec_capacity a.items - vec_len a.items;
    } };
}

impl<T> Room<T> {
    ghost use Rattle.std.specs.Borrow.{sem};
    ghost use Rattle.nmgc_lists.specs.RoomLends.{LendsItems};

    /// Makes an empty list without room. Takes no memory.
    pub fn new(alloc: Global) -> Self
        ensures items { result.items ≡ [] }
        ensures spare { result.spare ≡ 0 }
    {
        Room {
            items: Vec::new(alloc),
        }
    }

    /// Makes room for at least `more` further items. The items stay, and no room is lost. After `NoMemory` nothing changed.
    pub fn reserve(&mut self, more: u32) -> Result<(), NoMemory>
        ensures items { self.new.items ≡ self.old.items }
        ensures ok { OnOk result (more ≤ self.new.spare) }
        ensures kept { self.old.spare ≤ self.new.spare }
        ensures err { OnErr result (self.new ≡ self.old) }
    {
        self.items.reserve(more as usize)?;
        Ok(())
    }

    /// Adds an item at the end. There has to be room for the item. Takes no memory, and constant time.
    pub fn add(&mut self, item: T)
        requires { 0 < self.old.spare }
        ensures items { self.new.items ≡ self.old.items ++ item ∷ [] }
        ensures spare { self.new.spare + 1 ≡ self.old.spare }
    {
        self.items.push_reserved(item);
    }

    /// Takes the last item off and returns it. Returns `None`, and changes nothing, exactly if there is none. The item's room
    /// is free again. Takes no memory, and constant time.
    pub fn take_last(&mut self) -> Option<T>
        ensures some { IfSome result (λ item. (self.old.items ≡ self.new.items ++ item ∷ []) × (self.new.spare ≡ self.old.spare + 1)) }
        ensures none { IfNone result ((self.old.items ≡ []) × (self.new ≡ self.old)) }
    {
        self.items.pop()
    }

    /// Returns the items in order.
    pub fn items(&self) -> &[T]
        ensures { result.now ≡ self.now.items }
    {
        self.items.as_slice()
    }

    /// Lends the items in order, for writing.
    pub fn items_mut(&mut self) -> &mut [T]
        ensures* writes_back { sem 𝓛 (LendsItems T.row self.entry result) }
        ensures value { result.now ≡ self.old.items }
    {
        self.items.as_mut_slice()
    }

    /// Drops all items. The list keeps its memory, so the items' room is free again.
    pub fn clear(&mut self)
    where
        T: Drop,
        ensures items { self.new.items ≡ [] }
        ensures kept { self.new.spare ≡ self.old.spare + length self.old.items }
    {
        self.items.clear();
    }
}
