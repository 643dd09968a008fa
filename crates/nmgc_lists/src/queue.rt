//! A queue: items are added at the end and taken from the front.
//!
//! Taking the first item moves an index and no items, so it takes constant time for every length. Taken items stay in memory.
//! A mark queue gets each name once, and a queue of owed or pushed names gets a few for each command.
ghost use Rattle.std.specs.Prelude.{◌≡◌, ◌↔◌, ◌<◌, ◌≤◌, [], ◌∷◌, ◌++◌, drop, take, length, slice_get, slice_set, IsTrue, OnOk, OnErr};

use crate::NoMemory;
use std::alloc::Global;
use std::marker::Model;

/// A list of items in order, which are taken from the front.
#[derive(Drop)]
pub struct Queue<T> {
    items: Vec<T>,
    first: usize,
}

impl<T> Model for Queue<T> {
    ghost use Rattle.std.specs.Prelude.{List, drop, ◌≤◌, vec_len};

    ghost Value = { List T };

    ghost view = { λ q. drop q.first q.items.items };

    ghost invariant = { λ q. q.first ≤ vec_len q.items };
}

impl<T> Queue<T> {
    /// Makes an empty queue. Takes no memory.
    pub fn new(alloc: Global) -> Self
        ensures { result ≡ [] }
    {
        Queue {
            items: Vec::new(alloc),
            first: 0,
        }
    }

    /// Adds an item at the end. After `NoMemory` the queue is unchanged.
    pub fn push(&mut self, item: T) -> Result<(), NoMemory>
    where
        T: Drop,
        ensures ok { OnOk result (self.new ≡ self.old ++ item ∷ []) }
        ensures err { OnErr result (self.new ≡ self.old) }
    {
        self.items.push(item)?;
        Ok(())
    }

    /// Adds items at the end. After `NoMemory` the queue is unchanged.
    pub fn extend(&mut self, items: &[T]) -> Result<(), NoMemory>
    where
        T: Copy,
        ensures ok { OnOk result (self.new ≡ self.old ++ items.now) }
        ensures err { OnErr result (self.new ≡ self.old) }
    {
        self.items.extend_from_slice(items)?;
        Ok(())
    }

    /// Drops all items except the first `count`, to take back additions. Requires at least `count` items. Takes no memory.
    pub fn truncate(&mut self, count: usize)
    where
        T: Drop,
        requires { count ≤ length self.old }
        ensures { self.new ≡ take count self.old }
    {
        self.items.truncate(self.first + count);
    }

    /// Replaces the first item. The queue may not be empty. Takes no memory, and constant time.
    pub fn replace_first(&mut self, item: T)
    where
        T: Drop,
        requires { 0 < length self.old }
        ensures { self.new ≡ slice_set self.old 0 item }
    {
        self.items[self.first] = item;
    }

    /// Takes the first item off the queue and returns it. Returns `None` exactly if the queue is empty.
    pub fn take_first(&mut self) -> Option<T>
    where
        T: Copy,
        ensures first { result ≡ slice_get self.old 0 }
        ensures rest { self.new ≡ drop 1 self.old }
    {
        let first = self.items.get(self.first).copied()?;
        self.first += 1;
        Some(first)
    }

    /// Returns the first item, or `None` exactly if the queue is empty.
    pub fn first(&self) -> Option<T>
    where
        T: Copy,
        ensures { result ≡ slice_get self.now 0 }
    {
        self.items().first().copied()
    }

    /// Whether the queue is empty.
    pub fn is_empty(&self) -> bool
        ensures { IsTrue result ↔ (self.now ≡ []) }
    {
        self.items().is_empty()
    }

    /// Returns the items in order.
    pub fn items(&self) -> &[T]
        ensures { result.now ≡ self.now }
    {
        &self.items[self.first..]
    }
}
