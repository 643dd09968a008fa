//! The objects of the snapshot that lines stored, each with the first such line.
ghost use Rattle.std.specs.Prelude.{◌≡◌, ◌<◌, [], ◌∷◌, All, IfOk, OnOk};
ghost use Rattle.nmgc_field_checker.specs.Stores.{AddsStores, IsEarlier, IsEarliestIf, IsOutside, no_stores, store_line};

use crate::event::FieldStore;
use crate::object_set::ObjectSet;
use nmgc_lists::{List, NoMemory};
use std::alloc::Global;
use std::marker::Model;

/// Stored objects, each once, in the order of their first lines.
#[derive(Drop)]
pub(crate) struct Stores {
    stores: List<FieldStore>,
    flags: List<bool>,
}

impl Model for Stores {
    ghost use Rattle.std.specs.Prelude.{length, map};
    ghost use Rattle.nmgc_field_checker.specs.{Sets.AreFlags, Stores.Stored, Stores.object_of};

    ghost Value = { Stored };

    ghost view = { λ s. record { items = s.stores; bound = length s.flags } };

    ghost invariant = { λ s. AreFlags s.flags (map object_of s.stores) };
}

impl Stores {
    /// Makes the stores of a cycle without lines, over `count` objects.
    pub(crate) fn new(alloc: Global, count: u32) -> Result<Self, NoMemory>
        ensures { IfOk result (λ stores. stores ≡ no_stores count) }
    {
        let flags = List::from_vec(vec![in alloc; false; count as usize]?)?;
        Ok(Stores {
            stores: List::new(alloc),
            flags,
        })
    }

    /// Adds the objects that a line stored, except those that are there. Requires objects of the snapshot. After `NoMemory`
    /// some may be added.
    pub(crate) fn add_all(&mut self, line: usize, objects: &[u32]) -> Result<(), NoMemory>
        requires { All (λ object. object < self.old.bound) objects.now }
        ensures adds { OnOk result (AddsStores line objects.now self.old self.new) }
        ensures bound { self.new.bound ≡ self.old.bound }
    {
        for object in objects {
            self.add(line, *object)?;
        }
        Ok(())
    }

    // Adds an object that a line stored, unless it is there.
    fn add(&mut self, line: usize, object: u32) -> Result<(), NoMemory>
        requires { object < self.old.bound }
        ensures adds { OnOk result (AddsStores line (object ∷ []) self.old self.new) }
        ensures bound { self.new.bound ≡ self.old.bound }
    {
        if self.flags.items()[object as usize] {
            return Ok(());
        }
        self.stores.push(FieldStore { object, line })?;
        self.flags.items_mut()[object as usize] = true;
        Ok(())
    }

    /// Returns the store of the least line whose object isn't in a set, or `None` if each object is.
    pub(crate) fn first_outside(&self, kept: &ObjectSet) -> Option<FieldStore>
        ensures { IsEarliestIf store_line (IsOutside self.now.items kept.now.items) result }
    {
        let mut least: Option<FieldStore> = None;
        for store in self.stores.items() {
            if !kept.has(store.object) {
                least = Some(earlier(*store, least));
            }
        }
        least
    }

    /// Returns the last line that is kept, or `None` if there is none.
    pub(crate) fn last_line(&self) -> Option<usize> {
        match self.stores.items().last() {
            Some(store) => Some(store.line),
            None => None,
        }
    }
}

// Returns the store of the lesser line, or the one that there is.
fn earlier(store: FieldStore, least: Option<FieldStore>) -> FieldStore
    ensures { IsEarlier store_line store least result }
{
    match least {
        Some(other) if other.line <= store.line => other,
        _ => store,
    }
}
