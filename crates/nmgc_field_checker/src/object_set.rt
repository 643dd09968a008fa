//! Objects of a snapshot, each listed once. The flags show in constant time whether an object is there, and the list has the
//! same objects, for a loop over them. An object outside the snapshot has no flag, so it isn't added.
ghost use Rattle.std.specs.Prelude.{◌≡◌, ◌↔◌, ◌<◌, ◌^◌, [], ◌∷◌, length, All, Contains, IsTrue, IfOk, OnOk};
ghost use Rattle.nmgc_field_checker.specs.{Heaps.has_number, Sets.Joins, Sets.Grows, Sets.no_objects};

use nmgc_lists::{List, NoMemory};
use std::alloc::Global;
use std::marker::Model;

/// Objects, as flags and as a list.
#[derive(Drop)]
pub(crate) struct ObjectSet {
    objects: List<u32>,
    flags: List<bool>,
}

impl Model for ObjectSet {
    ghost use Rattle.std.specs.Prelude.{length};
    ghost use Rattle.nmgc_field_checker.specs.Sets.{Objects, AreFlags};

    ghost Value = { Objects };

    ghost view = { λ s. record { items = s.objects; bound = length s.flags } };

    ghost invariant = { λ s. AreFlags s.flags s.objects };
}

impl ObjectSet {
    /// Makes an empty set for the objects with a number below `count`. Takes memory for each of them.
    pub(crate) fn new(alloc: Global, count: u32) -> Result<Self, NoMemory>
        ensures { IfOk result (λ set. set ≡ no_objects count) }
    {
        let flags = List::from_vec(vec![in alloc; false; count as usize]?)?;
        Ok(ObjectSet {
            objects: List::new(alloc),
            flags,
        })
    }

    /// Makes a set of these objects, except objects with a number that isn't below `count`.
    pub(crate) fn of(alloc: Global, count: u32, objects: &[u32]) -> Result<Self, NoMemory>
        ensures { IfOk result (Joins (no_objects count) objects.now) }
    {
        let mut set = ObjectSet::new(alloc, count)?;
        set.extend(objects)?;
        Ok(set)
    }

    /// Returns the objects, each once. Takes no memory and constant time.
    pub(crate) fn items(&self) -> &[u32]
        ensures items { result.now ≡ self.now.items }
        ensures few { length result.now < 2 ^ 64 }
        ensures below { All (λ object. object < self.now.bound) result.now }
    {
        self.objects.items()
    }

    /// Whether the object is in the set. Takes no memory and constant time.
    pub(crate) fn has(&self, object: u32) -> bool
        ensures contains { IsTrue result ↔ Contains self.now.items object }
        ensures number { result ≡ has_number self.now.items object }
    {
        self.is_flagged(object)
    }

    // Whether the object has a flag that is set.
    fn is_flagged(&self, object: u32) -> bool
        ensures { IsTrue result ↔ Contains self.now.items object }
    {
        match self.flags.items().get(object as usize) {
            Some(flag) => *flag,
            None => false,
        }
    }

    /// Adds an object at the end, if it has a flag and isn't there already. After `NoMemory` nothing has changed.
    pub(crate) fn add(&mut self, object: u32) -> Result<(), NoMemory>
        ensures joins { OnOk result (Joins self.old (object ∷ []) self.new) }
        ensures grows { Grows self.old.items self.new.items }
        ensures bound { self.new.bound ≡ self.old.bound }
    {
        if object as usize >= self.flags.items().len() || self.has(object) {
            return Ok(());
        }
        self.objects.push(object)?;
        self.flags.items_mut()[object as usize] = true;
        Ok(())
    }

    /// Adds at the end each of the objects that has a flag and isn't there already. After `NoMemory` some may be added.
    pub(crate) fn extend(&mut self, objects: &[u32]) -> Result<(), NoMemory>
        ensures joins { OnOk result (Joins self.old objects.now self.new) }
        ensures grows { Grows self.old.items self.new.items }
        ensures bound { self.new.bound ≡ self.old.bound }
    {
        for object in objects {
            self.add(*object)?;
        }
        Ok(())
    }
}
