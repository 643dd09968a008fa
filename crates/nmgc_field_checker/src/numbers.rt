//! A set of mutators, by their numbers. It takes memory for each, and each look-up takes the logarithm of their number.
ghost use Rattle.std.specs.Prelude.{◌≡◌, ◌↔◌, [], Contains, IsTrue, IfOk, OnOk};
ghost use Rattle.nmgc_barrier_laws.specs.FieldCycle.{AreWithout};
ghost use Rattle.nmgc_field_checker.specs.Sets.{AreAdded, AreSame, IsLeast};

use nmgc_lists::NoMemory;
use std::alloc::Global;
use std::collections::BTreeSet;
use std::marker::Model;

/// Numbers of mutators, each once.
#[derive(Drop)]
pub(crate) struct Numbers {
    set: BTreeSet<u64>,
}

impl Model for Numbers {
    ghost use Rattle.std.specs.Prelude.{ℕ, List};

    ghost Value = { List ℕ };

    ghost view = { λ n. n.set.keys };
}

impl Numbers {
    /// Makes the set without numbers. Takes no memory.
    pub(crate) fn new(alloc: Global) -> Self
        ensures { result ≡ [] }
    {
        Numbers {
            set: BTreeSet::new(alloc),
        }
    }

    /// Whether the number is there.
    pub(crate) fn has(&self, number: u64) -> bool
        ensures { IsTrue result ↔ Contains self.now number }
    {
        self.set.contains(&number)
    }

    /// Adds a number. After `NoMemory` nothing has changed.
    pub(crate) fn add(&mut self, number: u64) -> Result<(), NoMemory>
        ensures { OnOk result (AreAdded self.old number self.new) }
    {
        self.set.insert(number)?;
        Ok(())
    }

    /// Removes a number, if it is there.
    pub(crate) fn remove(&mut self, number: u64)
        ensures { AreWithout self.old number self.new }
    {
        self.set.remove(&number);
    }

    /// Returns the least number, or `None` if there are none.
    pub(crate) fn first(&self) -> Option<u64>
        ensures { IsLeast self.now result }
    {
        match self.set.first() {
            Some(number) => Some(*number),
            None => None,
        }
    }

    /// Returns a set of the same numbers.
    pub(crate) fn copy(&self) -> Result<Self, NoMemory>
        ensures { IfOk result (AreSame self.now) }
    {
        Ok(Numbers {
            set: self.set.clone()?,
        })
    }
}
