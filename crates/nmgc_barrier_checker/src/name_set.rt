//! Names of a snapshot, each listed once. The set shows in constant time whether a name is there, and the list has the same
//! names, for a loop over them. A name outside the snapshot has no position in the set, so it isn't added.
ghost use Rattle.std.specs.Prelude.{◌≡◌, ◌↔◌, [], false, IsTrue, IfOk, OnOk, OnErr};
ghost use Rattle.nmgc_world_spec.specs.declared.value.Name.{Name as NameAt};
ghost use Rattle.nmgc_graph.specs.Marks.{HasPlaces, mark_of};
ghost use Rattle.nmgc_barrier_checker.specs.NameSet.{IsListed, Joins, joined};

use nmgc_graph::{Marks, World};
use nmgc_lists::{List, NoMemory};
use nmgc_world_spec::Name;

/// Names, as a set and as a list.
#[derive(Drop)]
pub(crate) struct NameSet {
    pub(crate) set: Marks,
    pub(crate) names: List<Name>,
}

impl NameSet {
    /// Makes an empty set and list. Takes memory for each name of the snapshot.
    pub(crate) fn new(snapshot: &World) -> Result<Self, NoMemory>
        ensures listed { IfOk result (IsListed snapshot.now) }
        ensures none { IfOk result (λ listed. listed.names ≡ []) }
        ensures free { IfOk result (λ listed. (name : NameAt) → mark_of listed.set name ≡ false) }
    {
        let set = snapshot.empty_set()?;
        let names = List::new(snapshot.alloc());
        Ok(NameSet { set, names })
    }

    /// Whether the list is empty. Takes no memory and constant time.
    pub(crate) fn is_empty(&self) -> bool
        ensures { IsTrue result ↔ (self.now.names ≡ []) }
    {
        self.names.items().is_empty()
    }

    /// Whether the name is in the set. Takes no memory and constant time.
    pub(crate) fn has(&self, name: Name) -> bool
        ensures { result ≡ mark_of self.now.set name }
    {
        self.set.contains(name)
    }

    /// Adds a name if the snapshot has it and it isn't there already. Requires that the set has a position for each name of
    /// the snapshot. After `NoMemory` nothing has changed. Takes amortised constant time.
    pub(crate) fn add(&mut self, snapshot: &World, name: Name) -> Result<(), NoMemory>
        requires { HasPlaces snapshot.now self.old.set }
        ensures ok { OnOk result (self.new ≡ joined snapshot.now self.old name) }
        ensures err { OnErr result (self.new ≡ self.old) }
    {
        if snapshot.node(name).is_none() || self.set.contains(name) {
            return Ok(());
        }
        self.names.push(name)?;
        self.set.insert(name);
        Ok(())
    }

    /// Adds each of `names` that the snapshot has and that isn't there already. Requires that set and list agree
    /// (`IsListed`). After `NoMemory` some may be added. Takes amortised constant time for each.
    pub(crate) fn extend(&mut self, snapshot: &World, names: &[Name]) -> Result<(), NoMemory>
        requires { IsListed snapshot.now self.old }
        ensures listed { IsListed snapshot.now self.new }
        ensures joins { OnOk result (Joins snapshot.now self.old.names names.now self.new.names) }
    {
        for name in names {
            self.add(snapshot, *name)?;
        }
        Ok(())
    }
}
