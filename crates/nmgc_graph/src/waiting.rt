//! An index of weak pointers by the names that they wait for.
//!
//! A weak pointer waits for its key: it becomes live when the key is live. So when the search takes up a name, it has to find
//! exactly the weak pointers that wait for this name. They are in a list, and a position in the list represents a weak
//! pointer. The index has a bound for each name. The weak pointers that wait for the name have positions below the bound, and
//! the last is just below it. For each weak pointer the index also has the bound that its key had before, which leads to the
//! weak pointer before it with the same key. So adding a weak pointer takes constant time, and going over those that wait for
//! a name takes time for these alone.
//!
//! Easy to get wrong: a bound is one more than a position, and 0 if no weak pointer waits. Each bound leads to a smaller
//! bound, so going over the weak pointers of a name ends.
ghost use Rattle.std.specs.Prelude.{◌≡◌, ◌<◌, ◌≤◌, ◌^◌, [], ◌∷◌, ◌++◌, length, replicate, slice_index, slice_set, OnOk, IfSome};

use nmgc_lists::{List, NoMemory};
use nmgc_world_spec::Name;
use std::alloc::Global;

/// The bound of each name, and for each weak pointer the bound that its key had before.
#[derive(Drop)]
pub(crate) struct Waiting {
    pub(crate) bounds: List<List<usize>>,
    pub(crate) before: List<usize>,
}

impl Waiting {
    ghost use Rattle.nmgc_graph.specs.Waiting.{HasBound, bound_of, with_next};

    /// Makes an index without weak pointers and without places for bounds. Takes no memory.
    pub(crate) fn new(alloc: Global) -> Self
        ensures { result ≡ record { bounds = []; before = [] } }
    {
        Waiting {
            bounds: List::new(alloc),
            before: List::new(alloc),
        }
    }

    /// Makes places for the bounds of `count` names of the next maker. No weak pointer waits for these names yet.
    pub(crate) fn add_maker(&mut self, alloc: Global, count: usize) -> Result<(), NoMemory>
        ensures { OnOk result (self.new ≡ record { bounds = self.old.bounds ++ replicate count 0 ∷ []; before = self.old.before }) }
    {
        let row = List::from_vec(vec![in alloc; 0usize; count]?)?;
        self.bounds.push(row)
    }

    /// Adds the list's next weak pointer, which waits for the name in `key`, if any, to the index. Takes constant time.
    pub(crate) fn add(&mut self, key: Option<Name>) -> Result<(), NoMemory>
        requires { IfSome key (HasBound self.old.bounds) }
        ensures { OnOk result (self.new ≡ with_next self.old key) }
    {
        let bound = self.before.items().len() + 1;
        let before = match key {
            Some(name) => replace_bound(
                &mut self.bounds.items_mut()[name.maker as usize],
                name.serial,
                bound,
            ),
            None => 0,
        };
        self.before.push(before)
    }

    /// Returns the bound of a name, and 0 if no weak pointer waits for the name. Takes constant time.
    pub(crate) fn bound(&self, name: Name) -> usize
        ensures { result ≡ bound_of self.now.bounds name }
    {
        match self.bounds.items().get(name.maker as usize) {
            Some(row) => bound_in(row.items(), name.serial),
            None => 0,
        }
    }

    /// Returns the bound that the key of the weak pointer at `place` had before this weak pointer was added, and 0 if this
    /// weak pointer waits for no name. Takes constant time.
    pub(crate) fn bound_before(&self, place: usize) -> usize
        requires { place < length self.now.before }
        ensures { result ≡ slice_index self.now.before place }
    {
        self.before.items()[place]
    }
}

// Replaces the bound of a serial, and returns the bound that was there before.
fn replace_bound(row: &mut List<usize>, serial: u32, bound: usize) -> usize
    requires { serial < length row.old }
    ensures before { result ≡ slice_index row.old serial }
    ensures row { row.new ≡ slice_set row.old serial bound }
{
    let place = &mut row.items_mut()[serial as usize];
    let before = *place;
    *place = bound;
    before
}

// Returns the bound of a serial, or 0 if there is no place for it.
fn bound_in(row: &[usize], serial: u32) -> usize
    ensures { result ≡ slice_index row.now serial }
{
    match row.get(serial as usize) {
        Some(bound) => *bound,
        None => 0,
    }
}
