//! Names in order, each once. A name is found by a binary search, without a set. So a report on a cycle takes time for the
//! reported and the kept names, and not for all names that the heap ever had.
ghost use Rattle.std.specs.Prelude.{◌≡◌, ◌↔◌, IsTrue, IfSome, IfNone, IfOk, Contains};
ghost use Rattle.nmgc_world_spec.specs.Reach.{IsBefore, IsInOrder};
ghost use Rattle.nmgc_barrier_checker.specs.{SortedNames.StandsAt, SortedNames.IsPlaceOf, SortedNames.AreMet, Watching.IsMissingIf};

use nmgc_lists::{List, NoMemory};
use nmgc_world_spec::Name;
use std::alloc::Global;
use std::marker::Model;

/// Names, each once, ordered by maker and then by serial. Contracts see the list of them.
#[derive(Drop)]
pub struct SortedNames {
    names: List<Name>,
}

impl Model for SortedNames {
    ghost use Rattle.std.specs.Prelude.{List};
    ghost use Rattle.nmgc_world_spec.specs.{declared.value.Name.Name as NameAt, Reach.IsInOrder};

    ghost Value = { List NameAt };

    ghost view = { λ o. o.names };

    ghost invariant = { λ o. IsInOrder o.names };
}

impl SortedNames {
    /// Makes sorted names of a list. Requires that the list is in order, each name once.
    pub(crate) fn new(names: List<Name>) -> Self
        requires { IsInOrder names }
        ensures { result ≡ names }
    {
        SortedNames { names }
    }

    /// Returns the names in order. Takes no memory and constant time.
    pub fn items(&self) -> &[Name]
        ensures { result.now ≡ self.now }
    {
        self.names.items()
    }

    /// Whether the name is among these names. Takes no memory, and time for the logarithm of the number of names.
    pub fn has(&self, name: Name) -> bool
        ensures { IsTrue result ↔ Contains self.now name }
    {
        self.find(name).is_some()
    }

    /// Returns the first of `others` that isn't among these names, if any. Takes no memory, and the time of `has` for each.
    pub(crate) fn first_missing(&self, others: &[Name]) -> Option<Name>
        ensures { IsMissingIf self.now others.now result }
    {
        for other in others {
            if !self.has(*other) {
                return Some(*other);
            }
        }
        None
    }

    /// Returns the first of these names that isn't in `others`, if any. Takes memory and time for each of these names, and
    /// the time of `has` for each of `others`.
    pub(crate) fn first_left_out(
        &self,
        alloc: Global,
        others: &[Name],
    ) -> Result<Option<Name>, NoMemory>
        ensures { IfOk result (IsMissingIf others.now self.now) }
    {
        let met = self.which_are_in(alloc, others)?;
        let names = self.names.items();
        for place in 0..names.len() {
            if !met[place] {
                return Ok(Some(names[place]));
            }
        }
        Ok(None)
    }

    // Returns, for each of these names, whether it is in `others`.
    fn which_are_in(&self, alloc: Global, others: &[Name]) -> Result<Vec<bool>, NoMemory>
        ensures { IfOk result (λ met. AreMet self.now others.now met.items) }
    {
        let mut met = vec![in alloc; false; self.names.items().len()]?;
        for other in others {
            if let Some(place) = self.find(*other) {
                met[place] = true;
            }
        }
        Ok(met)
    }

    // Returns the position of the name, or `None` if it isn't among these names.
    fn find(&self, name: Name) -> Option<usize>
        ensures some { IfSome result (λ place. StandsAt self.now place name) }
        ensures none { IfNone result (Contains self.now name → ⊥) }
    {
        let names = self.names.items();
        let place = place_of(names, name);
        if place < names.len() && names[place] == name {
            return Some(place);
        }
        None
    }
}

// Returns the number of names that come before this name, which is its position if it is there. Requires names in order.
fn place_of(names: &[Name], name: Name) -> usize
    requires { IsInOrder names.now }
    ensures { IsPlaceOf names.now name result }
{
    let mut least = 0;
    let mut end = names.len();
    while least < end {
        let middle = least + (end - least) / 2;
        if is_before(names[middle], name) {
            least = middle + 1;
        } else {
            end = middle;
        }
    }
    least
}

/// Whether the name `a` comes before `b`: by maker, and then by serial.
pub(crate) fn is_before(a: Name, b: Name) -> bool
    ensures { IsTrue result ↔ IsBefore a b }
{
    a.maker < b.maker || (a.maker == b.maker && a.serial < b.serial)
}
