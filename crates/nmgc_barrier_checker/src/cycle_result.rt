//! The result of a closed cycle. A runtime's reports of marked or freed names are compared with it. A runtime may report
//! freed names in many lines, so a line makes no set: each name is found by a binary search in the cycle's names.
//!
//! Easy to get wrong: a name made since the cycle began isn't in the snapshot, so the cycle doesn't show that it is garbage.
//! A sweep that frees it is wrong, whether or not something refers to it.
ghost use Rattle.std.specs.Prelude.{◌≡◌, ◌↔◌, slice_index_or, IfOk, IsTrue, Contains};
ghost use Rattle.nmgc_world_spec.specs.declared.value.Name.{Name as NameAt};
ghost use Rattle.nmgc_graph.specs.{Marks.IsMarked, Search.IsSetOf};
ghost use Rattle.nmgc_barrier_checker.specs.Watching.{IsMissingIf, IsUnknownIf, is_old};

use crate::event::Why;
use crate::sorted_names::SortedNames;
use nmgc_graph::{Marks, World};
use nmgc_lists::{List, NoMemory};
use nmgc_world_spec::Name;

/// The world after a cycle, and the names that reports are compared with.
///
/// - `kept`: the names of the snapshot that the commands and the pushes keep, in order.
/// - `needed`: names, in order, not to be freed if the same weak pointers die: commands or living weak pointers keep them.
/// - `old`: the number of names of each mutator in the snapshot. A name whose serial isn't below it was made since.
#[derive(Drop)]
pub struct CycleResult {
    pub world: World,
    pub kept: SortedNames,
    pub needed: SortedNames,
    pub old: List<u32>,
}

impl CycleResult {
    ghost use Rattle.nmgc_barrier_checker.specs.Watching.{IsMarkedIf, IsBlackIf, IsBlackName, IsUnkeptIf, IsFreedIf};

    /// Returns the reason, if any, why the runtime can't have marked exactly these names: a kept name isn't among them, or
    /// one of them isn't kept. Takes memory and time for each kept name, and a binary search for each reported name.
    pub fn reason_against_marked(&self, names: &[Name]) -> Result<Option<Why>, NoMemory>
        ensures { IfOk result (IsMarkedIf names.now self.now) }
    {
        if let Some(name) = self.kept.first_left_out(self.world.alloc(), names)? {
            return Ok(Some(Why::NotListed(name)));
        }
        match self.kept.first_missing(names) {
            Some(name) => Ok(Some(Why::NotMarked(name))),
            None => Ok(None),
        }
    }

    /// Returns the reason, if any, why the runtime can't have marked exactly these names, if those made since the snapshot
    /// don't count. A name isn't in the heap, a kept name isn't among them, or a name of the snapshot among them isn't kept.
    /// Takes memory and time for each kept name, and a binary search for each reported name.
    pub fn reason_against_black(&self, names: &[Name]) -> Result<Option<Why>, NoMemory>
        ensures { IfOk result (IsBlackIf names.now self.now) }
    {
        if let Some(name) = first_unknown(&self.world, names) {
            return Ok(Some(Why::NoSuchName(name)));
        }
        if let Some(name) = self.kept.first_left_out(self.world.alloc(), names)? {
            return Ok(Some(Why::NotListed(name)));
        }
        match self.first_unkept(names) {
            Some(name) => Ok(Some(Why::NotMarked(name))),
            None => Ok(None),
        }
    }

    // Returns the first of these names that the snapshot has and the cycle didn't keep, if any.
    fn first_unkept(&self, names: &[Name]) -> Option<Name>
        ensures { IsUnkeptIf names.now self.now result }
    {
        for name in names {
            if !self.may_be_black(*name) {
                return Some(*name);
            }
        }
        None
    }

    // Whether a marked name may be this name: it was made since the snapshot, or the cycle kept it.
    fn may_be_black(&self, name: Name) -> bool
        ensures { IsBlackName self.now name result }
    {
        if !is_old(self.old.items(), name) {
            return true;
        }
        self.kept.has(name)
    }

    /// Returns the reason, if any, why the runtime can't have freed these names. Each name has to be in the heap and in the
    /// snapshot, and neither commands nor a weak pointer that lives on may need it. Takes no memory, and time for each name
    /// times the logarithm of the number of needed names.
    pub fn reason_against_freed(&self, names: &[Name]) -> Option<Why>
        ensures { IsFreedIf names.now self.now result }
    {
        let old = self.old.items();
        for name in names {
            if self.world.node(*name).is_none() {
                return Some(Why::NoSuchName(*name));
            }
            if !is_old(old, *name) {
                return Some(Why::NotOld(*name));
            }
            if self.needed.has(*name) {
                return Some(Why::Needed(*name));
            }
        }
        None
    }
}

// Returns the first of these names that the heap doesn't have, if any.
fn first_unknown(world: &World, names: &[Name]) -> Option<Name>
    ensures { IsUnknownIf world.now names.now result }
{
    for name in names {
        if world.node(*name).is_none() {
            return Some(*name);
        }
    }
    None
}

// Whether the name is g or one of a world's names. `serials` has the number of names of each mutator in that world.
fn is_old(serials: &[u32], name: Name) -> bool
    ensures { result ≡ is_old serials.now name }
{
    name == Name::SHARED || name.serial < serial_in(serials, name.maker)
}

// Returns the maker's number in `serials`, or 0 if the maker isn't a mutator.
fn serial_in(serials: &[u32], maker: u8) -> u32
    ensures { result ≡ slice_index_or serials.now maker 0 }
{
    match serials.get(maker as usize) {
        Some(count) => *count,
        None => 0,
    }
}

/// Returns the first of `others` that isn't in `names`, if any. Takes memory and time for each name of the world, for a set
/// of `names`. An item of `others` takes constant time if it is in the set, and otherwise a search of `names`.
pub(crate) fn first_missing(
    world: &World,
    names: &[Name],
    others: &[Name],
) -> Result<Option<Name>, NoMemory>
    ensures { IfOk result (IsMissingIf names.now others.now) }
{
    let set = world.set_of(names)?;
    for other in others {
        if !is_among(&set, names, *other) {
            return Ok(Some(*other));
        }
    }
    Ok(None)
}

// Whether `name` is in `names`. Requires that each name of `set` is in `names`. A name of `set` is found in constant time.
fn is_among(set: &Marks, names: &[Name], name: Name) -> bool
    requires { (n : NameAt) → IsMarked set.now n → Contains names.now n }
    ensures { IsTrue result ↔ Contains names.now name }
{
    set.contains(name) || names.contains(&name)
}
