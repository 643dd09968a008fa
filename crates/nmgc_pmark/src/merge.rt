//! The names that all markers listed, as one list in order.
ghost use Rattle.std.specs.Prelude.{ℕ, List, ◌≡◌, flat_map, IfOk};
ghost use Rattle.nmgc_world_spec.specs.{declared.value.Name.Name as NameOf, declared.value.Value.Value, Reach.Lists, World.World};
ghost use Rattle.nmgc_pmark.specs.{Claims.AreClaims, Strong.IsStrong, Names.ArePutInOrder};

use crate::claims::Claims;
use crate::order::sort;
use nmgc_lists::{List, NoMemory};
use nmgc_world_spec::Name;
use std::alloc::Global;

/// Returns the names in all markers' lists as one list, in order. Suppose that the lists are claims for a world and roots
/// (`AreClaims`). Then the result has each name except g reachable along strong fields from the roots and the slots of g,
/// once. Takes memory for the names. Puts them in order faster if there is memory for a copy.
pub fn names_of(alloc: Global, claims: &Claims) -> Result<List<Name>, NoMemory>
    ensures { IfOk result (λ names. (w : World) (roots : List Value) (markers : ℕ) → AreClaims w roots markers claims.now.by → Lists (IsStrong w roots) names) }
{
    let names = join_lists(alloc, claims.by.items())?;
    sort_names(alloc, names)
}

// Puts the names in order, and returns them as a list.
fn sort_names(alloc: Global, names: Vec<Name>) -> Result<List<Name>, NoMemory>
    ensures { IfOk result (λ list. ArePutInOrder names.items list) }
{
    let mut names = names;
    sort(names.as_mut_slice(), alloc);
    List::from_vec(names)
}

// Returns the names of all lists as one vector, list after list.
fn join_lists(alloc: Global, by: &[List<Name>]) -> Result<Vec<Name>, NoMemory>
    ensures { IfOk result (λ names. names.items ≡ flat_map (λ (own : List NameOf). own) by.now) }
{
    let mut names = Vec::new(alloc);
    for own in by {
        names.extend_from_slice(own.items())?;
    }
    Ok(names)
}
