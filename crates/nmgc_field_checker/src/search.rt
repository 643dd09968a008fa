//! The objects of a heap that others lead to.
ghost use Rattle.std.specs.Prelude.{◌≡◌, OnOk};
ghost use Rattle.std.specs.Option.{option_to_list};
ghost use Rattle.nmgc_world_spec.specs.World.{serial_of};
ghost use Rattle.nmgc_field_checker.specs.{Sets.Grows, Sets.Joins, Heaps.AddsTargets, Heaps.AreFollowed};

use crate::heap::FieldHeap;
use crate::object_set::ObjectSet;
use nmgc_lists::NoMemory;

/// Adds to a set of objects all objects that the fields of the heap lead to from there. Takes time for each object and field.
pub(crate) fn follow(heap: &FieldHeap, found: &mut ObjectSet) -> Result<(), NoMemory>
    requires { found.old.bound ≡ serial_of heap.now 0 }
    ensures { OnOk result (AreFollowed heap.now found.old found.new) }
{
    for place in 0..usize::MAX {
        if place >= found.items().len() {
            return Ok(());
        }
        let object = found.items()[place];
        add_targets(heap, object, found)?;
    }
    // A list has at most `usize::MAX` objects, so each was followed.
    let _ = found.items();
    Ok(())
}

// Adds the objects in the fields of an object.
fn add_targets(heap: &FieldHeap, object: u32, found: &mut ObjectSet) -> Result<(), NoMemory>
    requires { found.old.bound ≡ serial_of heap.now 0 }
    ensures { OnOk result (AddsTargets heap.now object found.old found.new) }
{
    for field in heap.fields(object) {
        add_target(*field, found)?;
    }
    Ok(())
}

// Adds the object in a field, if there is one.
fn add_target(field: Option<u32>, found: &mut ObjectSet) -> Result<(), NoMemory>
    ensures joins { OnOk result (Joins found.old (option_to_list field) found.new) }
    ensures grows { Grows found.old.items found.new.items }
{
    match field {
        Some(target) => found.add(target),
        None => Ok(()),
    }
}
