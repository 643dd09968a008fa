//! A heap of objects and their fields. An object's number is its position, so a look-up takes constant time.

ghost use Rattle.std.specs.Prelude.{◌≡◌, ◌↔◌, ◌<◌, ◌≤◌, ◌+◌, ◌-◌, ◌^◌, ◌++◌, ◌⊎◌, [], ℕ, List, Option, length, map, take, drop, replicate, Some, None, All, IsTrue, IfOk, OnOk};
ghost use Rattle.nmgc_world_spec.specs.{World.serial_of, World.node_of, Known.AreKnown};
ghost use Rattle.nmgc_world_spec.specs.declared.value.Value.TheVariants as value;
ghost use Rattle.nmgc_barrier_laws.specs.FieldCycle.{IsMade, IsWritten};
ghost use Rattle.nmgc_world_laws.specs.Holds.{HasStrongField};
ghost use Rattle.nmgc_field_checker.specs.{Fields.IsStore, Reports.IsFirstIf};
ghost use Rattle.nmgc_field_checker.specs.Heaps.{named, with_rest, world_of, values_in, filled, left_field, left_fields, has_number, Has, AreFields, AreFieldsIf, HasCount, IsBelow, IsWithout};

use crate::object_set::ObjectSet;
use nmgc_lists::{List, NoMemory};
use std::alloc::Global;
use std::marker::Model;

/// Objects with their fields, in the order in which they were made.
#[derive(Drop)]
pub struct FieldHeap {
    alloc: Global,
    objects: List<List<Option<u32>>>,
}

impl Model for FieldHeap {
    ghost use Rattle.nmgc_world_spec.specs.{World.World};
    ghost use Rattle.nmgc_field_checker.specs.{Fields.IsStore, Reports.IsFirstIf};
    ghost use Rattle.nmgc_field_checker.specs.Heaps.{world_of, IsHeap};

    ghost Value = { World };

    ghost view = { λ h. world_of h.objects };

    ghost invariant = { λ h. IsHeap h.objects };
}

impl FieldHeap {
    /// Makes the heap without objects. Takes no memory.
    pub fn new(alloc: Global) -> Self
        ensures { result ≡ world_of [] }
    {
        FieldHeap {
            alloc,
            objects: List::new(alloc),
        }
    }

    /// Returns the allocator of the heap.
    pub fn alloc(&self) -> Global {
        self.alloc
    }

    /// Returns the number of objects ever made. It is below 2^32.
    pub fn count(&self) -> u32
        ensures { result ≡ serial_of self.now 0 }
    {
        self.objects.items().len() as u32
    }

    /// Whether the heap has an object with this number. Takes no memory and constant time.
    pub fn has(&self, object: u32) -> bool
        ensures { IsTrue result ↔ Has self.now object }
    {
        (object as usize) < self.objects.items().len()
    }

    /// Returns the fields of an object, or none if there is no such object. Takes no memory and constant time.
    pub fn fields(&self, object: u32) -> &[Option<u32>]
        ensures fields { AreFieldsIf self.now object result.now }
        ensures below { All (IsBelow (serial_of self.now 0)) result.now }
    {
        match self.objects.items().get(object as usize) {
            Some(fields) => fields.items(),
            None => &[],
        }
    }

    /// Returns the first of these objects that the heap doesn't have, if any.
    pub(crate) fn first_unknown(&self, objects: &[u32]) -> Option<u32>
        ensures { IsFirstIf objects.now (λ object. Has self.now object → ⊥) result }
    {
        for object in objects {
            if !self.has(*object) {
                return Some(*object);
            }
        }
        None
    }

    /// Returns the object in an object's field, if there are such a field and an object in it.
    pub(crate) fn target(&self, object: u32, place: usize) -> Option<u32>
        ensures { (target : ℕ) → (result ≡ Some target) ↔ HasStrongField self.now (named object) place (value.Ref (named target)) }
    {
        match self.fields(object).get(place) {
            Some(field) => *field,
            None => None,
        }
    }

    /// Whether an object's field refers to the target.
    pub(crate) fn refers(&self, object: u32, place: usize, target: u32) -> bool
        ensures { IsTrue result ↔ HasStrongField self.now (named object) place (value.Ref (named target)) }
    {
        has_target(self.target(object, place), target)
    }

    /// Makes the next object, of `count` fields, or more if there are more values. The first fields have these values, and
    /// each further field has no value.
    pub(crate) fn make(&mut self, count: u32, fields: &[Option<u32>]) -> Result<(), NoMemory>
        requires room { serial_of self.old 0 < 2 ^ 32 - 1 }
        requires known { AreKnown self.old (values_in fields.now) }
        ensures made { OnOk result (IsMade self.old (named (serial_of self.old 0)) (filled count fields.now) self.new) }
        ensures stores { OnOk result (IsStore self.old (serial_of self.old 0) 0 fields.now self.new) }
    {
        let object = new_object(self.alloc, count, fields)?;
        self.objects.push(object)?;
        Ok(())
    }

    /// Stores values into the fields of an object, from the field `place` on. Takes no memory.
    pub(crate) fn write(&mut self, object: u32, place: u32, fields: &[Option<u32>])
        requires fits { (count : ℕ) × HasCount self.old object count × (place + length fields.now ≤ count) }
        requires known { AreKnown self.old (values_in fields.now) }
        ensures written { IsWritten self.old (named object) place (values_in fields.now) self.new }
        ensures stores { IsStore self.old object place fields.now self.new }
    {
        put(
            self.objects.items_mut()[object as usize].items_mut(),
            place as usize,
            fields,
        );
    }

    /// Returns a copy of the heap. Takes time and memory for each object and each field.
    pub(crate) fn copy(&self) -> Result<FieldHeap, NoMemory>
        ensures { IfOk result (λ copied. copied ≡ self.now) }
    {
        let mut objects = List::new(self.alloc);
        for fields in self.objects.items() {
            objects.push(fields.copy(self.alloc)?)?;
        }
        Ok(FieldHeap {
            alloc: self.alloc,
            objects,
        })
    }

    /// Returns a copy of the heap in which these objects are gone: they have no fields, and no field refers to them.
    pub(crate) fn without(&self, gone: &ObjectSet) -> Result<FieldHeap, NoMemory>
        ensures { IfOk result (IsWithout gone.now.items self.now) }
    {
        let mut objects = List::new(self.alloc);
        for object in 0..self.count() {
            objects.push(self.fields_without(object, gone)?)?;
        }
        Ok(FieldHeap {
            alloc: self.alloc,
            objects,
        })
    }

    // Returns the fields of an object without references to gone objects, or no fields if the object is gone.
    fn fields_without(&self, object: u32, gone: &ObjectSet) -> Result<List<Option<u32>>, NoMemory>
        ensures { (fields : List (Option ℕ)) → AreFields self.now object fields → IfOk result (λ left. left ≡ left_fields gone.now.items object fields) }
    {
        let mut fields = List::new(self.alloc);
        if gone.has(object) {
            return Ok(fields);
        }
        for field in self.fields(object) {
            fields.push(left_of(gone, *field))?;
        }
        Ok(fields)
    }
}

// Returns the fields of a new object: these values, and none in each further field, up to `count` fields.
fn new_object(
    alloc: Global,
    count: u32,
    fields: &[Option<u32>],
) -> Result<List<Option<u32>>, NoMemory>
    ensures { IfOk result (λ object. object ≡ with_rest count fields.now) }
{
    let size = fields.len().max(count as usize);
    let mut object = no_fields(alloc, size)?;
    put(object.items_mut(), 0, fields);
    Ok(object)
}

// Returns `size` fields without objects.
fn no_fields(alloc: Global, size: usize) -> Result<List<Option<u32>>, NoMemory>
    ensures { IfOk result (λ object. object ≡ replicate size None) }
{
    let fields = List::from_vec(vec![in alloc; None; size]?)?;
    Ok(fields)
}

// Stores values into a slice, from the position `place` on.
fn put(values: &mut [Option<u32>], place: usize, fields: &[Option<u32>])
    requires { place + length fields.now ≤ length values.old }
    ensures { values.new ≡ take place values.old ++ fields.now ++ drop (place + length fields.now) values.old }
{
    values[place..place + fields.len()].copy_from_slice(fields);
}

// Returns the field without a reference to a gone object.
fn left_of(gone: &ObjectSet, field: Option<u32>) -> Option<u32>
    ensures { result ≡ left_field gone.now.items field }
{
    match field {
        Some(target) if !gone.has(target) => Some(target),
        _ => None,
    }
}

/// Whether the field has the object.
pub(crate) fn has_target(field: Option<u32>, target: u32) -> bool
    ensures { IsTrue result ↔ (field ≡ Some target) }
{
    match field {
        Some(other) => other == target,
        None => false,
    }
}
