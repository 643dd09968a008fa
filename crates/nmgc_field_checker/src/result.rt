//! The result of a cycle, and the reports that are compared with it.
ghost use Rattle.std.specs.Prelude.{◌≡◌, ◌↔◌, ◌<◌, ◌≤◌, ◌+◌, ◌-◌, ◌^◌, ℕ, length, Contains, IsTrue, IfOk, OnOk};
ghost use Rattle.nmgc_world_spec.specs.{World.serial_of, Known.AreKnown};
ghost use Rattle.nmgc_barrier_laws.specs.FieldCycle.{IsMade, IsWritten};
ghost use Rattle.nmgc_field_checker.specs.{Heaps.Has, Heaps.HasCount, Heaps.IsWithout, Heaps.filled, Heaps.named, Heaps.values_in, Reports.IsBlack, Reports.IsChangedHeap, Reports.IsFirstIf, Reports.IsFreedIf, Reports.IsLeftOut, Reports.IsLeastIf, Reports.IsReportIf, Reports.IsMarked, Reports.IsNotKept, Reports.MayAllGo, Reports.MayGo, Reports.WhyBlack, Reports.WhyFreed, Reports.WhyMarked, Reports.WhyNotGo, Reports.left_of};

use crate::event::FieldWhy;
use crate::heap::FieldHeap;
use crate::object_set::ObjectSet;
use nmgc_lists::NoMemory;
use std::marker::Model;

/// The heap after a cycle, and the objects that the cycle kept.
///
/// - `kept`: the objects of the snapshot that were to be marked.
/// - `needed`: the kept objects that no collector may free.
/// - `gone`: the objects that were freed since.
/// - `first_new`: the number of objects of the snapshot, so the number of the first object that was made since.
#[derive(Drop)]
pub struct FieldResult {
    heap: FieldHeap,
    kept: ObjectSet,
    needed: ObjectSet,
    gone: ObjectSet,
    first_new: u32,
    has_freed: bool,
}

impl Model for FieldResult {
    ghost use Rattle.std.specs.Prelude.{◌<◌, ℕ, Contains};
    ghost use Rattle.nmgc_field_checker.specs.Reports.{Left};

    ghost Value = { Left };

    ghost view = { λ l. record { heap = l.heap; kept = l.kept; needed = l.needed; gone = l.gone; first_new = l.first_new; has_freed = l.has_freed } };

    ghost invariant = { λ l. (object : ℕ) → Contains l.kept.items object → object < l.first_new };
}

impl FieldResult {
    /// Makes the result of a cycle whose snapshot had `first_new` objects.
    pub(crate) fn new(
        heap: FieldHeap,
        kept: ObjectSet,
        needed: ObjectSet,
        first_new: u32,
    ) -> Result<Self, NoMemory>
        requires { kept.bound ≡ first_new }
        ensures { IfOk result (λ left. left ≡ left_of heap kept needed first_new) }
    {
        // Each kept object is below the bound of its set.
        let _ = kept.items();
        let gone = ObjectSet::new(heap.alloc(), first_new)?;
        Ok(FieldResult {
            heap,
            kept,
            needed,
            gone,
            first_new,
            has_freed: false,
        })
    }

    /// Returns the heap.
    pub fn heap(&self) -> &FieldHeap
        ensures { result.now ≡ self.now.heap }
    {
        &self.heap
    }

    /// Makes the next object in the heap.
    pub(crate) fn make(&mut self, count: u32, fields: &[Option<u32>]) -> Result<(), NoMemory>
        requires room { serial_of self.old.heap 0 < 2 ^ 32 - 1 }
        requires known { AreKnown self.old.heap (values_in fields.now) }
        ensures { OnOk result (IsChangedHeap (λ w after. IsMade w (named (serial_of w 0)) (filled count fields.now) after) self.old self.new) }
    {
        self.heap.make(count, fields)?;
        Ok(())
    }

    /// Stores values into the fields of an object of the heap, from the field `place` on.
    pub(crate) fn write(&mut self, object: u32, place: u32, fields: &[Option<u32>])
        requires fits { (count : ℕ) × HasCount self.old.heap object count × (place + length fields.now ≤ count) }
        requires known { AreKnown self.old.heap (values_in fields.now) }
        ensures { IsChangedHeap (λ w after. IsWritten w (named object) place (values_in fields.now) after) self.old self.new }
    {
        self.heap.write(object, place, fields);
    }

    /// Returns the heap without the freed objects.
    pub(crate) fn left(&self) -> Result<FieldHeap, NoMemory>
        ensures { IfOk result (IsWithout self.now.gone.items self.now.heap) }
    {
        self.heap.without(&self.gone)
    }

    /// Returns the reason, if any, why the runtime can't have marked exactly these objects.
    pub(crate) fn reason_against_marked(
        &self,
        objects: &[u32],
    ) -> Result<Option<FieldWhy>, NoMemory>
        ensures { IfOk result (IsReportIf (IsMarked self.now objects.now) (WhyMarked self.now objects.now)) }
    {
        if self.has_freed() {
            return Ok(Some(FieldWhy::Misplaced));
        }
        match self.first_left_out(objects)? {
            Some(object) => Ok(Some(FieldWhy::NotListed(object))),
            None => match self.first_unkept(objects) {
                Some(object) => Ok(Some(FieldWhy::NotMarked(object))),
                None => Ok(None),
            },
        }
    }

    // Whether any report of freed objects was taken.
    fn has_freed(&self) -> bool
        ensures { result ≡ self.now.has_freed }
    {
        self.has_freed
    }

    // Whether the cycle kept the object.
    fn is_kept(&self, object: u32) -> bool
        ensures { IsTrue result ↔ Contains self.now.kept.items object }
    {
        self.kept.has(object)
    }

    // Returns the first of these objects that the cycle didn't keep, if any.
    fn first_unkept(&self, objects: &[u32]) -> Option<u32>
        ensures { IsFirstIf objects.now (λ object. Contains self.now.kept.items object → ⊥) result }
    {
        for object in objects {
            if !self.is_kept(*object) {
                return Some(*object);
            }
        }
        None
    }

    /// Returns the reason, if any, why the runtime can't have marked exactly these objects, those made since left out.
    pub(crate) fn reason_against_black(&self, objects: &[u32]) -> Result<Option<FieldWhy>, NoMemory>
        ensures { IfOk result (IsReportIf (IsBlack self.now objects.now) (WhyBlack self.now objects.now)) }
    {
        if self.has_freed() {
            return Ok(Some(FieldWhy::Misplaced));
        }
        if let Some(object) = self.first_unknown(objects) {
            return Ok(Some(FieldWhy::NoObject(object)));
        }
        match self.first_left_out(objects)? {
            Some(object) => Ok(Some(FieldWhy::NotListed(object))),
            None => match self.first_not_kept(objects) {
                Some(object) => Ok(Some(FieldWhy::NotMarked(object))),
                None => Ok(None),
            },
        }
    }

    // Returns the first of these objects that the heap doesn't have, if any.
    fn first_unknown(&self, objects: &[u32]) -> Option<u32>
        ensures { IsFirstIf objects.now (λ object. Has self.now.heap object → ⊥) result }
    {
        self.heap.first_unknown(objects)
    }

    // Returns the first of these objects that the snapshot has and the cycle didn't keep, if any.
    fn first_not_kept(&self, objects: &[u32]) -> Option<u32>
        ensures { IsFirstIf objects.now (IsNotKept self.now) result }
    {
        for object in objects {
            if self.is_not_kept(*object) {
                return Some(*object);
            }
        }
        None
    }

    // Whether the snapshot has the object, and the cycle didn't keep it.
    fn is_not_kept(&self, object: u32) -> bool
        ensures { IsTrue result ↔ IsNotKept self.now object }
    {
        object < self.first_new && !self.kept.has(object)
    }

    // Returns the first kept object that isn't among these objects, if any.
    fn first_left_out(&self, objects: &[u32]) -> Result<Option<u32>, NoMemory>
        ensures { IfOk result (IsLeastIf (IsLeftOut self.now objects.now)) }
    {
        let listed = ObjectSet::of(self.heap.alloc(), self.first_new, objects)?;
        for object in 0..self.first_new {
            if self.is_left_out(&listed, object) {
                return Ok(Some(object));
            }
        }
        Ok(None)
    }

    // Whether the object is kept and isn't in a set.
    fn is_left_out(&self, listed: &ObjectSet, object: u32) -> bool
        ensures { IsTrue result ↔ IsLeftOut self.now listed.now.items object }
    {
        self.kept.has(object) && !listed.has(object)
    }

    /// Frees these objects, or returns the reason why the runtime can't have freed them.
    pub(crate) fn free(&mut self, objects: &[u32]) -> Result<Option<FieldWhy>, NoMemory>
        ensures { IfOk result (λ why. IsFreedIf self.old objects.now why self.new) }
    {
        if let Some(why) = self.first_reason(objects) {
            return Ok(Some(why));
        }
        self.gone.extend(objects)?;
        self.has_freed = true;
        Ok(None)
    }

    // Returns the reason why the first of these objects that can't be freed can't, if there is one.
    fn first_reason(&self, objects: &[u32]) -> Option<FieldWhy>
        ensures { IsReportIf (MayAllGo self.now objects.now) (WhyFreed self.now objects.now) result }
    {
        for object in objects {
            match self.reason_against(*object) {
                Some(why) => return Some(why),
                None => {}
            }
        }
        None
    }

    // Returns the reason why an object can't be freed, if there is one.
    fn reason_against(&self, object: u32) -> Option<FieldWhy>
        ensures { IsReportIf (MayGo self.now object) (WhyNotGo self.now object) result }
    {
        if !self.heap.has(object) {
            return Some(FieldWhy::NoObject(object));
        }
        if object >= self.first_new {
            return Some(FieldWhy::NotOld(object));
        }
        if self.needed.has(object) {
            return Some(FieldWhy::Needed(object));
        }
        None
    }
}
