//! A cycle over a heap of fields, watched without a marker. It has the heap as it is, the snapshot, and the mutators whose
//! roots are still to be read. Four sets have objects of the snapshot: those read as roots, pushed, handed out, and stored by
//! any actor. Debts count until their objects are read as roots or pushed.
ghost use Rattle.std.specs.Prelude.{◌≡◌, ◌<◌, ◌≤◌, ◌+◌, ◌-◌, ◌^◌, ◌↔◌, ℕ, List, Option, length, map, Contains, IsTrue, IfOk, OnOk};
ghost use Rattle.nmgc_world_spec.specs.{World.serial_of, Known.AreKnown};
ghost use Rattle.nmgc_barrier_laws.specs.FieldCycle.{IsGone, IsMade, IsPaid, IsPushedAt, IsWritten, KeepsName, NeedsName};
ghost use Rattle.nmgc_field_checker.specs.Heaps.{named, Has, HasCount, values_in, filled};
ghost use Rattle.nmgc_field_checker.specs.{Fields.AreBroken, Fields.AreStored, Fields.IsStore, Sets.IsLeast};
ghost use Rattle.nmgc_field_checker.specs.Marking.{AreHanded, AreOld, Begins, CountsGiving, CountsObject, CountsStore, IsChange, IsEnding, IsGiving, IsLeft, IsLostIf, IsNoted, IsOldestIf, IsOpening, IsRaised, IsOwnOldest, IsQuiet, IsScanIf, with_heap};

use crate::accounts::Accounts;
use crate::event::{Actor, FieldDebt, FieldStore, FieldWhy};
use crate::fields::{broken_by, stored_by};
use crate::heap::FieldHeap;
use crate::numbers::Numbers;
use crate::object_set::ObjectSet;
use crate::result::FieldResult;
use crate::search::follow;
use crate::stores::Stores;
use nmgc_lists::{List, NoMemory};
use std::marker::Model;

/// A watched cycle, from its beginning on.
#[derive(Drop)]
pub struct FieldCycle {
    heap: FieldHeap,
    snapshot: FieldHeap,
    unscanned: Numbers,
    roots: ObjectSet,
    remembered: ObjectSet,
    accounts: Accounts,
    opened: ObjectSet,
    stores: Stores,
}

impl Model for FieldCycle {
    ghost use Rattle.nmgc_field_checker.specs.Marking.{Running, IsCycle, running_of};

    ghost Value = { Running };

    ghost view = { λ c. running_of c.heap c.snapshot c.unscanned c.roots c.remembered c.accounts c.opened c.stores };

    ghost invariant = { λ c. IsCycle c.snapshot c.roots c.remembered c.accounts c.opened c.stores };
}

impl FieldCycle {
    /// Begins a cycle with this heap as its snapshot, these mutators to be scanned, and these roots.
    pub(crate) fn new(heap: FieldHeap, there: &Numbers, roots: &[u32]) -> Result<Self, NoMemory>
        requires { (object : ℕ) → Contains roots.now object → Has heap object }
        ensures { IfOk result (Begins heap there.now roots.now) }
    {
        let alloc = heap.alloc();
        let count = heap.count();
        let snapshot = heap.copy()?;
        let unscanned = there.copy()?;
        let read = ObjectSet::of(alloc, count, roots)?;
        let remembered = ObjectSet::new(alloc, count)?;
        let accounts = Accounts::new(alloc, count)?;
        let opened = ObjectSet::new(alloc, count)?;
        let stores = Stores::new(alloc, count)?;
        Ok(FieldCycle {
            heap,
            snapshot,
            unscanned,
            roots: read,
            remembered,
            accounts,
            opened,
            stores,
        })
    }

    /// Returns the heap as it is. Takes no memory and constant time.
    pub(crate) fn heap(&self) -> &FieldHeap
        ensures { result.now ≡ self.now.cycle.world }
    {
        &self.heap
    }

    /// Whether a debt or a store of this line may be reported later.
    pub(crate) fn may_report(&self, line: usize) -> bool {
        self.accounts.last_line() == Some(line) || self.stores.last_line() == Some(line)
    }

    /// Makes the next object at a line of an actor. Adds the number of fields by which an object came due to `dues`.
    pub(crate) fn make(
        &mut self,
        line: usize,
        number: u64,
        count: u32,
        fields: &[Option<u32>],
        dues: &mut u64,
    ) -> Result<(), NoMemory>
        requires room { serial_of self.old.cycle.world 0 < 2 ^ 32 - 1 }
        requires known { AreKnown self.old.cycle.world (values_in fields.now) }
        ensures change { OnOk result (IsChange line number (λ w after. IsMade w (named (serial_of w 0)) (filled count fields.now) after) self.old self.new) }
        ensures dues { OnOk result (CountsStore self.old.cycle number (serial_of self.old.cycle.world 0) 0 fields.now dues.old dues.new) }
    {
        let object = self.count();
        let stored = self.stored_by(object, 0, fields)?;
        let objects = stored.items();
        let handed = self.handed_of(number, objects);
        self.note(line, number, &[], handed, objects, dues)?;
        self.make_object(count, fields)?;
        Ok(())
    }

    /// Stores values into an object's fields at a line of an actor. Adds the number of fields by which an object came due to
    /// `dues`.
    pub(crate) fn write(
        &mut self,
        line: usize,
        number: u64,
        object: u32,
        place: u32,
        fields: &[Option<u32>],
        dues: &mut u64,
    ) -> Result<(), NoMemory>
        requires fits { (count : ℕ) × HasCount self.old.cycle.world object count × (place + length fields.now ≤ count) }
        requires known { AreKnown self.old.cycle.world (values_in fields.now) }
        ensures change { OnOk result (IsChange line number (λ w after. IsWritten w (named object) place (values_in fields.now) after) self.old self.new) }
        ensures dues { OnOk result (CountsStore self.old.cycle number object place fields.now dues.old dues.new) }
    {
        let broken = self.broken_by(object, place, fields)?;
        let lost = broken.items();
        let stored = self.stored_by(object, place, fields)?;
        let objects = stored.items();
        let handed = self.handed_of(number, objects);
        self.note(line, number, lost, handed, objects, dues)?;
        self.write_fields(object, place, fields);
        Ok(())
    }

    // Returns the number of objects ever made.
    fn count(&self) -> u32
        ensures { result ≡ serial_of self.now.cycle.world 0 }
    {
        self.heap.count()
    }

    // Returns the objects that a store breaks, for each field.
    fn broken_by(
        &self,
        object: u32,
        place: u32,
        fields: &[Option<u32>],
    ) -> Result<List<u32>, NoMemory>
        ensures { IfOk result (AreBroken self.now.cycle.snapshot self.now.cycle.world object place fields.now) }
    {
        broken_by(&self.snapshot, &self.heap, object, place, fields)
    }

    // Returns the objects of the snapshot that a store puts into fields, for each field.
    fn stored_by(
        &self,
        object: u32,
        place: u32,
        fields: &[Option<u32>],
    ) -> Result<List<u32>, NoMemory>
        ensures { IfOk result (AreStored self.now.cycle.snapshot self.now.cycle.world object place fields.now) }
    {
        stored_by(&self.snapshot, &self.heap, object, place, fields)
    }

    // Makes the next object of the heap alone.
    fn make_object(&mut self, count: u32, fields: &[Option<u32>]) -> Result<(), NoMemory>
        requires room { serial_of self.old.cycle.world 0 < 2 ^ 32 - 1 }
        requires known { AreKnown self.old.cycle.world (values_in fields.now) }
        ensures rest { self.new ≡ with_heap self.old self.new.cycle.world }
        ensures made { OnOk result (IsMade self.old.cycle.world (named (serial_of self.old.cycle.world 0)) (filled count fields.now) self.new.cycle.world) }
        ensures stores { OnOk result (IsStore self.old.cycle.world (serial_of self.old.cycle.world 0) 0 fields.now self.new.cycle.world) }
    {
        self.heap.make(count, fields)?;
        Ok(())
    }

    // Stores values into fields of the heap alone.
    fn write_fields(&mut self, object: u32, place: u32, fields: &[Option<u32>])
        requires fits { (count : ℕ) × HasCount self.old.cycle.world object count × (place + length fields.now ≤ count) }
        requires known { AreKnown self.old.cycle.world (values_in fields.now) }
        ensures rest { self.new ≡ with_heap self.old self.new.cycle.world }
        ensures written { IsWritten self.old.cycle.world (named object) place (values_in fields.now) self.new.cycle.world }
        ensures stores { IsStore self.old.cycle.world object place fields.now self.new.cycle.world }
    {
        self.heap.write(object, place, fields);
    }

    // Returns the stored objects that an actor hands out: all, if its roots are still to be read, and otherwise none.
    fn handed_of<'a>(&self, number: u64, stored: &'a [u32]) -> &'a [u32]
        ensures { AreHanded self.now.cycle number stored.now result.now }
    {
        if self.unscanned.has(number) {
            stored
        } else {
            &[]
        }
    }

    // Notes the objects of a line: those that fields lost, those that its actor hands out, and those that it stores.
    fn note(
        &mut self,
        line: usize,
        number: u64,
        broken: &[u32],
        handed: &[u32],
        stored: &[u32],
        dues: &mut u64,
    ) -> Result<(), NoMemory>
        requires broken { AreOld self.old.cycle broken.now }
        requires handed { AreOld self.old.cycle handed.now }
        requires stored { AreOld self.old.cycle stored.now }
        ensures noted { OnOk result (IsNoted line number broken.now handed.now stored.now self.old self.new) }
        ensures dues { OnOk result (IsRaised (length broken.now + length handed.now) dues.old dues.new) }
    {
        self.accounts
            .owe_all(&self.roots, &self.remembered, line, number, broken)?;
        self.accounts
            .owe_all(&self.roots, &self.remembered, line, number, handed)?;
        self.opened.extend(handed)?;
        self.stores.add_all(line, stored)?;
        *dues = dues.saturating_add((broken.len() + handed.len()) as u64);
        Ok(())
    }

    /// Hands an object over past all fields.
    pub(crate) fn hand(
        &mut self,
        line: usize,
        giver: u64,
        object: u32,
        taker: u64,
        dues: &mut u64,
    ) -> Result<(), NoMemory>
        requires { Has self.old.cycle.world object }
        ensures given { OnOk result (IsQuiet (IsGiving line giver object taker) self.old self.new) }
        ensures dues { OnOk result (CountsGiving self.old.cycle giver object taker dues.old dues.new) }
    {
        if !self.unscanned.has(giver) || self.unscanned.has(taker) {
            return Ok(());
        }
        self.open(line, giver, object, dues)
    }

    /// Opens an object: it is due if the snapshot has it.
    pub(crate) fn open(
        &mut self,
        line: usize,
        number: u64,
        object: u32,
        dues: &mut u64,
    ) -> Result<(), NoMemory>
        requires { Has self.old.cycle.world object }
        ensures opened { OnOk result (IsQuiet (IsOpening line number object) self.old self.new) }
        ensures dues { OnOk result (CountsObject self.old.cycle object dues.old dues.new) }
    {
        if !self.snapshot.has(object) {
            return Ok(());
        }
        self.accounts
            .owe_all(&self.roots, &self.remembered, line, number, &[object])?;
        self.opened.add(object)?;
        *dues = dues.saturating_add(1);
        Ok(())
    }

    /// Takes it that a mutator ended: its roots aren't to be read any more.
    pub(crate) fn leave(&mut self, number: u64)
        ensures { IsQuiet (λ h after. IsGone h number after) self.old self.new }
    {
        self.unscanned.remove(number);
    }

    /// Reads the roots of a mutator, or returns the reason why they can't be read now.
    pub(crate) fn scan(&mut self, number: u64, roots: &[u32]) -> Result<Option<FieldWhy>, NoMemory>
        requires { (object : ℕ) → Contains roots.now object → Has self.old.cycle.world object }
        ensures { IfOk result (λ why. IsScanIf number roots.now self.old why self.new) }
    {
        if !self.unscanned.has(number) {
            return Ok(Some(FieldWhy::Misplaced));
        }
        self.roots.extend(roots)?;
        self.unscanned.remove(number);
        Ok(None)
    }

    /// Takes the push of an object.
    pub(crate) fn push(&mut self, object: u32) -> Result<(), NoMemory>
        requires { Has self.old.cycle.world object }
        ensures { OnOk result (IsQuiet (λ h after. IsPushedAt h (named object) after) self.old self.new) }
    {
        self.remembered.add(object)?;
        Ok(())
    }

    /// Returns the first debt of an actor that isn't paid, if there is one.
    pub(crate) fn first_debt_of(&mut self, number: u64) -> Option<FieldDebt>
        ensures same { self.new ≡ self.old }
        ensures debt { IsOwnOldest self.old.cycle number result }
    {
        self.accounts.forget(&self.roots, &self.remembered);
        self.accounts.first_of(number)
    }

    /// Returns the result of a close, or the reason why the cycle can't end.
    pub(crate) fn result_or_why(&mut self) -> Result<Result<FieldResult, FieldWhy>, NoMemory>
        ensures same { self.new ≡ self.old }
        ensures ending { IfOk result (IsEnding self.old) }
    {
        if let Some(number) = self.first_unscanned() {
            return Ok(Err(FieldWhy::Unscanned(Actor { number })));
        }
        if let Some(debt) = self.first_debt() {
            return Ok(Err(FieldWhy::Due(debt)));
        }
        let needed = self.needed()?;
        let kept = self.kept(&needed)?;
        if let Some(store) = self.first_unkept(&kept) {
            return Ok(Err(FieldWhy::Unkept(store)));
        }
        let left = self.result(kept, needed)?;
        Ok(Ok(left))
    }

    // Returns the first mutator whose roots are still to be read, if there is one.
    fn first_unscanned(&self) -> Option<u64>
        ensures { IsLeast self.now.cycle.unscanned result }
    {
        self.unscanned.first()
    }

    // Returns the first debt that isn't paid, if there is one.
    fn first_debt(&mut self) -> Option<FieldDebt>
        ensures same { self.new ≡ self.old }
        ensures debt { IsOldestIf self.old.cycle result }
    {
        self.accounts.forget(&self.roots, &self.remembered);
        self.accounts.first()
    }

    // Returns the first store whose object isn't kept, if there is one.
    fn first_unkept(&self, kept: &ObjectSet) -> Option<FieldStore>
        requires { (object : ℕ) → Contains kept.now.items object ↔ KeepsName self.now.cycle (named object) }
        ensures { IsLostIf self.now result }
    {
        self.stores.first_outside(kept)
    }

    // Returns the result of a cycle that ends, with these objects.
    fn result(&self, kept: ObjectSet, needed: ObjectSet) -> Result<FieldResult, NoMemory>
        requires kept { (object : ℕ) → Contains kept.items object ↔ KeepsName self.now.cycle (named object) }
        requires bound { kept.bound ≡ serial_of self.now.cycle.snapshot 0 }
        requires needed { (object : ℕ) → Contains needed.items object ↔ NeedsName self.now.cycle (named object) }
        ensures { IfOk result (IsLeft self.now.cycle) }
    {
        let heap = self.heap.copy()?;
        let old = self.snapshot.count();
        let left = FieldResult::new(heap, kept, needed, old)?;
        Ok(left)
    }

    // Returns the objects that roots and objects handed out lead to in the snapshot.
    fn needed(&self) -> Result<ObjectSet, NoMemory>
        ensures needed { IfOk result (λ needed. (object : ℕ) → Contains needed.items object ↔ NeedsName self.now.cycle (named object)) }
        ensures bound { IfOk result (λ needed. needed.bound ≡ serial_of self.now.cycle.snapshot 0) }
    {
        let alloc = self.heap.alloc();
        let mut needed = ObjectSet::of(alloc, self.snapshot.count(), self.roots.items())?;
        needed.extend(self.opened.items())?;
        follow(&self.snapshot, &mut needed)?;
        Ok(needed)
    }

    // Returns the objects that the needed objects and the pushed objects lead to in the snapshot.
    fn kept(&self, needed: &ObjectSet) -> Result<ObjectSet, NoMemory>
        requires needed { (object : ℕ) → Contains needed.now.items object ↔ NeedsName self.now.cycle (named object) }
        requires bound { needed.now.bound ≡ serial_of self.now.cycle.snapshot 0 }
        ensures kept { IfOk result (λ kept. (object : ℕ) → Contains kept.items object ↔ KeepsName self.now.cycle (named object)) }
        ensures bound { IfOk result (λ kept. kept.bound ≡ serial_of self.now.cycle.snapshot 0) }
    {
        let alloc = self.heap.alloc();
        let mut kept = ObjectSet::of(alloc, self.snapshot.count(), needed.items())?;
        kept.extend(self.remembered.items())?;
        follow(&self.snapshot, &mut kept)?;
        Ok(kept)
    }
}
