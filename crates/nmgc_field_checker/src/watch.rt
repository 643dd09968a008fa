//! A runtime's barrier over fields, watched from one event to the next. Each event is taken if it can have happened, and
//! otherwise refused with a reason that is a fact.
ghost use Rattle.std.specs.Prelude.{◌≡◌, ◌↔◌, ◌<◌, ◌-◌, ◌^◌, [], Contains, IsTrue, IsSome, IfOk, OnOk, Option, Some};
ghost use Rattle.nmgc_world_spec.specs.{World.serial_of, Known.AreKnown};
ghost use Rattle.nmgc_barrier_laws.specs.FieldCycle.{IsGone, IsMade, IsWritten};
ghost use Rattle.nmgc_field_checker.specs.{Heaps.Has, Heaps.HasCount, Heaps.filled, Heaps.named, Heaps.values_in, Heaps.world_of, Marking.CountsGiving, Marking.CountsObject, Marking.CountsStore, Marking.IsGiving, Marking.IsOpening, Reports.IsReportIf};
ghost use Rattle.nmgc_field_checker.specs.Watching.{CanBeNew, IsRoomFor, CanBeStored, Changes, CountsDuesIf, CountsIn, HasHeap, IsActing, IsClosingIf, IsFirstUnknown, IsMissingIf, IsSnapshotIf, IsStep, IsTakenIf, IsThere, Quietly, WhyActs, WhyNoAct, WhyNotHad, WhyNotMade, WhyNotWritten, heap_in, next_of, objects_in};
ghost use Rattle.nmgc_field_checker.specs.declared.event.FieldEvent.TheVariants as event;
ghost use Rattle.nmgc_field_checker.specs.declared.watch.FieldPhase.TheVariants as phase;

use crate::cycle::FieldCycle;
use crate::event::{Actor, FieldEvent, FieldWhy};
use crate::heap::FieldHeap;
use crate::numbers::Numbers;
use crate::result::FieldResult;
use nmgc_lists::NoMemory;
use std::alloc::Global;

/// The state of a runtime: the mutators that are there, and the heap before, in, between and after cycles.
#[derive(Drop)]
pub struct FieldWatch {
    there: Numbers,
    phase: FieldPhase,
}

/// The phase of a runtime: before, in or after a cycle.
#[derive(Drop)]
pub enum FieldPhase {
    /// There has been no cycle.
    Between(FieldHeap),
    /// A cycle goes on.
    Marking(FieldCycle),
    /// A cycle has ended, and no other cycle has begun.
    Ended(FieldResult),
    /// The trace has ended after a cycle.
    Stopped,
}

impl FieldWatch {
    /// Makes a watch over the empty heap, without mutators. Takes no memory.
    pub fn new(alloc: Global) -> Self
        ensures there { result.there ≡ [] }
        ensures phase { result.phase ≡ phase.Between (world_of []) }
    {
        FieldWatch {
            there: Numbers::new(alloc),
            phase: FieldPhase::Between(FieldHeap::new(alloc)),
        }
    }

    /// Returns the phase of the runtime.
    pub fn phase(&self) -> &FieldPhase
        ensures { result.now ≡ self.now.phase }
    {
        &self.phase
    }

    /// Returns the number that the next object will have, or 0 after the stop.
    pub fn next_object(&self) -> u32
        ensures { result ≡ next_of self.now.phase }
    {
        self.phase.next_object()
    }

    /// Whether a debt or a store of this line, the last so far, may be reported later.
    pub fn may_report(&self, line: usize) -> bool {
        match &self.phase {
            FieldPhase::Marking(cycle) => cycle.may_report(line),
            FieldPhase::Between(_) | FieldPhase::Ended(_) | FieldPhase::Stopped => false,
        }
    }

    /// Takes an event if it can have happened, and otherwise returns the reason, and changes nothing. Adds the number of
    /// fields and references by which an object came due to `dues`. After `NoMemory` any state is possible.
    pub fn step(
        &mut self,
        line: usize,
        event: &FieldEvent,
        dues: &mut u64,
    ) -> Result<Option<FieldWhy>, NoMemory>
        ensures step { IfOk result (λ why. IsStep line self.old event.now why self.new) }
        ensures dues { IfOk result (λ why. CountsDuesIf self.old event.now why dues.old dues.new) }
    {
        match event {
            FieldEvent::Began { mutator } => self.begin(*mutator),
            FieldEvent::Ended { mutator } => Ok(self.end(*mutator)),
            FieldEvent::Made {
                actor,
                taken,
                count,
                fields,
            } => self.make(line, *actor, *taken, *count, fields.items(), dues),
            FieldEvent::Written {
                actor,
                object,
                place,
                fields,
            } => self.write(line, *actor, *object, *place, fields.items(), dues),
            FieldEvent::Handed {
                giver,
                object,
                taker,
            } => self.hand(line, *giver, *object, *taker, dues),
            FieldEvent::Owed { actor, object } => self.owe(line, *actor, *object, dues),
            FieldEvent::Mark { roots } => self.mark(roots.items()),
            FieldEvent::Scan { mutator, roots } => self.scan(*mutator, roots.items()),
            FieldEvent::Push { actor, object } => self.push(*actor, *object),
            FieldEvent::Settle { mutator } => Ok(self.reason_against_settle(*mutator)),
            FieldEvent::Close => self.close(),
            FieldEvent::Marked { objects } => self.reason_against_marked(objects.items()),
            FieldEvent::Black { objects } => self.reason_against_black(objects.items()),
            FieldEvent::Freed { objects } => self.free(objects.items()),
            FieldEvent::Stop => Ok(self.stop()),
        }
    }

    // Whether the actor is there: the runtime itself, or a mutator that began and didn't end.
    fn is_there(&self, actor: Actor) -> bool
        ensures { IsTrue result ↔ IsThere self.now actor }
    {
        actor.number == 0 || self.there.has(actor.number)
    }

    fn begin(&mut self, mutator: Actor) -> Result<Option<FieldWhy>, NoMemory>
        ensures step { IfOk result (λ why. IsStep 0 self.old (event.Began mutator) why self.new) }
    {
        if self.phase.is_stopped() {
            return Ok(Some(FieldWhy::Misplaced));
        }
        if self.is_there(mutator) {
            return Ok(Some(FieldWhy::There(mutator)));
        }
        self.there.add(mutator.number)?;
        Ok(None)
    }

    fn end(&mut self, mutator: Actor) -> Option<FieldWhy>
        ensures step { IsStep 0 self.old (event.Ended mutator) result self.new }
    {
        if self.phase.is_stopped() {
            return Some(FieldWhy::Misplaced);
        }
        if !self.there.has(mutator.number) {
            return Some(FieldWhy::NotThere(mutator));
        }
        self.there.remove(mutator.number);
        self.phase.leave(mutator.number);
        None
    }

    // Returns the reason why an actor can't give a line about objects, if there is one.
    fn reason_against_actor(&self, actor: Actor) -> Option<FieldWhy>
        ensures { IsReportIf (IsActing self.now actor) (WhyNoAct self.now actor) result }
    {
        if self.phase.is_stopped() {
            return Some(FieldWhy::Misplaced);
        }
        if !self.is_there(actor) {
            return Some(FieldWhy::NotThere(actor));
        }
        None
    }

    fn make(
        &mut self,
        line: usize,
        actor: Actor,
        taken: Option<u32>,
        count: u32,
        fields: &[Option<u32>],
        dues: &mut u64,
    ) -> Result<Option<FieldWhy>, NoMemory>
        ensures step { IfOk result (λ why. IsStep line self.old (event.Made actor taken count fields.now) why self.new) }
        ensures dues { IfOk result (λ why. CountsDuesIf self.old (event.Made actor taken count fields.now) why dues.old dues.new) }
    {
        if let Some(why) = self.reason_against_actor(actor) {
            return Ok(Some(why));
        }
        if let Some(why) = self.phase.reason_against_made(taken, fields) {
            return Ok(Some(why));
        }
        self.phase.make(line, actor.number, count, fields, dues)?;
        Ok(None)
    }

    fn write(
        &mut self,
        line: usize,
        actor: Actor,
        object: u32,
        place: u32,
        fields: &[Option<u32>],
        dues: &mut u64,
    ) -> Result<Option<FieldWhy>, NoMemory>
        ensures step { IfOk result (λ why. IsStep line self.old (event.Written actor object place fields.now) why self.new) }
        ensures dues { IfOk result (λ why. CountsDuesIf self.old (event.Written actor object place fields.now) why dues.old dues.new) }
    {
        if let Some(why) = self.reason_against_actor(actor) {
            return Ok(Some(why));
        }
        if let Some(why) = self.phase.reason_against_written(object, place, fields) {
            return Ok(Some(why));
        }
        self.phase
            .write(line, actor.number, object, place, fields, dues)?;
        Ok(None)
    }

    // Returns the reason why an actor can't have this object, if there is one.
    fn reason_against_object(&self, actor: Actor, object: u32) -> Option<FieldWhy>
        ensures { IsReportIf (IsActing self.now actor × HasHeap (λ w. Has w object) self.now.phase) (WhyActs self.now actor (WhyNotHad object)) result }
    {
        if let Some(why) = self.reason_against_actor(actor) {
            return Some(why);
        }
        if !self.phase.has(object) {
            return Some(FieldWhy::NoObject(object));
        }
        None
    }

    fn hand(
        &mut self,
        line: usize,
        giver: Actor,
        object: u32,
        taker: Actor,
        dues: &mut u64,
    ) -> Result<Option<FieldWhy>, NoMemory>
        ensures step { IfOk result (λ why. IsStep line self.old (event.Handed giver object taker) why self.new) }
        ensures dues { IfOk result (λ why. CountsDuesIf self.old (event.Handed giver object taker) why dues.old dues.new) }
    {
        if let Some(why) = self.reason_against_object(giver, object) {
            return Ok(Some(why));
        }
        if !self.is_there(taker) {
            return Ok(Some(FieldWhy::NotThere(taker)));
        }
        self.phase
            .hand(line, giver.number, object, taker.number, dues)?;
        Ok(None)
    }

    fn owe(
        &mut self,
        line: usize,
        actor: Actor,
        object: u32,
        dues: &mut u64,
    ) -> Result<Option<FieldWhy>, NoMemory>
        ensures step { IfOk result (λ why. IsStep line self.old (event.Owed actor object) why self.new) }
        ensures dues { IfOk result (λ why. CountsDuesIf self.old (event.Owed actor object) why dues.old dues.new) }
    {
        if let Some(why) = self.reason_against_object(actor, object) {
            return Ok(Some(why));
        }
        self.phase.open(line, actor.number, object, dues)?;
        Ok(None)
    }

    fn mark(&mut self, roots: &[u32]) -> Result<Option<FieldWhy>, NoMemory>
        ensures step { IfOk result (λ why. IsStep 0 self.old (event.Mark roots.now) why self.new) }
    {
        let Some(heap) = self.phase.snapshot()? else {
            return Ok(Some(FieldWhy::Misplaced));
        };
        if let Some(object) = heap.first_unknown(roots) {
            return Ok(Some(FieldWhy::NoObject(object)));
        }
        let cycle = FieldCycle::new(heap, &self.there, roots)?;
        self.phase = FieldPhase::Marking(cycle);
        Ok(None)
    }

    fn scan(&mut self, mutator: Actor, roots: &[u32]) -> Result<Option<FieldWhy>, NoMemory>
        ensures step { IfOk result (λ why. IsStep 0 self.old (event.Scan mutator roots.now) why self.new) }
    {
        let is_there = self.is_there(mutator);
        match &mut self.phase {
            FieldPhase::Marking(cycle) => {
                if !is_there {
                    return Ok(Some(FieldWhy::NotThere(mutator)));
                }
                if let Some(object) = cycle.heap().first_unknown(roots) {
                    return Ok(Some(FieldWhy::NoObject(object)));
                }
                cycle.scan(mutator.number, roots)
            }
            FieldPhase::Between(_) | FieldPhase::Ended(_) | FieldPhase::Stopped => {
                Ok(Some(FieldWhy::Misplaced))
            }
        }
    }

    fn push(&mut self, actor: Actor, object: u32) -> Result<Option<FieldWhy>, NoMemory>
        ensures step { IfOk result (λ why. IsStep 0 self.old (event.Push actor object) why self.new) }
    {
        let is_there = self.is_there(actor);
        match &mut self.phase {
            FieldPhase::Marking(cycle) => {
                if !is_there {
                    return Ok(Some(FieldWhy::NotThere(actor)));
                }
                if !cycle.heap().has(object) {
                    return Ok(Some(FieldWhy::NoObject(object)));
                }
                cycle.push(object)?;
                Ok(None)
            }
            FieldPhase::Between(_) | FieldPhase::Ended(_) | FieldPhase::Stopped => {
                Ok(Some(FieldWhy::Misplaced))
            }
        }
    }

    fn reason_against_settle(&mut self, mutator: Actor) -> Option<FieldWhy>
        ensures step { IsStep 0 self.old (event.Settle mutator) result self.new }
    {
        let is_there = self.is_there(mutator);
        match &mut self.phase {
            FieldPhase::Marking(cycle) => {
                if !is_there {
                    return Some(FieldWhy::NotThere(mutator));
                }
                match cycle.first_debt_of(mutator.number) {
                    Some(debt) => Some(FieldWhy::Due(debt)),
                    None => None,
                }
            }
            FieldPhase::Between(_) | FieldPhase::Ended(_) | FieldPhase::Stopped => {
                Some(FieldWhy::Misplaced)
            }
        }
    }

    fn close(&mut self) -> Result<Option<FieldWhy>, NoMemory>
        ensures step { IfOk result (λ why. IsStep 0 self.old event.Close why self.new) }
    {
        match self.phase.result_or_why()? {
            Ok(left) => {
                self.phase = FieldPhase::Ended(left);
                Ok(None)
            }
            Err(why) => Ok(Some(why)),
        }
    }

    fn reason_against_marked(&self, objects: &[u32]) -> Result<Option<FieldWhy>, NoMemory>
        ensures { IfOk result (λ why. IsStep 0 self.now (event.Marked objects.now) why self.now) }
    {
        match &self.phase {
            FieldPhase::Ended(left) => left.reason_against_marked(objects),
            FieldPhase::Between(_) | FieldPhase::Marking(_) | FieldPhase::Stopped => {
                Ok(Some(FieldWhy::Misplaced))
            }
        }
    }

    fn reason_against_black(&self, objects: &[u32]) -> Result<Option<FieldWhy>, NoMemory>
        ensures { IfOk result (λ why. IsStep 0 self.now (event.Black objects.now) why self.now) }
    {
        match &self.phase {
            FieldPhase::Ended(left) => left.reason_against_black(objects),
            FieldPhase::Between(_) | FieldPhase::Marking(_) | FieldPhase::Stopped => {
                Ok(Some(FieldWhy::Misplaced))
            }
        }
    }

    fn free(&mut self, objects: &[u32]) -> Result<Option<FieldWhy>, NoMemory>
        ensures step { IfOk result (λ why. IsStep 0 self.old (event.Freed objects.now) why self.new) }
    {
        match &mut self.phase {
            FieldPhase::Ended(left) => left.free(objects),
            FieldPhase::Between(_) | FieldPhase::Marking(_) | FieldPhase::Stopped => {
                Ok(Some(FieldWhy::Misplaced))
            }
        }
    }

    fn stop(&mut self) -> Option<FieldWhy>
        ensures step { IsStep 0 self.old event.Stop result self.new }
    {
        match &self.phase {
            FieldPhase::Ended(_) => {
                self.phase = FieldPhase::Stopped;
                None
            }
            FieldPhase::Between(_) | FieldPhase::Marking(_) | FieldPhase::Stopped => {
                Some(FieldWhy::Misplaced)
            }
        }
    }
}

impl FieldPhase {
    // Whether the trace has ended.
    fn is_stopped(&self) -> bool
        ensures { IsTrue result ↔ (self.now ≡ phase.Stopped) }
    {
        match self {
            FieldPhase::Stopped => true,
            FieldPhase::Between(_) | FieldPhase::Marking(_) | FieldPhase::Ended(_) => false,
        }
    }

    // Returns the number that the next object will have, or 0 after the stop.
    fn next_object(&self) -> u32
        ensures { result ≡ next_of self.now }
    {
        match self {
            FieldPhase::Between(heap) => heap.count(),
            FieldPhase::Marking(cycle) => cycle.heap().count(),
            FieldPhase::Ended(left) => left.heap().count(),
            FieldPhase::Stopped => 0,
        }
    }

    // Whether there is a heap, and it has the object.
    fn has(&self, object: u32) -> bool
        ensures { IsTrue result ↔ HasHeap (λ w. Has w object) self.now }
    {
        match self {
            FieldPhase::Between(heap) => heap.has(object),
            FieldPhase::Marking(cycle) => cycle.heap().has(object),
            FieldPhase::Ended(left) => left.heap().has(object),
            FieldPhase::Stopped => false,
        }
    }

    // Returns the reason why an object can't be made, if there is one.
    fn reason_against_made(&self, taken: Option<u32>, fields: &[Option<u32>]) -> Option<FieldWhy>
        requires { IsSome (heap_in self.now) }
        ensures { IsReportIf (HasHeap (λ w. CanBeNew w taken fields.now) self.now) (λ y. HasHeap (λ w. WhyNotMade w taken fields.now y) self.now) result }
    {
        match self {
            FieldPhase::Between(heap) => reason_against_new(heap, taken, fields),
            FieldPhase::Marking(cycle) => reason_against_new(cycle.heap(), taken, fields),
            FieldPhase::Ended(left) => reason_against_new(left.heap(), taken, fields),
            FieldPhase::Stopped => None,
        }
    }

    // Returns the reason why values can't be stored into an object's fields, if there is one.
    fn reason_against_written(
        &self,
        object: u32,
        place: u32,
        fields: &[Option<u32>],
    ) -> Option<FieldWhy>
        requires { IsSome (heap_in self.now) }
        ensures { IsReportIf (HasHeap (λ w. CanBeStored w object place fields.now) self.now) (λ y. HasHeap (λ w. WhyNotWritten w object place fields.now y) self.now) result }
    {
        match self {
            FieldPhase::Between(heap) => reason_against_stored(heap, object, place, fields),
            FieldPhase::Marking(cycle) => {
                reason_against_stored(cycle.heap(), object, place, fields)
            }
            FieldPhase::Ended(left) => reason_against_stored(left.heap(), object, place, fields),
            FieldPhase::Stopped => None,
        }
    }

    // Makes the next object. In a cycle it is a line of an actor.
    fn make(
        &mut self,
        line: usize,
        number: u64,
        count: u32,
        fields: &[Option<u32>],
        dues: &mut u64,
    ) -> Result<(), NoMemory>
        requires { HasHeap (λ w. IsRoomFor w fields.now) self.old }
        ensures changes { OnOk result (Changes line number (λ w after. IsMade w (named (serial_of w 0)) (filled count fields.now) after) self.old self.new) }
        ensures dues { OnOk result (CountsIn self.old (λ h. CountsStore h number (serial_of h.world 0) 0 fields.now) dues.old dues.new) }
    {
        match self {
            FieldPhase::Between(heap) => heap.make(count, fields),
            FieldPhase::Marking(cycle) => cycle.make(line, number, count, fields, dues),
            FieldPhase::Ended(left) => left.make(count, fields),
            FieldPhase::Stopped => Ok(()),
        }
    }

    // Stores values into an object's fields. In a cycle it is a line of an actor.
    fn write(
        &mut self,
        line: usize,
        number: u64,
        object: u32,
        place: u32,
        fields: &[Option<u32>],
        dues: &mut u64,
    ) -> Result<(), NoMemory>
        requires { HasHeap (λ w. CanBeStored w object place fields.now) self.old }
        ensures changes { OnOk result (Changes line number (λ w after. IsWritten w (named object) place (values_in fields.now) after) self.old self.new) }
        ensures dues { OnOk result (CountsIn self.old (λ h. CountsStore h number object place fields.now) dues.old dues.new) }
    {
        match self {
            FieldPhase::Between(heap) => {
                heap.write(object, place, fields);
                Ok(())
            }
            FieldPhase::Marking(cycle) => cycle.write(line, number, object, place, fields, dues),
            FieldPhase::Ended(left) => {
                left.write(object, place, fields);
                Ok(())
            }
            FieldPhase::Stopped => Ok(()),
        }
    }

    // Gives an object to a mutator past all fields.
    fn hand(
        &mut self,
        line: usize,
        giver: u64,
        object: u32,
        taker: u64,
        dues: &mut u64,
    ) -> Result<(), NoMemory>
        requires { HasHeap (λ w. Has w object) self.old }
        ensures given { OnOk result (Quietly (IsGiving line giver object taker) self.old self.new) }
        ensures dues { OnOk result (CountsIn self.old (λ h. CountsGiving h giver object taker) dues.old dues.new) }
    {
        match self {
            FieldPhase::Marking(cycle) => cycle.hand(line, giver, object, taker, dues),
            FieldPhase::Between(_) | FieldPhase::Ended(_) | FieldPhase::Stopped => Ok(()),
        }
    }

    // Opens an object.
    fn open(
        &mut self,
        line: usize,
        number: u64,
        object: u32,
        dues: &mut u64,
    ) -> Result<(), NoMemory>
        requires { HasHeap (λ w. Has w object) self.old }
        ensures opened { OnOk result (Quietly (IsOpening line number object) self.old self.new) }
        ensures dues { OnOk result (CountsIn self.old (λ h. CountsObject h object) dues.old dues.new) }
    {
        match self {
            FieldPhase::Marking(cycle) => cycle.open(line, number, object, dues),
            FieldPhase::Between(_) | FieldPhase::Ended(_) | FieldPhase::Stopped => Ok(()),
        }
    }

    // Takes it that a mutator ended.
    fn leave(&mut self, number: u64)
        ensures { Quietly (λ h after. IsGone h number after) self.old self.new }
    {
        match self {
            FieldPhase::Marking(cycle) => cycle.leave(number),
            FieldPhase::Between(_) | FieldPhase::Ended(_) | FieldPhase::Stopped => {}
        }
    }

    // Returns a copy of the heap for a cycle's snapshot, without the objects that were freed, or `None` if no cycle can begin.
    fn snapshot(&self) -> Result<Option<FieldHeap>, NoMemory>
        ensures { IfOk result (IsSnapshotIf self.now) }
    {
        match self {
            FieldPhase::Between(heap) => {
                let copied = heap.copy()?;
                Ok(Some(copied))
            }
            FieldPhase::Ended(left) => {
                let copied = left.left()?;
                Ok(Some(copied))
            }
            FieldPhase::Marking(_) | FieldPhase::Stopped => Ok(None),
        }
    }

    // Returns the result of a close, or the reason why no cycle can end.
    fn result_or_why(&mut self) -> Result<Result<FieldResult, FieldWhy>, NoMemory>
        ensures same { self.new ≡ self.old }
        ensures closing { IfOk result (IsClosingIf self.old) }
    {
        match self {
            FieldPhase::Marking(cycle) => cycle.result_or_why(),
            FieldPhase::Between(_) | FieldPhase::Ended(_) | FieldPhase::Stopped => {
                Ok(Err(FieldWhy::Misplaced))
            }
        }
    }
}

// Returns the reason why no new object can have this name and these values, if there is one.
fn reason_against_new(
    heap: &FieldHeap,
    taken: Option<u32>,
    fields: &[Option<u32>],
) -> Option<FieldWhy>
    ensures { IsReportIf (CanBeNew heap.now taken fields.now) (WhyNotMade heap.now taken fields.now) result }
{
    if let Some(object) = taken_object(heap, taken) {
        return Some(FieldWhy::Made(object));
    }
    if !has_room(heap) {
        return Some(FieldWhy::Full);
    }
    first_missing(heap, fields)
}

// Whether a heap has a number left for a new object.
fn has_room(heap: &FieldHeap) -> bool
    ensures { IsTrue result ↔ (serial_of heap.now 0 < 2 ^ 32 - 1) }
{
    heap.count() < u32::MAX
}

// Returns the object that has a name already, if the heap has it.
fn taken_object(heap: &FieldHeap, taken: Option<u32>) -> Option<u32>
    ensures { IsTakenIf heap.now taken result }
{
    match taken {
        Some(object) if heap.has(object) => Some(object),
        _ => None,
    }
}

// Returns the reason why values can't be stored into an object's fields, if there is one.
fn reason_against_stored(
    heap: &FieldHeap,
    object: u32,
    place: u32,
    fields: &[Option<u32>],
) -> Option<FieldWhy>
    ensures { IsReportIf (CanBeStored heap.now object place fields.now) (WhyNotWritten heap.now object place fields.now) result }
{
    if !heap.has(object) {
        return Some(FieldWhy::NoObject(object));
    }
    if let Some(why) = first_missing(heap, fields) {
        return Some(why);
    }
    let count = field_count(heap, object);
    if place as usize + fields.len() > count {
        return Some(FieldWhy::NoField {
            object,
            place: (place as usize).max(count),
        });
    }
    None
}

// Returns the number of fields of an object. Requires that the heap has it.
fn field_count(heap: &FieldHeap, object: u32) -> usize
    requires { Has heap.now object }
    ensures { HasCount heap.now object result }
{
    heap.fields(object).len()
}

// Returns the reason why the heap can't have these fields: one of the fields refers to an object that it doesn't have.
fn first_missing(heap: &FieldHeap, fields: &[Option<u32>]) -> Option<FieldWhy>
    ensures { IsReportIf (AreKnown heap.now (values_in fields.now)) (IsFirstUnknown heap.now (objects_in fields.now)) result }
{
    for field in fields {
        if let Some(target) = missing(heap, *field) {
            return Some(FieldWhy::NoObject(target));
        }
    }
    None
}

// Returns the object in a field, if there is one and the heap doesn't have it.
fn missing(heap: &FieldHeap, field: Option<u32>) -> Option<u32>
    ensures { IsMissingIf heap.now field result }
{
    match field {
        Some(target) if !heap.has(target) => Some(target),
        _ => None,
    }
}
