//! The marking machine, and why marking from a snapshot is exact.
//!
//! Note [Why the deletion barrier is enough] in `nmgc_mutator/src/barrier.rt` has the short form. The collector reads each
//! object once, a position at a time, and never comes back. A mutator could move the last reference to an object from a field
//! that the collector has not read yet into a field that it has passed. The deletion barrier prevents that: a command that
//! takes a reference out of a field owes it. The closing waits until all owed names are pushed, taken, marked and scanned.
//!
//! Every event except the closing keeps all of the following facts together:
//!
//! - A name in a register, queue, owed or pushed list, new object, or strong field of a live object is live in the snapshot
//!   or new: made since. A mutator gets references only from registers and fields of objects that it holds.
//! - An object that isn't live has the node that it had in the snapshot, since no mutator can reach it to write.
//! - For every strong field of the snapshot, its target is marked, owed or pushed, or the field is unchanged and no scan has
//!   passed it. In that last case the field's object isn't marked yet, or its scan has still to reach the field. A field goes
//!   away only by a command that owes its target. A scan passes a field only by reading it, and marks the target then.
//! - A weak pointer of the snapshot that is alive and wasn't finalised has the parts that it had there.
//! - Every marked name is live, every queued name is marked, and the roots of the snapshot are marked.
//! - Every name of the snapshot that was opened, finalised, or kept by a finalised weak pointer is marked, owed or pushed.
//! - Each strong field in the world, of any object, was in the snapshot, or its target is live or new as in the first fact.
//!   Reading or finalising a weak pointer opens names, so objects that aren't live yet can become live.
//!
//! If nothing is queued, owed or pushed, no scan is left, and the third fact says that a marked object's targets are marked.
//! So the marked names are closed under the strong fields of the snapshot and contain its roots: they contain all names that
//! strong fields reach. The end adds the other live names.
//!
//! Easy to get wrong: the third fact is about the snapshot's fields, so the old value is owed. A barrier on the new value
//! would lose a target whose field was overwritten before the scan.
ghost use Rattle.std.specs.Prelude.{◌≡◌, ◌∷◌, ◌++◌, [], false, drop, slice_get, slice_set, IfOk, OnOk, OnErr, IsTrue, IsSome, ◌↔◌, Some, Contains, if◌then◌else◌};
ghost use Rattle.nmgc_world_spec.specs.{declared.value.Name.Name as NameAt, World.shared_name};
ghost use Rattle.nmgc_graph.specs.Marks.{HasPlaces, mark_of};
ghost use Rattle.nmgc_snapshot_laws.specs.{State.is_listed, Machine.is_pushed_in, Machine.AreEmpty};

use crate::answers::is_answer;
use crate::closing::find_closing;
use crate::lists::{
    are_empty, count_at, drop_first_at, empty_lists, extend_at, first_at, truncate_at,
};
use crate::owed::owed_by;
use crate::roots::root_values;
use crate::scan::{next_entry, read};
use nmgc_graph::opened::{finalised_by, opened_by};
use nmgc_graph::{Marks, World};
use nmgc_lists::{List, NoMemory, Queue};
use nmgc_snapshot_laws::{Entry, Event};
use nmgc_world_spec::{Command, Name, Reply, Value};
use std::alloc::Global;
use std::marker::Model;
use std::slice;

/// A world in which marking runs: the state of the marking machine.
///
/// `marks` is the set of the names in `marked`, for a lookup in constant time. Contracts see the other fields. The invariant
/// (`IsCore`) has few of the facts above: a machine may begin with any closed world, and its opening has the facts.
pub struct Core {
    world: World,
    snapshot: World,
    marks: Marks,
    marked: List<Name>,
    queue: Queue<Entry>,
    owed: List<Queue<Name>>,
    pushed: List<Queue<Name>>,
    opened: Queue<Name>,
    finalised: Queue<Name>,
    is_closed: bool,
}

// Written by hand, so that each drop of a core calls this. A derived drop is written out, and proved, at each drop.
impl Drop for Core {
    fn drop(self) {
        let Core {
            world,
            snapshot,
            marks,
            marked,
            queue,
            owed,
            pushed,
            opened,
            finalised,
            is_closed: _,
        } = self;
        drop(world);
        drop(snapshot);
        drop(marks);
        drop(marked);
        drop(queue);
        drop(owed);
        drop(pushed);
        drop(opened);
        drop(finalised);
    }
}

impl Model for Core {
    ghost use Rattle.nmgc_snapshot_laws.specs.State.{State, oldest_first};
    ghost use Rattle.nmgc_core.specs.Sound.{IsCore};

    ghost Value = { State };

    ghost view = { λ c. record { world = c.world; snapshot = c.snapshot; marked = c.marked; queue = c.queue; order = oldest_first; owed = c.owed; pushed = c.pushed; opened = c.opened; finalised = c.finalised; is_closed = c.is_closed } };

    ghost invariant = { λ c. IsCore c.marks (record { world = c.world; snapshot = c.snapshot; marked = c.marked; queue = c.queue; order = oldest_first; owed = c.owed; pushed = c.pushed; opened = c.opened; finalised = c.finalised; is_closed = c.is_closed }) };
}

impl Core {
    ghost use Rattle.nmgc_world_spec.specs.{Known.IsWorld, World.node_of, World.step, Reach.Lists, Reach.finalised_by, Known.CanApply};
    ghost use Rattle.nmgc_snapshot_laws.specs.{State.names_of, State.opening, State.mark_name, State.mark_value, State.mark_read, State.mark_values, State.is_new, State.oldest_first, State.unmarked, Run.IsRun, Machine.Passes, Machine.advanced};
    ghost use Rattle.nmgc_snapshot_laws.specs.declared.event.Event.TheVariants as event;

    /// Begins marking: copies the world as the snapshot, and marks the roots. Takes time and memory for each object.
    pub fn new(world: World) -> Result<Self, NoMemory>
        ensures opening { IfOk result (λ core. core ≡ opening world) }
        ensures closed { IfOk result (λ core. IsWorld core.world) }
    {
        let roots = root_values(&world)?;
        let mut core = Core::make_unmarked(world)?;
        core.mark_values(roots.as_slice())?;
        // Note [Lines that do nothing] in `nmgc_alloc`: this gives the prover that the world is closed, as in every machine.
        let _ = &core.marks;
        Ok(core)
    }

    // Makes a machine in which only g is marked and nothing is queued. Its snapshot is a copy of its world.
    fn make_unmarked(world: World) -> Result<Self, NoMemory>
        ensures { IfOk result (λ core. core ≡ unmarked oldest_first world) }
    {
        let alloc = world.alloc();
        let snapshot = world.copy()?;
        let marks = set_of_shared(&world)?;
        let owed = empty_lists(alloc, world.mutators())?;
        let pushed = empty_lists(alloc, world.mutators())?;
        let marked = list_of_shared(alloc)?;
        Ok(Core {
            world,
            snapshot,
            marks,
            marked,
            queue: Queue::new(alloc),
            owed,
            pushed,
            opened: Queue::new(alloc),
            finalised: Queue::new(alloc),
            is_closed: false,
        })
    }

    // Marks and queues, in order, the unmarked names of the snapshot to which values refer.
    fn mark_values(&mut self, values: &[Value]) -> Result<(), NoMemory>
        ensures { OnOk result (self.new ≡ mark_values self.old values.now) }
    {
        for value in values {
            self.mark_value(*value)?;
        }
        Ok(())
    }

    // Whether a name can be marked: it is an unmarked name of the snapshot.
    fn can_mark(&self, name: Name) -> bool
        ensures { result ≡ is_new self.now name }
    {
        self.snapshot.node(name).is_some() && !self.marks.contains(name)
    }

    // Marks and queues an unmarked name of the snapshot; does nothing for any other name.
    fn mark(&mut self, name: Name) -> Result<(), NoMemory>
        ensures ok { OnOk result (self.new ≡ mark_name self.old name) }
        ensures err { OnErr result (self.new ≡ self.old) }
    {
        if !self.can_mark(name) {
            return Ok(());
        }
        self.marked.push(name)?;
        let entry = Entry { name, position: 0 };
        if let Err(error) = self.queue.push(entry) {
            self.marked.pop();
            return Err(error);
        }
        self.marks.insert(name);
        Ok(())
    }

    // If a value refers to an unmarked name of the snapshot, marks and queues the name.
    fn mark_value(&mut self, value: Value) -> Result<(), NoMemory>
        ensures ok { OnOk result (self.new ≡ mark_value self.old value) }
        ensures err { OnErr result (self.new ≡ self.old) }
    {
        match value {
            Value::Ref(name) => self.mark(name),
            _ => Ok(()),
        }
    }

    // If a scan read a value that refers to an unmarked name of the snapshot, marks and queues this name.
    fn mark_read(&mut self, read: Option<Value>) -> Result<(), NoMemory>
        ensures ok { OnOk result (self.new ≡ mark_read self.old read) }
        ensures err { OnErr result (self.new ≡ self.old) }
    {
        match read {
            Some(value) => self.mark_value(value),
            None => Ok(()),
        }
    }

    // Moves the queue's first entry, which has to be `entry`, to its next position, or removes it if no position is left.
    fn advance(&mut self, entry: Entry)
        requires { slice_get self.old.queue 0 ≡ Some entry }
        ensures { self.new ≡ advanced (record self.old { queue = drop 1 self.old.queue }) entry }
    {
        match next_entry(&self.world, entry) {
            Some(next) => self.queue.replace_first(next),
            None => {
                self.queue.take_first();
            }
        }
    }

    // If the world can take a mutator's command and gives it this reply, does the command. Returns whether it was done.
    fn try_apply(&mut self, mutator: u8, command: &Command, reply: Reply) -> Result<bool, NoMemory>
        requires { self.old.is_closed ≡ false }
        ensures done { IfOk result (λ done. Passes self.old (event.Command mutator command.now reply) done self.new) }
        ensures err { OnErr result (self.new ≡ self.old) }
    {
        if !self.world.can_apply(mutator, command) {
            return Ok(false);
        }
        if !is_answer(&self.world, mutator, command, reply) {
            return Ok(false);
        }
        let names = owed_by(&self.world, mutator, command)?;
        let opens = opened_by(&self.world, mutator, command)?;
        let ends = finalised_by(&self.world, mutator, command)?;
        self.do_command(
            mutator,
            command,
            names.as_slice(),
            opens.as_slice(),
            ends.as_slice(),
        )?;
        Ok(true)
    }

    // Does a command in the world, and adds `names` to the mutator's owed list, `opens` to `opened`, and `ends` to
    // `finalised`. Requires that `ends` are the weak pointers that the command kills (`finalised_by`).
    fn do_command(
        &mut self,
        mutator: u8,
        command: &Command,
        names: &[Name],
        opens: &[Name],
        ends: &[Name],
    ) -> Result<(), NoMemory>
        requires can { CanApply self.old.world mutator command.now }
        requires ends { ends.now ≡ finalised_by self.old.world mutator command.now }
        ensures ok { OnOk result (self.new ≡ (record self.old {
          world = (step self.old.world mutator command.now).0;
          owed = slice_set self.old.owed mutator (names_of self.old.owed mutator ++ names.now);
          opened = self.old.opened ++ opens.now;
          finalised = self.old.finalised ++ ends.now;
        })) }
        ensures err { OnErr result (self.new ≡ self.old) }
    {
        let before = self.opened.items().len();
        self.opened.extend(opens)?;
        if let Err(error) = self.do_and_finalise(mutator, command, names, ends) {
            self.opened.truncate(before);
            return Err(error);
        }
        Ok(())
    }

    // Does a command in the world, and adds `names` to the mutator's owed list and `ends` to `finalised`. Requires that
    // `ends` are the weak pointers that the command kills.
    fn do_and_finalise(
        &mut self,
        mutator: u8,
        command: &Command,
        names: &[Name],
        ends: &[Name],
    ) -> Result<(), NoMemory>
        requires can { CanApply self.old.world mutator command.now }
        requires ends { ends.now ≡ finalised_by self.old.world mutator command.now }
        ensures ok { OnOk result (self.new ≡ (record self.old {
          world = (step self.old.world mutator command.now).0;
          owed = slice_set self.old.owed mutator (names_of self.old.owed mutator ++ names.now);
          finalised = self.old.finalised ++ ends.now;
        })) }
        ensures err { OnErr result (self.new ≡ self.old) }
    {
        let before = self.finalised.items().len();
        self.finalised.extend(ends)?;
        if let Err(error) = self.do_and_owe(mutator, command, names) {
            self.finalised.truncate(before);
            return Err(error);
        }
        Ok(())
    }

    // Does a command in the world, and adds `names` to the mutator's owed list. Requires that each weak pointer that the
    // command kills is in `finalised`.
    fn do_and_owe(&mut self, mutator: u8, command: &Command, names: &[Name]) -> Result<(), NoMemory>
        requires can { CanApply self.old.world mutator command.now }
        requires ended { (weak : NameAt) → Contains (finalised_by self.old.world mutator command.now) weak → Contains self.old.finalised weak }
        ensures ok { OnOk result (self.new ≡ (record self.old {
          world = (step self.old.world mutator command.now).0;
          owed = slice_set self.old.owed mutator (names_of self.old.owed mutator ++ names.now);
        })) }
        ensures err { OnErr result (self.new ≡ self.old) }
    {
        let before = count_at(self.owed.items(), mutator);
        extend_at(&mut self.owed, mutator, names)?;
        if let Err(error) = self.world.apply(mutator, command) {
            truncate_at(&mut self.owed, mutator, before);
            return Err(error);
        }
        Ok(())
    }

    // Removes a mutator's first owed name. Pushes it if it is in the snapshot and isn't g's. Returns whether a name was owed.
    fn push(&mut self, mutator: u8) -> Result<bool, NoMemory>
        requires { self.old.is_closed ≡ false }
        ensures done { IfOk result (λ done. Passes self.old (event.Push mutator) done self.new) }
        ensures err { OnErr result (self.new ≡ self.old) }
    {
        let Some(name) = first_at(self.owed.items(), mutator) else {
            return Ok(false);
        };
        extend_at(
            &mut self.pushed,
            mutator,
            name_to_push(&self.snapshot, &name),
        )?;
        drop_first_at(&mut self.owed, mutator);
        Ok(true)
    }

    // Reads at the first queued entry, marks the name read, if any, and advances the entry. `false` means an empty queue.
    fn scan(&mut self) -> Result<bool, NoMemory>
        requires { self.old.is_closed ≡ false }
        ensures done { IfOk result (λ done. Passes self.old event.Scan done self.new) }
        ensures err { OnErr result (self.new ≡ self.old) }
    {
        let Some(entry) = self.queue.first() else {
            return Ok(false);
        };
        let found = read(&self.world, entry);
        self.mark_read(found)?;
        self.advance(entry);
        Ok(true)
    }

    // Takes a mutator's first pushed name, and marks it if it is unmarked and in the snapshot. `false` means an empty list.
    fn take(&mut self, mutator: u8) -> Result<bool, NoMemory>
        requires { self.old.is_closed ≡ false }
        ensures done { IfOk result (λ done. Passes self.old (event.Take mutator) done self.new) }
        ensures err { OnErr result (self.new ≡ self.old) }
    {
        let Some(name) = first_at(self.pushed.items(), mutator) else {
            return Ok(false);
        };
        self.mark(name)?;
        drop_first_at(&mut self.pushed, mutator);
        Ok(true)
    }

    // If marking can end, completes the marks and closes the world with the dying weak pointers. Returns whether it ended.
    fn close(&mut self) -> Result<bool, NoMemory>
        requires { self.old.is_closed ≡ false }
        ensures done { IfOk result (λ done. Passes self.old event.Close done self.new) }
        ensures err { OnErr result (self.new ≡ self.old) }
    {
        if !self.is_done() {
            return Ok(false);
        }
        let found = find_closing(self)?;
        let marked = found.marks.names(self.world.alloc())?;
        let mut world = self.world.copy()?;
        world.close(found.dead.items())?;
        self.world = world;
        self.marks = found.marks;
        self.marked = marked;
        self.is_closed = true;
        Ok(true)
    }

    // Whether nothing is queued, owed or pushed, so that marking can end.
    fn is_done(&self) -> bool
        ensures { IsTrue result ↔ ((self.now.queue ≡ []) × AreEmpty self.now.owed × AreEmpty self.now.pushed) }
    {
        self.queue.is_empty() && are_empty(self.owed.items()) && are_empty(self.pushed.items())
    }

    /// Does an event if it can happen, and returns whether it happened. After `false` or `NoMemory` nothing has changed.
    /// Takes constant time for each operand, each value of a new object, and each value read or owed. The closing takes time
    /// for each object. It passes over the weak pointers at most once per link of the longest chain of weak pointers in which
    /// each revives the key of the next, and once more.
    pub fn step(&mut self, event: &Event) -> Result<bool, NoMemory>
        ensures done { IfOk result (λ done. Passes self.old event.now done self.new) }
        ensures err { OnErr result (self.new ≡ self.old) }
        ensures closed { IsWorld self.new.world }
    {
        let done = self.try_event(event);
        // Note [Lines that do nothing] in `nmgc_alloc`: this gives the prover that the world is closed, as in every machine.
        let _ = &self.marks;
        done
    }

    // Does an event if it can happen, and returns whether it happened. After `false` or `NoMemory` nothing has changed.
    fn try_event(&mut self, event: &Event) -> Result<bool, NoMemory>
        ensures done { IfOk result (λ done. Passes self.old event.now done self.new) }
        ensures err { OnErr result (self.new ≡ self.old) }
    {
        if self.is_closed {
            return Ok(false);
        }
        match event {
            Event::Command {
                mutator,
                command,
                answer,
            } => self.try_apply(*mutator, command, *answer),
            Event::Push { mutator } => self.push(*mutator),
            Event::Scan => self.scan(),
            Event::Take { mutator } => self.take(*mutator),
            Event::Close => self.close(),
        }
    }

    /// Begins marking with a world, does each of the events in turn if it can happen, and returns the machine. Its clause is
    /// the snapshot theorem (`IsRun`), for all lists of events and closed worlds. Before the closing, the world is the replay
    /// of the commands that happened, and all marked names are live in the snapshot, if opened names count as roots. The
    /// closing completes the marks to exactly the live names, and then, from finalisers of dying weak pointers, to exactly
    /// the kept names. Exactly the dead weak pointers die, and the world is the replay closed with them.
    pub fn run(world: World, events: &[Event]) -> Result<Self, NoMemory>
        ensures { IfOk result (IsRun world events.now) }
    {
        let mut core = Core::new(world)?;
        for event in events {
            core.step(event)?;
        }
        Ok(core)
    }

    /// Returns the world as it is. Takes no memory and constant time.
    pub fn world(&self) -> &World
        ensures { result.now ≡ self.now.world }
    {
        &self.world
    }

    /// Returns the world as it was when marking began. Takes no memory and constant time.
    pub fn snapshot(&self) -> &World
        ensures { result.now ≡ self.now.snapshot }
    {
        &self.snapshot
    }

    /// Whether marking has ended (`Event::Close`). Takes no memory and constant time.
    pub fn is_closed(&self) -> bool
        ensures { result ≡ self.now.is_closed }
    {
        self.is_closed
    }

    /// Returns the names that were opened since the snapshot. Takes no memory and constant time.
    pub fn opened(&self) -> &[Name]
        ensures { result.now ≡ self.now.opened }
    {
        self.opened.items()
    }

    /// Returns the weak pointers that were finalised since the snapshot. Takes no memory and constant time.
    pub fn finalised(&self) -> &[Name]
        ensures { result.now ≡ self.now.finalised }
    {
        self.finalised.items()
    }

    /// Returns the marked names, each a name of the snapshot. Until the closing they are in order of marking, then of names.
    pub(crate) fn marked_names(&self) -> &[Name]
        ensures names { result.now ≡ self.now.marked }
        ensures there { (name : NameAt) → Contains self.now.marked name → IsSome (node_of self.now.snapshot name) }
    {
        self.marked.items()
    }

    /// Returns the marked names in the order of names. Takes time for each name of the snapshot.
    pub fn marked(&self) -> Result<List<Name>, NoMemory>
        ensures { IfOk result (Lists (Contains self.now.marked)) }
    {
        self.marks.names(self.world.alloc())
    }
}

// Returns a list of only this name, or an empty list if the name isn't in the snapshot or is g's.
fn name_to_push<'a>(snapshot: &World, name: &'a Name) -> &'a [Name]
    ensures { result.now ≡ (if is_pushed_in snapshot.now name.now then name.now ∷ [] else []) }
{
    if snapshot.node(*name).is_some() && *name != Name::SHARED {
        slice::from_ref(name)
    } else {
        &[]
    }
}

// Returns a list that contains only g's name.
fn list_of_shared(alloc: Global) -> Result<List<Name>, NoMemory>
    ensures { IfOk result (λ names. names ≡ shared_name ∷ []) }
{
    let mut names = List::new(alloc);
    names.push(Name::SHARED)?;
    Ok(names)
}

// Returns the set that contains only g's name, with a place for exactly the names of this world.
fn set_of_shared(world: &World) -> Result<Marks, NoMemory>
    ensures places { IfOk result (HasPlaces world.now) }
    ensures marks { IfOk result (λ marks. (name : NameAt) → mark_of marks name ≡ is_listed name (shared_name ∷ [])) }
{
    let mut marks = world.empty_set()?;
    marks.insert(Name::SHARED);
    Ok(marks)
}
