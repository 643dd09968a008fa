//! A runtime's barrier, watched from one event to the next. Each event is taken if it can have happened (`specs/Watching`,
//! `Can`), and otherwise refused with a reason that is a fact. The roots are read when marking begins, or the registers of
//! each mutator are read later, at a scan of its own.
//!
//! Easy to get wrong: a refused event changes nothing, so a test can go on. But the tasks before it in its line stay done.
ghost use Rattle.std.specs.Prelude.{◌≡◌, ◌↔◌, ◌<◌, ◌≤◌, [], true, length, replicate, slice_set, slice_index_or, IfNone, IfOk, IsTrue};
ghost use Rattle.nmgc_world_spec.specs.{Known.IsKnown, Known.IsRegister, World.new_world, World.with_register};
ghost use Rattle.nmgc_barrier_laws.specs.declared.debt.Debt.{Debt as DebtAt};
ghost use Rattle.nmgc_barrier_checker.specs.{CameDue.AddsDuesIf, CameDue.CountsDuesIf, Rows.emptied, Watching.AreHeldIf, Watching.AreHeldIn, Watching.AreKnownIn, Watching.IsKnownIn, Watching.put, Watching.put_back, Watching.IsStep, Watching.IsGivenIf, Watching.IsAct, Watching.IsDoneIf, Watching.IsHandIf, Watching.IsOwed, Watching.AreActed, Watching.is_marking, Watching.is_stopped, Watching.mutators_of};
ghost use Rattle.nmgc_barrier_checker.specs.declared.event.Event.TheVariants as event;
ghost use Rattle.nmgc_barrier_checker.specs.declared.watch.Watch.TheVariants as watch;

use crate::cycle::{Cycle, is_set};
use crate::cycle_result::CycleResult;
use crate::event::{Event, Why};
use crate::hand::{Hand, can_hand};
use crate::rows::{Task, nil_tasks, suits};
use nmgc_graph::World;
use nmgc_limits::{MAKERS, REGISTERS};
use nmgc_lists::{List, NoMemory};
use nmgc_world_spec::{Command, Name, Reply, Value};
use std::alloc::Global;
use std::marker::Model;

/// A cycle that goes on, in its own memory, so that a watch is small: a type may have at most 8,192 parts. A `List` counts
/// the parts of its items three times, so a world alone has 2,989. `scans` has a flag for each mutator: its registers were
/// read. Contracts see the cycle itself, with the flags.
#[derive(Drop)]
pub struct Running {
    cycle: Box<Cycle>,
    scans: List<bool>,
}

impl Model for Running {
    ghost use Rattle.nmgc_barrier_laws.specs.Hybrid.{Hybrid};

    ghost Value = { Hybrid };

    ghost view = { λ r. record { watch = r.cycle.value; scanned = r.scans } };
}

impl Running {
    ghost use Rattle.nmgc_barrier_laws.specs.Hybrid.{IsDueIn, IsHandedBy, scanned_at_once, beginning, is_scanned};
    ghost use Rattle.nmgc_barrier_checker.specs.CameDue.{IsAddedIf};
    ghost use Rattle.nmgc_barrier_checker.specs.{Cycles.IsCommand, Cycles.IsActing, Cycles.IsHand, Cycles.IsScan, Cycles.IsSettle, Watching.IsUnscannedIf, Watching.IsEndingIn, Watching.IsEndingWithIn};

    // Begins a cycle with this world as its snapshot and all mutators scanned. Takes the time and memory of `Cycle::new`.
    fn new(world: &World) -> Result<Self, NoMemory>
        ensures { IfOk result (λ running. running ≡ scanned_at_once world.now) }
    {
        let cycle = Cycle::new(world)?;
        let scans = flags(world.alloc(), true, world.mutators() as usize)?;
        Ok(Running {
            cycle: Box::new(world.alloc(), cycle)?,
            scans,
        })
    }

    // Begins a cycle with the world without registers as its snapshot, and no mutator scanned.
    fn without_registers(world: &World) -> Result<Self, NoMemory>
        ensures { IfOk result (λ running. running ≡ beginning world.now) }
    {
        let cycle = Cycle::without_registers(world)?;
        let scans = flags(world.alloc(), false, world.mutators() as usize)?;
        Ok(Running {
            cycle: Box::new(world.alloc(), cycle)?,
            scans,
        })
    }

    /// Returns the cycle that goes on. Takes no memory and constant time.
    pub fn cycle(&self) -> &Cycle
        ensures { result.now ≡ self.now.watch }
    {
        &self.cycle
    }

    // Returns the number of mutators.
    fn mutators(&self) -> u8
        ensures { result ≡ length self.now.watch.world.mutators }
    {
        self.cycle.world().mutators()
    }

    // Does a mutator's command if the heap can take it and gives this answer, as `Cycle::do_command`.
    fn do_command(
        &mut self,
        line: usize,
        mutator: u8,
        command: &Command,
        answer: Reply,
        dues: &mut u64,
    ) -> Result<Option<Why>, NoMemory>
        ensures dues { IfOk result (λ why. IsAddedIf (IsDueIn self.old mutator command.now) why dues.old dues.new) }
        ensures command { IfOk result (λ why. IsCommand line mutator command.now answer self.old why self.new) }
    {
        self.cycle
            .do_command(self.scans.items(), line, mutator, command, answer, dues)
    }

    // Does one of several tasks in a line, as `Cycle::act`.
    fn act(
        &mut self,
        line: usize,
        mutator: u8,
        task: &Task,
        dues: &mut u64,
    ) -> Result<Option<Why>, NoMemory>
        ensures dues { IfOk result (λ why. IsAddedIf (IsDueIn self.old mutator task.now.command) why dues.old dues.new) }
        ensures command { IfOk result (λ why. IsActing line mutator task.now self.old why self.new) }
    {
        self.cycle
            .act(self.scans.items(), line, mutator, task, dues)
    }

    // Writes a known value into a register of a mutator, without a command.
    fn set_register(&mut self, mutator: u8, register: u8, value: Value)
        requires mutator { mutator < length self.old.watch.world.mutators }
        requires register { IsRegister register }
        requires known { IsKnown self.old.watch.world value }
        ensures { self.new ≡ record self.old { watch = record self.old.watch { world = with_register self.old.watch.world mutator register value } } }
    {
        self.cycle.set_register(mutator, register, value);
    }

    // Hands a value over, as `Cycle::do_hand`.
    fn do_hand(
        &mut self,
        line: usize,
        hand: Hand,
        answer: Reply,
        dues: &mut u64,
    ) -> Result<Option<Why>, NoMemory>
        ensures dues { IfOk result (λ why. IsAddedIf (IsHandedBy self.old hand.giver hand.value hand.taker) why dues.old dues.new) }
        ensures hand { IfOk result (λ why. IsHand line hand answer self.old why self.new) }
    {
        self.cycle
            .do_hand(self.scans.items(), line, hand, answer, dues)
    }

    // Whether the mutator is scanned.
    fn is_scanned(&self, mutator: u8) -> bool
        ensures { result ≡ is_scanned self.now mutator }
    {
        is_set(self.scans.items(), mutator)
    }

    // Scans a mutator, or returns the reason why it can't be scanned and changes nothing.
    fn scan(&mut self, mutator: u8) -> Result<Option<Why>, NoMemory>
        ensures { IfOk result (λ why. IsScan mutator self.old why self.new) }
    {
        if mutator >= self.mutators() {
            return Ok(Some(Why::CannotApply));
        }
        if self.is_scanned(mutator) {
            return Ok(Some(Why::Misplaced));
        }
        self.cycle.read_registers(mutator)?;
        set_flag(&mut self.scans, mutator);
        Ok(None)
    }

    // Takes the push of a name, as `Cycle::push`.
    fn push(&mut self, name: Name) -> Result<Option<Why>, NoMemory>
        ensures { IfOk result (λ why. IsStep 0 (watch.Marking self.old) (event.Push name) why (watch.Marking self.new)) }
    {
        self.cycle.push(name)
    }

    // Adds a name that the marker took, as `Cycle::take`.
    fn take(&mut self, name: Name) -> Result<Option<Why>, NoMemory>
        ensures { IfOk result (λ why. IsStep 0 (watch.Marking self.old) (event.Take name) why (watch.Marking self.new)) }
    {
        self.cycle.take(name)
    }

    // Returns the first mutator that isn't scanned, or `None` if all mutators are.
    fn first_unscanned(&self) -> Option<u8>
        ensures { IsUnscannedIf self.now result }
    {
        for mutator in 0..self.mutators() {
            if !self.is_scanned(mutator) {
                return Some(mutator);
            }
        }
        None
    }

    // Returns the reason why a mutator hasn't settled its debts or doesn't exist, or `None` if there is no such reason.
    fn reason_against_settle(&mut self, mutator: u8) -> Option<Why>
        ensures settle { IsSettle mutator self.old.watch result }
        ensures same { self.new ≡ self.old }
    {
        self.cycle.reason_against_settle(mutator)
    }

    // Returns the result of a close without reported deaths, or a reason why the cycle can't end.
    fn result_or_why(&self) -> Result<Result<CycleResult, Why>, NoMemory>
        ensures { IfOk result (IsEndingIn self.now) }
    {
        match self.first_unscanned() {
            Some(mutator) => Ok(Err(Why::Unscanned(mutator))),
            None => self.cycle().result_or_why(),
        }
    }

    // Returns the result of a close at which exactly these weak pointers die, or a reason against such a close.
    fn result_or_why_with(&self, named: &[Name]) -> Result<Result<CycleResult, Why>, NoMemory>
        ensures { IfOk result (IsEndingWithIn self.now named.now) }
    {
        match self.first_unscanned() {
            Some(mutator) => Ok(Err(Why::Unscanned(mutator))),
            None => self.cycle().result_or_why_with(named),
        }
    }
}

/// The state of a runtime: before, in, between and after cycles.
#[derive(Drop)]
pub enum Watch {
    /// There has been no cycle.
    Between(World),
    /// A cycle goes on.
    Marking(Running),
    /// A cycle has ended, and no other cycle has begun.
    Ended(CycleResult),
    /// The trace has ended after a cycle.
    Stopped,
}

impl Watch {
    /// Makes a watch over the empty heap of `mutators` mutators. Requires at least 1 and at most `MAKERS` mutators.
    pub fn new(alloc: Global, mutators: u8) -> Result<Self, NoMemory>
        requires some { 1 ≤ mutators }
        requires few { mutators ≤ MAKERS }
        ensures { IfOk result (λ p. p ≡ watch.Between (new_world mutators)) }
    {
        Ok(Watch::Between(World::new(alloc, mutators)?))
    }

    /// Takes the event of a line and returns `None`, or refuses it and returns the reason. `line` is any number of the
    /// caller's, by which a debt is reported. A refused event changes nothing, but several tasks in one line
    /// (`Event::Rows`) are done up to the refused task. If the event happened, the number of names that its commands made
    /// due is added to `dues`: each command counts a name once, pushed or not. After `NoMemory` the watch may be in any state.
    ///
    /// A push, a take and a settled mutator take amortised constant time, and a scan for each register. A command, alone or
    /// among several in a line, takes amortised constant time for each operand and each field of an object that it makes. It
    /// also takes the time of a sort for the names that it may make due. The beginning of a cycle and the stop take time for each object, and the end of a cycle for each object
    /// and each field. A report of marked names takes time for each kept name, and each reported name a binary search. Memory
    /// grows with the heap alone. A cycle has two worlds (or three, as it begins or ends), and a few bytes for each name and
    /// mutator.
    pub fn step(
        &mut self,
        line: usize,
        event: &Event,
        dues: &mut u64,
    ) -> Result<Option<Why>, NoMemory>
        ensures step { IfOk result (λ why. IsStep line self.old event.now why self.new) }
        ensures dues { IfOk result (λ why. CountsDuesIf line self.old event.now why dues.old dues.new) }
    {
        match event {
            Event::Given {
                mutator,
                command,
                answer,
            } => self.give(line, *mutator, command, *answer, dues),
            Event::Rows {
                mutator,
                borrowed,
                tasks,
            } => self.do_line(line, *mutator, borrowed.items(), tasks.items(), dues),
            Event::Hand { hand, answer } => self.hand(line, *hand, *answer, dues),
            Event::Mark => self.mark(),
            Event::MarkShared => self.mark_shared(),
            Event::Scan { mutator } => self.scan(*mutator),
            Event::Push { name } => self.push(*name),
            Event::Exit { mutator } => self.exit(line, *mutator, dues),
            Event::Settle { mutator } => Ok(self.reason_against_settle(*mutator)),
            Event::Take { name } => self.take(*name),
            Event::Close => self.close(),
            Event::CloseWith { dead } => self.close_with(dead.items()),
            Event::Marked { names } => self.reason_against_marked(names.items()),
            Event::Black { names } => self.reason_against_black(names.items()),
            Event::Freed { names } => Ok(self.reason_against_freed(names.items())),
            Event::Stop => Ok(self.stop()),
        }
    }

    /// Whether a debt of the cycle that goes on may have this line, as `Cycle::may_owe_since`.
    pub fn may_owe_since(&self, line: usize) -> bool
        ensures { (debt : DebtAt) → IsOwed self.now debt → debt.line ≡ line → result ≡ true }
    {
        match self {
            Watch::Marking(running) => running.cycle().may_owe_since(line),
            Watch::Between(_) | Watch::Ended(_) | Watch::Stopped => false,
        }
    }

    /// Whether a cycle goes on. If not, there are no debts. Takes no memory and constant time.
    pub fn is_marking(&self) -> bool
        ensures { result ≡ is_marking self.now }
    {
        match self {
            Watch::Marking(_) => true,
            Watch::Between(_) | Watch::Ended(_) | Watch::Stopped => false,
        }
    }

    // Does a mutator's command if the heap can take it and gives this answer. Otherwise changes nothing and returns why not.
    fn give(
        &mut self,
        line: usize,
        mutator: u8,
        command: &Command,
        answer: Reply,
        dues: &mut u64,
    ) -> Result<Option<Why>, NoMemory>
        ensures step { IfOk result (λ why. IsStep line self.old (event.Given mutator command.now answer) why self.new) }
        ensures dues { IfOk result (λ why. CountsDuesIf line self.old (event.Given mutator command.now answer) why dues.old dues.new) }
    {
        match self {
            Watch::Between(world) => give(world, mutator, command, answer),
            Watch::Marking(running) => running.do_command(line, mutator, command, answer, dues),
            Watch::Ended(left) => give(&mut left.world, mutator, command, answer),
            Watch::Stopped => Ok(Some(Why::Misplaced)),
        }
    }

    // Hands a value over if the heap can do so and answers this. Otherwise changes nothing and returns why not.
    fn hand(
        &mut self,
        line: usize,
        hand: Hand,
        answer: Reply,
        dues: &mut u64,
    ) -> Result<Option<Why>, NoMemory>
        ensures step { IfOk result (λ why. IsStep line self.old (event.Hand hand answer) why self.new) }
        ensures dues { IfOk result (λ why. CountsDuesIf line self.old (event.Hand hand answer) why dues.old dues.new) }
    {
        match self {
            Watch::Between(world) => Ok(hand_over(world, hand, answer)),
            Watch::Marking(running) => running.do_hand(line, hand, answer, dues),
            Watch::Ended(left) => Ok(hand_over(&mut left.world, hand, answer)),
            Watch::Stopped => Ok(Some(Why::Misplaced)),
        }
    }

    // Does the tasks of a line in order, up to the first that can't be done, and then puts the values of the borrowed registers
    // back. Returns the reason against the line, if any. Does nothing if the watch has stopped or there is no such mutator.
    // Copies the registers only if the line borrows any.
    fn do_line(
        &mut self,
        line: usize,
        mutator: u8,
        borrowed: &[u8],
        tasks: &[Task],
        dues: &mut u64,
    ) -> Result<Option<Why>, NoMemory>
        ensures step { IfOk result (λ why. IsStep line self.old (event.Rows mutator borrowed.now tasks.now) why self.new) }
        ensures dues { IfOk result (λ why. CountsDuesIf line self.old (event.Rows mutator borrowed.now tasks.now) why dues.old dues.new) }
    {
        if self.is_stopped() {
            return Ok(Some(Why::Misplaced));
        }
        if borrowed.is_empty() && mutator < self.mutators() {
            return self.act_all(line, mutator, tasks, dues);
        }
        let Some(held) = self.held_values(mutator)? else {
            return Ok(Some(Why::CannotApply));
        };
        let why = self.act_all(line, mutator, tasks, dues)?;
        self.put_back(mutator, held.items(), borrowed);
        Ok(why)
    }

    // Returns the number of mutators, or 0 after the stop.
    fn mutators(&self) -> u8
        ensures { result ≡ mutators_of self.now }
    {
        match self {
            Watch::Between(world) => world.mutators(),
            Watch::Marking(running) => running.cycle().world().mutators(),
            Watch::Ended(left) => left.world.mutators(),
            Watch::Stopped => 0,
        }
    }

    // Returns the values in a mutator's registers, in order, or `None` if there is no such mutator.
    fn held_values(&self, mutator: u8) -> Result<Option<List<Value>>, NoMemory>
        ensures { IfOk result (AreHeldIf mutator self.now) }
    {
        match self {
            Watch::Between(world) => registers_of(world, mutator),
            Watch::Marking(running) => registers_of(running.cycle().world(), mutator),
            Watch::Ended(left) => registers_of(&left.world, mutator),
            Watch::Stopped => Ok(None),
        }
    }

    // Puts the values of the borrowed registers back, which are in `held`, by the number of the register. Registers that a
    // mutator doesn't have are passed over. Requires that the heap has all names in `held`.
    fn put_back(&mut self, mutator: u8, held: &[Value], borrowed: &[u8])
        requires mutator { mutator < mutators_of self.old }
        requires known { AreKnownIn self.old held.now }
        ensures { self.new ≡ put_back mutator held.now borrowed.now self.old }
    {
        for register in borrowed {
            self.put(mutator, *register, held_value(held, *register));
        }
    }

    // Puts a known value into a register of a mutator, if there is such a register. Requires that there is such a mutator.
    fn put(&mut self, mutator: u8, register: u8, value: Value)
        requires mutator { mutator < mutators_of self.old }
        requires known { IsKnownIn self.old value }
        ensures { self.new ≡ put mutator register value self.old }
    {
        if register >= REGISTERS {
            return;
        }
        match self {
            Watch::Between(world) => {
                let _fine = world.set_register(mutator, register, value);
            }
            Watch::Marking(running) => running.set_register(mutator, register, value),
            Watch::Ended(left) => {
                let _fine = left.world.set_register(mutator, register, value);
            }
            Watch::Stopped => {}
        }
    }

    // Whether the watch has stopped.
    fn is_stopped(&self) -> bool
        ensures { result ≡ is_stopped self.now }
    {
        match self {
            Watch::Stopped => true,
            Watch::Between(_) | Watch::Marking(_) | Watch::Ended(_) => false,
        }
    }

    // Does the tasks in order up to the first that can't be done, and returns the reason against that task, if any.
    fn act_all(
        &mut self,
        line: usize,
        mutator: u8,
        tasks: &[Task],
        dues: &mut u64,
    ) -> Result<Option<Why>, NoMemory>
        ensures acted { IfOk result (λ why. AreActed line mutator tasks.now self.old why self.new) }
        ensures dues { IfOk result (λ why. CountsDuesIf line self.old (event.Rows mutator [] tasks.now) why dues.old dues.new) }
    {
        for task in tasks {
            let why = self.act(line, mutator, task, dues)?;
            if why.is_some() {
                return Ok(why);
            }
        }
        Ok(None)
    }

    // Does one of several tasks in a line. If it can't be done, returns the reason and changes nothing.
    fn act(
        &mut self,
        line: usize,
        mutator: u8,
        task: &Task,
        dues: &mut u64,
    ) -> Result<Option<Why>, NoMemory>
        ensures act { IfOk result (λ why. IsAct line mutator task.now self.old why self.new) }
        ensures dues { IfOk result (λ why. AddsDuesIf self.old mutator task.now.command why dues.old dues.new) }
    {
        match self {
            Watch::Between(world) => act(world, mutator, task),
            Watch::Marking(running) => running.act(line, mutator, task, dues),
            Watch::Ended(left) => act(&mut left.world, mutator, task),
            Watch::Stopped => Ok(Some(Why::Misplaced)),
        }
    }

    // Begins marking, or returns the reason why marking can't begin.
    fn mark(&mut self) -> Result<Option<Why>, NoMemory>
        ensures { IfOk result (λ why. IsStep 0 self.old event.Mark why self.new) }
    {
        let running = match self {
            Watch::Between(world) => Running::new(world)?,
            Watch::Ended(left) => Running::new(&left.world)?,
            Watch::Marking(_) | Watch::Stopped => return Ok(Some(Why::Misplaced)),
        };
        *self = Watch::Marking(running);
        Ok(None)
    }

    // Begins marking with later roots, or returns the reason why marking can't begin.
    fn mark_shared(&mut self) -> Result<Option<Why>, NoMemory>
        ensures { IfOk result (λ why. IsStep 0 self.old event.MarkShared why self.new) }
    {
        let running = match self {
            Watch::Between(world) => Running::without_registers(world)?,
            Watch::Ended(left) => Running::without_registers(&left.world)?,
            Watch::Stopped | Watch::Marking(_) => return Ok(Some(Why::Misplaced)),
        };
        *self = Watch::Marking(running);
        Ok(None)
    }

    // Scans a mutator, or returns the reason why it can't be scanned.
    fn scan(&mut self, mutator: u8) -> Result<Option<Why>, NoMemory>
        ensures { IfOk result (λ why. IsStep 0 self.old (event.Scan mutator) why self.new) }
    {
        match self {
            Watch::Marking(running) => running.scan(mutator),
            Watch::Between(_) | Watch::Ended(_) | Watch::Stopped => Ok(Some(Why::Misplaced)),
        }
    }

    // Empties the registers of a mutator that ends, and scans it if a cycle goes on that hasn't scanned it. Returns the
    // reason why it can't end, if there is one.
    fn exit(&mut self, line: usize, mutator: u8, dues: &mut u64) -> Result<Option<Why>, NoMemory>
        ensures step { IfOk result (λ why. IsStep line self.old (event.Exit mutator) why self.new) }
        ensures dues { IfOk result (λ why. CountsDuesIf line self.old (event.Exit mutator) why dues.old dues.new) }
    {
        let why = self.empty_registers(line, mutator, dues)?;
        if why.is_some() {
            return Ok(why);
        }
        let _scanned_before = self.scan(mutator)?;
        Ok(None)
    }

    // Empties all registers of a mutator by commands of one line, or returns the reason why it can't.
    fn empty_registers(
        &mut self,
        line: usize,
        mutator: u8,
        dues: &mut u64,
    ) -> Result<Option<Why>, NoMemory>
        ensures step { IfOk result (λ why. IsStep line self.old (event.Rows mutator [] (emptied REGISTERS)) why self.new) }
        ensures dues { IfOk result (λ why. CountsDuesIf line self.old (event.Rows mutator [] (emptied REGISTERS)) why dues.old dues.new) }
    {
        let Some(alloc) = self.alloc() else {
            return Ok(Some(Why::Misplaced));
        };
        let tasks = nil_tasks(alloc)?;
        let borrowed = List::new(alloc);
        self.do_line(line, mutator, borrowed.items(), tasks.items(), dues)
    }

    // Returns the allocator of the heap, or `None` after the stop.
    fn alloc(&self) -> Option<Global>
        ensures { IfNone result (is_stopped self.now ≡ true) }
    {
        match self {
            Watch::Between(world) => Some(world.alloc()),
            Watch::Marking(running) => Some(running.cycle().world().alloc()),
            Watch::Ended(left) => Some(left.world.alloc()),
            Watch::Stopped => None,
        }
    }

    // Takes the push of a name (`Cycle::push`), or returns the reason why the name can't have been pushed.
    fn push(&mut self, name: Name) -> Result<Option<Why>, NoMemory>
        ensures { IfOk result (λ why. IsStep 0 self.old (event.Push name) why self.new) }
    {
        match self {
            Watch::Marking(running) => running.push(name),
            Watch::Between(_) | Watch::Ended(_) | Watch::Stopped => Ok(Some(Why::Misplaced)),
        }
    }

    // Returns the reason why a mutator can't have settled its debts, or `None` if it has settled them.
    fn reason_against_settle(&mut self, mutator: u8) -> Option<Why>
        ensures { IsStep 0 self.old (event.Settle mutator) result self.new }
    {
        match self {
            Watch::Marking(running) => running.reason_against_settle(mutator),
            Watch::Between(_) | Watch::Ended(_) | Watch::Stopped => Some(Why::Misplaced),
        }
    }

    // Adds a name that the marker took, or returns the reason why the name can't have been taken.
    fn take(&mut self, name: Name) -> Result<Option<Why>, NoMemory>
        ensures { IfOk result (λ why. IsStep 0 self.old (event.Take name) why self.new) }
    {
        match self {
            Watch::Marking(running) => running.take(name),
            Watch::Between(_) | Watch::Ended(_) | Watch::Stopped => Ok(Some(Why::Misplaced)),
        }
    }

    // Ends marking with the death of all dead weak pointers, or returns the reason why marking can't end.
    fn close(&mut self) -> Result<Option<Why>, NoMemory>
        ensures { IfOk result (λ why. IsStep 0 self.old event.Close why self.new) }
    {
        let ended = match self {
            Watch::Marking(running) => running.result_or_why()?,
            Watch::Between(_) | Watch::Ended(_) | Watch::Stopped => {
                return Ok(Some(Why::Misplaced));
            }
        };
        match ended {
            Ok(left) => {
                *self = Watch::Ended(left);
                Ok(None)
            }
            Err(why) => Ok(Some(why)),
        }
    }

    // Ends marking with the death of exactly these weak pointers, or returns the reason against such an end.
    fn close_with(&mut self, dead: &[Name]) -> Result<Option<Why>, NoMemory>
        ensures { IfOk result (λ why. IsStep 0 self.old (event.CloseWith dead.now) why self.new) }
    {
        let ended = match self {
            Watch::Marking(running) => running.result_or_why_with(dead)?,
            Watch::Between(_) | Watch::Ended(_) | Watch::Stopped => {
                return Ok(Some(Why::Misplaced));
            }
        };
        match ended {
            Ok(left) => {
                *self = Watch::Ended(left);
                Ok(None)
            }
            Err(why) => Ok(Some(why)),
        }
    }

    // Returns the reason why the runtime can't have marked exactly these names, if there is one.
    fn reason_against_marked(&self, names: &[Name]) -> Result<Option<Why>, NoMemory>
        ensures { IfOk result (λ why. IsStep 0 self.now (event.Marked names.now) why self.now) }
    {
        match self {
            Watch::Ended(left) => left.reason_against_marked(names),
            Watch::Between(_) | Watch::Marking(_) | Watch::Stopped => Ok(Some(Why::Misplaced)),
        }
    }

    // Returns the reason why the runtime can't have marked exactly these names, if those made since the snapshot don't count.
    fn reason_against_black(&self, names: &[Name]) -> Result<Option<Why>, NoMemory>
        ensures { IfOk result (λ why. IsStep 0 self.now (event.Black names.now) why self.now) }
    {
        match self {
            Watch::Ended(left) => left.reason_against_black(names),
            Watch::Between(_) | Watch::Marking(_) | Watch::Stopped => Ok(Some(Why::Misplaced)),
        }
    }

    // Returns the reason why the runtime can't have freed these names, if there is one.
    fn reason_against_freed(&self, names: &[Name]) -> Option<Why>
        ensures { IsStep 0 self.now (event.Freed names.now) result self.now }
    {
        match self {
            Watch::Ended(left) => left.reason_against_freed(names),
            Watch::Between(_) | Watch::Marking(_) | Watch::Stopped => Some(Why::Misplaced),
        }
    }

    // Stops the watch, or returns the reason why the trace can't end here.
    fn stop(&mut self) -> Option<Why>
        ensures { IsStep 0 self.old event.Stop result self.new }
    {
        match self {
            Watch::Ended(_) => {}
            Watch::Between(_) | Watch::Marking(_) | Watch::Stopped => {
                return Some(Why::Misplaced);
            }
        }
        *self = Watch::Stopped;
        None
    }
}

// Returns a list of `count` equal flags.
fn flags(alloc: Global, flag: bool, count: usize) -> Result<List<bool>, NoMemory>
    ensures { IfOk result (λ flags. flags ≡ replicate count flag) }
{
    List::from_vec(vec![in alloc; flag; count]?)
}

// Sets the flag of a mutator, if there is one.
fn set_flag(flags: &mut List<bool>, mutator: u8)
    ensures { flags.new ≡ slice_set flags.old mutator true }
{
    let place = mutator as usize;
    if place >= flags.items().len() {
        return;
    }
    flags.items_mut()[place] = true;
}

// Does a command in the world if the world can take it and gives this answer. Otherwise returns why not and changes nothing.
fn give(
    world: &mut World,
    mutator: u8,
    command: &Command,
    answer: Reply,
) -> Result<Option<Why>, NoMemory>
    ensures { IfOk result (λ why. IsGivenIf world.old mutator command.now answer why world.new) }
{
    if !world.can_apply(mutator, command) {
        return Ok(Some(Why::CannotApply));
    }
    let reply = world.reply(mutator, command);
    if reply != answer {
        return Ok(Some(Why::Answer(reply)));
    }
    world.apply(mutator, command)?;
    Ok(None)
}

// Hands a value over in the world if it can do so and answers this. Otherwise returns why not and changes nothing.
fn hand_over(world: &mut World, hand: Hand, answer: Reply) -> Option<Why>
    ensures { IsHandIf world.old hand answer result world.new }
{
    if !can_hand(world, hand) {
        return Some(Why::CannotApply);
    }
    if answer != Reply::Fine {
        return Some(Why::Answer(Reply::Fine));
    }
    let value = world.value(hand.giver, hand.value);
    let _fine = world.set_register(hand.taker, hand.dest, value);
    None
}

// Does a task in the world if the world's answer suits it. Otherwise changes nothing and returns the reason.
fn act(world: &mut World, mutator: u8, task: &Task) -> Result<Option<Why>, NoMemory>
    ensures { IfOk result (λ why. IsDoneIf world.old mutator task.now why world.new) }
{
    if !world.can_apply(mutator, &task.command) {
        return Ok(Some(Why::CannotApply));
    }
    let reply = world.reply(mutator, &task.command);
    if !suits(task.answer, reply) {
        return Ok(Some(Why::Answer(reply)));
    }
    world.apply(mutator, &task.command)?;
    Ok(None)
}

// Returns the values in a mutator's registers, in order, in memory of their own, or `None` if there is no such mutator.
fn registers_of(world: &World, mutator: u8) -> Result<Option<List<Value>>, NoMemory>
    ensures { IfOk result (AreHeldIn mutator world.now) }
{
    if mutator >= world.mutators() {
        return Ok(None);
    }
    let mut held = Vec::new(world.alloc());
    held.extend_from_slice(world.registers(mutator))?;
    let values = List::from_vec(held)?;
    Ok(Some(values))
}

// Returns the value of the register with this number, among the values of registers in order, or nil if there is none.
fn held_value(held: &[Value], register: u8) -> Value
    ensures { result ≡ slice_index_or held.now register Value.Nil }
{
    match held.get(register as usize) {
        Some(value) => *value,
        None => Value::Nil,
    }
}
