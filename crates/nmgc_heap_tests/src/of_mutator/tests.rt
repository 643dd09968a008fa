//! Programs on the empty heap: slices of one mutator, and two in threads. Commands' replies are in `examples/rows/runs.rows`.
ghost use Rattle.std.specs.Prelude.{ℕ, List, ◌≡◌, ◌<◌, ◌≤◌, [], All, IfOk, IsTrue, length, min, slice_index_or, vec_capacity};
ghost use Rattle.nmgc_world_spec.specs.World.{Fits, HasNumbers, words_made};
ghost use Rattle.nmgc_object.specs.Layouts.{IsLayout};
ghost use Rattle.nmgc_round.specs.{Empty.IsEmptyHeap, Empty.first_opening, Starting.CanOpen, Seat.RoundSeat, Seat.IsAt, Seat.seen, Seating.alone};
ghost use Rattle.nmgc_mutator.specs.{Ready.IsNew, Slice.HasRoom};

use crate::of_round::empty_heap;
use nmgc_commands::PackedCommand;
use nmgc_limits::MAKERS;
use nmgc_lists::{ListMemory, NoMemory};
use nmgc_mutator::{Mutator, Slice, SliceEnd};
use nmgc_object::Layout;
use nmgc_round::witness::WitnessFor;
use nmgc_round::{Gate, MutatorSeat, OpenGate, Opened, Round, Started, Witness, Words};
use nmgc_updrem::link;
use nmgc_world_spec::{Command, Name, Operand, Reply, Value};
use std::alloc::Global;
use std::sync::atomic::{AtomicU64, Ordering};
use std::test::Fail;
use std::thread;
use std::thread::Threads;

// The opening of a run's first round.
struct First;

impl WitnessFor<Layout, Opened> for First {
    ghost wanted = { λ layout o. o ≡ first_opening layout };
}

fn first_of(layout: &Layout) -> Witness<Opened>
    ensures { result.value ≡ first_opening layout.now }
{
    Witness::of::<Layout, First>(layout)
}

// A layout of one mutator, with segments of 16 words and a nursery of `nursery` words.
fn small(nursery: u32) -> Layout
    requires { (16 ≤ nursery) × (nursery ≤ 4194288) }
    ensures layout { IsLayout result }
    ensures sizes { (result.words ≡ 16) × (result.mutators ≡ 1) }
{
    layout!(segments: 1, words: 16, nursery: nursery, mutators: 1)
}

// Whether the command's numbers are within their limits, and it makes at most 16 words.
fn has_limits(command: &Command) -> bool
    ensures { IsTrue result → HasNumbers command.now × (words_made command.now ≤ 16) }
{
    match command {
        Command::Nil { .. } | Command::Mov { .. } | Command::Var { .. } => true,
        Command::Show { .. } | Command::Same { .. } => true,
        Command::Yield | Command::Collect | Command::Full => true,
        Command::Num { number, .. } => *number < 1_000_000,
        Command::Arr { count, .. } => *count <= 14,
        Command::Get { index, .. } | Command::Set { index, .. } => *index < 65_536,
        _ => false,
    }
}

// Whether a script for segments of 16 words may have the command.
fn can_run(command: &Command) -> bool
    ensures { IsTrue result → Fits 16 command.now }
{
    if command.has_registers() && has_limits(command) {
        return true;
    }
    false
}

// Whether a script for segments of 16 words may have all of the commands.
fn can_run_all(program: &[Command]) -> bool
    ensures { IsTrue result → All (Fits 16) program.now }
{
    program.iter().all(|command| can_run(command))
}

// Packs the commands as a program has them.
fn packed(alloc: Global, commands: &[Command]) -> Result<Vec<PackedCommand>, NoMemory>
    ensures { IfOk result (λ program. program.items ≡ commands.now) }
{
    let mut program = Vec::new(alloc);
    for command in commands {
        program.push(PackedCommand::pack(alloc, command)?)?;
    }
    Ok(program)
}

// A slice of a new mutator.
fn slice_on(
    words: Words,
    layout: Layout,
    mutator: Mutator,
    program: &[PackedCommand],
    slice: u32,
    room: Vec<MutatorSeat>,
    place: ListMemory<MutatorSeat>,
) -> Option<(Slice, Mutator)>
    requires layout { IsLayout layout × (layout.mutators ≡ 1) }
    requires heap { IsEmptyHeap layout words }
    requires mutator { IsNew 0 layout mutator }
    requires program { All (Fits layout.words) program.now }
    requires room { (room.items ≡ []) × (1 ≤ vec_capacity room) }
    requires lists { HasRoom mutator (min slice (length program.now)) }
{
    nmgc_round::laws::empty_heap_opens();
    let opening = first_of(&layout);
    let mut mutator = mutator;
    let Started {
        round,
        mutators,
        collector: _,
    } = Round::start(words, layout, false, &opening, room, place);
    let mut seats = mutators;
    let Some(first) = seats.pop() else {
        return None;
    };
    let mut seat = first;
    let done = mutator.run_slice(&round, &mut seat, program, slice, &OpenGate);
    Some((done, mutator))
}

// A slice of a new mutator on the empty heap, with a nursery of `nursery` words.
fn slice_of(
    alloc: Global,
    nursery: u32,
    program: &[Command],
    slice: u32,
) -> Result<Option<(Slice, Mutator)>, NoMemory>
    requires nursery { (16 ≤ nursery) × (nursery ≤ 4194288) }
    requires slice { slice ≤ 1048576 }
{
    if !can_run_all(program) {
        return Ok(None);
    }
    let program = packed(alloc, program)?;
    let layout = small(nursery);
    let words = empty_heap(alloc, &layout)?;
    let room = Vec::with_capacity(alloc, 1)?;
    let place = ListMemory::new(alloc)?;
    let (sender, _receiver) = link(alloc)?;
    let mut mutator = Mutator::new(alloc, 0, layout, sender)?;
    mutator.reserve(slice)?;
    Ok(slice_on(
        words,
        layout,
        mutator,
        program.as_slice(),
        slice,
        room,
        place,
    ))
}

fn num(dest: u8, number: u64) -> Command {
    Command::Num { dest, number }
}

fn get(dest: u8, object: Operand, index: u32) -> Command {
    Command::Get {
        dest,
        object,
        index,
    }
}

fn set(object: Operand, index: u32, value: u8) -> Command {
    Command::Set {
        object,
        index,
        value: Operand::Register(value),
    }
}

fn made(serial: u32) -> Reply {
    Reply::Given(Value::Ref(Name { maker: 0, serial }))
}

fn var(dest: u8, value: u8) -> Command {
    Command::Var {
        dest,
        value: Operand::Register(value),
    }
}

fn same(left: u8, right: Operand) -> Command {
    Command::Same {
        left: Operand::Register(left),
        right,
    }
}

fn show(value: u8) -> Command {
    Command::Show {
        value: Operand::Register(value),
    }
}

// Registers, comparisons and the end of a slice: replies, and the gate's passes. r1 has 5, r3 and r4 are two variables.
#[test]
fn a_slice_ends_at_a_yield(rt: HostRuntime) -> Result<(), Fail> {
    let r = Operand::Register;
    let g = Operand::Shared;
    let mov = |dest, value| Command::Mov { dest, value };
    let rows = vec![in rt.alloc();
        (num(1, 5), Reply::Fine),
        (var(3, 1), made(0)),
        (var(4, 3), made(1)),
        (mov(5, r(4)), Reply::Fine),
        (same(4, r(5)), Reply::Yes),
        (same(4, r(3)), Reply::No),
        (same(1, g), Reply::No),
        (mov(6, g), Reply::Fine),
        (show(6), Reply::Given(Value::Ref(Name::SHARED))),
        (Command::Nil { dest: 6 }, Reply::Fine),
        (show(6), Reply::Given(Value::Nil)),
        (Command::Yield, Reply::Fine),
    ]?;
    let mut program = Vec::new(rt.alloc());
    let mut replies = Vec::new(rt.alloc());
    for (command, reply) in rows {
        program.push(command)?;
        replies.push(reply)?;
    }
    program.push(Command::Nil { dest: 1 })?;
    let Some((slice, mutator)) = slice_of(rt.alloc(), 64, program.as_slice(), 1024)? else {
        assert!(rt; false);
        return Ok(());
    };
    let end = SliceEnd::Yield;
    assert!(rt; slice == Slice { done: 12, end });
    assert!(rt; mutator.replies.items() == replies.as_slice());
    assert!(rt; mutator.turns == 12);
    Ok(())
}

// Whether a slice of at most `slice` of these commands ends so, with a nursery of 16 words.
fn ends(
    alloc: Global,
    program: &[Command],
    slice: u32,
    done: u32,
    end: SliceEnd,
) -> Result<bool, NoMemory>
    requires { slice ≤ 1048576 }
{
    let Some((ended, mutator)) = slice_of(alloc, 16, program, slice)? else {
        return Ok(false);
    };
    let tried = match end {
        SliceEnd::Nursery { .. } => u64::from(done) + 1,
        _ => u64::from(done),
    };
    Ok(ended == Slice { done, end } && mutator.turns == tried)
}

// The first of the reasons ends a slice. An array with 10 fields has 12 words and a variable 3, so both leave 1 word of 16.
#[test]
fn a_slice_ends_by_the_first_reason(rt: HostRuntime) -> Result<(), Fail> {
    let nil = [num(0, 1), num(0, 2), Command::Yield, num(0, 3)];
    assert!(rt; ends(rt.alloc(), nil.as_slice(), 2, 2, SliceEnd::Slice)?);
    assert!(rt; ends(rt.alloc(), nil.as_slice(), 3, 3, SliceEnd::Yield)?);
    assert!(rt; ends(rt.alloc(), nil.as_slice(), 4, 3, SliceEnd::Yield)?);
    let asks = [num(0, 1), Command::Collect, num(0, 3)];
    assert!(rt; ends(rt.alloc(), asks.as_slice(), 1, 1, SliceEnd::Slice)?);
    assert!(rt; ends(rt.alloc(), asks.as_slice(), 3, 2, SliceEnd::Collect)?);
    let whole = [num(0, 1), Command::Full, num(0, 3)];
    assert!(rt; ends(rt.alloc(), whole.as_slice(), 3, 2, SliceEnd::Full)?);
    let two = [num(0, 1), num(0, 2)];
    assert!(rt; ends(rt.alloc(), two.as_slice(), 1, 1, SliceEnd::Slice)?);
    assert!(rt; ends(rt.alloc(), two.as_slice(), 2, 2, SliceEnd::Program)?);
    assert!(rt; ends(rt.alloc(), two.as_slice(), 9, 2, SliceEnd::Program)?);
    let value = Operand::Shared;
    let full = [
        Command::Arr {
            dest: 0,
            count: 10,
            value,
        },
        Command::Var { dest: 1, value },
        Command::Var { dest: 2, value },
    ];
    assert!(rt; ends(rt.alloc(), full.as_slice(), 2, 2, SliceEnd::Slice)?);
    assert!(rt;
        ends(
            rt.alloc(),
            full.as_slice(),
            3,
            2,
            SliceEnd::Nursery { need: 3, left: 1 }
        )?
    );
    Ok(())
}

// The numbers that the two mutators of a round read.
#[derive(Drop)]
struct Read {
    by: [AtomicU64; 2],
}

impl Read {
    fn new() -> Read {
        Read {
            by: [AtomicU64::new(0), AtomicU64::new(0)],
        }
    }

    fn put(&self, who: u8, number: u64) {
        self.by[usize::from(who != 0)].store(number, Ordering::SeqCst);
    }

    fn of(&self, who: u8) -> u64 {
        self.by[usize::from(who != 0)].load(Ordering::SeqCst)
    }
}

// A mutator stores its number plus one into the first slot of g, and reads that slot.
fn work<G: Gate>(
    alloc: Global,
    round: &Round,
    seat: &mut MutatorSeat,
    layout: Layout,
    number: u8,
    read: &Read,
    gate: &G,
) -> Result<(), NoMemory>
    requires seat { IsAt round.now seat.old × (seen seat.old ≡ alone (first_opening layout) number) }
    requires opens { (words : List ℕ) × CanOpen (first_opening layout) words }
    requires layout { IsLayout layout × (number < layout.mutators) × (layout.words ≡ 16) }
{
    let program = [
        num(1, u64::from(number) + 1),
        set(Operand::Shared, 0, 1),
        get(2, Operand::Shared, 0),
    ];
    if !can_run_all(program.as_slice()) {
        return Err(NoMemory);
    }
    let program = packed(alloc, program.as_slice())?;
    let (sender, _receiver) = link(alloc)?;
    let mut mutator = Mutator::new(alloc, number, layout, sender)?;
    mutator.reserve(3)?;
    mutator.run_slice(round, seat, program.as_slice(), 3, gate);
    if let Some(Reply::Given(Value::Number(found))) = mutator.replies.items().last() {
        read.put(number, *found);
    }
    Ok(())
}

// Each in a thread of its own.
fn work_all<R: Threads + Sync, G: Gate>(
    rt: &R,
    alloc: Global,
    round: &Round,
    seats: &mut [MutatorSeat],
    layout: Layout,
    read: &Read,
    gate: &G,
)
    requires opens { (words : List ℕ) × CanOpen (first_opening layout) words }
    requires layout { IsLayout layout × (layout.words ≡ 16) }
    requires seats { (length seats.old ≡ layout.mutators) × ((k : ℕ) (d : RoundSeat) → k < length seats.old →
        IsAt round.now (slice_index_or seats.old k d) × (seen (slice_index_or seats.old k d) ≡ alone (first_opening layout) k)) }
{
    thread::for_each_mut(
        rt,
        seats,
        MAKERS as usize,
        &|number, seat: &mut MutatorSeat|
            requires { IsAt round.now seat.now × (seen seat.now ≡ alone (first_opening layout) number) ×
                ((words : List ℕ) × CanOpen (first_opening layout) words) × IsLayout layout × (number < layout.mutators) × (layout.words ≡ 16) }
        {
            let _ = work(alloc, round, seat, layout, number as u8, read, gate);
        },
    );
}

// A round in which each mutator works in a thread of its own.
fn worked<R: Threads + Sync, G: Gate>(
    rt: &R,
    alloc: Global,
    words: Words,
    layout: Layout,
    read: &Read,
    gate: &G,
) -> Result<(), NoMemory>
    requires layout { IsLayout layout × (layout.words ≡ 16) }
    requires heap { IsEmptyHeap layout words }
{
    let room = Vec::with_capacity(alloc, usize::from(layout.mutators))?;
    let place = ListMemory::new(alloc)?;
    nmgc_round::laws::empty_heap_opens();
    let opening = first_of(&layout);
    let Started {
        round,
        mutators,
        collector: _,
    } = Round::start(words, layout, false, &opening, room, place);
    let mut seats = mutators;
    work_all(rt, alloc, &round, seats.items_mut(), layout, read, gate);
    Ok(())
}

fn two() -> Layout
    ensures layout { IsLayout result }
    ensures words { (result.words ≡ 16) × (result.mutators ≡ 2) }
{
    layout!(segments: 1, words: 16, nursery: 16, mutators: 2)
}

// The numbers that two mutators read under this gate.
fn both<R: Threads + Sync, G: Gate>(
    rt: &R,
    alloc: Global,
    gate: &G,
) -> Result<(u64, u64), NoMemory> {
    let layout = two();
    let words = empty_heap(alloc, &layout)?;
    let read = Read::new();
    worked(rt, alloc, words, layout, &read, gate)?;
    Ok((read.of(0), read.of(1)))
}

// Mutator 0 stores 1 and mutator 1 stores 2. They can't both read the other's number: in one order of the four commands, the
// mutator of the last `set` reads after it.
#[test]
fn two_mutators_read_by_one_order(rt: HostRuntime) -> Result<(), Fail> {
    for _ in 0..1000u32 {
        let read = both(&rt, rt.alloc(), &OpenGate)?;
        assert!(rt; read == (1, 1) || read == (1, 2) || read == (2, 2));
    }
    Ok(())
}

// A gate that holds up the `set` of the late mutator until the other has reached its `get`, and then that `get` until the
// late mutator has reached its own.
#[derive(Drop)]
struct Meet {
    late: u8,
    reached: Read,
    given_up: AtomicU64,
}

impl Gate for Meet {
    fn pass(&self, who: u8, turn: u64) {
        self.reached.put(who, turn);
        if turn != if who == self.late { 2 } else { 3 } {
            return;
        }
        for _ in 0..1_000_000_000u32 {
            if self.reached.of(1 - who.min(1)) >= 3 {
                return;
            }
        }
        self.given_up.store(1, Ordering::SeqCst);
    }
}

// Both read the number that the late mutator stored: its `set` comes after the other's `set` and before both reads.
#[test]
fn the_gate_is_passed_before_each_command(rt: HostRuntime) -> Result<(), Fail> {
    for late in 0..2u8 {
        let meet = Meet {
            late,
            reached: Read::new(),
            given_up: AtomicU64::new(0),
        };
        let read = both(&rt, rt.alloc(), &meet)?;
        let number = u64::from(late) + 1;
        assert!(rt; read == (number, number));
        assert!(rt; meet.given_up.load(Ordering::SeqCst) == 0);
    }
    Ok(())
}
