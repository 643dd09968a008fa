//! A round while a cycle is marking: a variable holds the only reference to an object as the cycle begins. The collector
//! reads the variable before the mutator overwrites it, or after that.
ghost use Rattle.nmgc_mutator.specs.declared.mutator.TheConstants.{MOST_PUSHED};
ghost use Rattle.std.specs.Prelude.{◌≡◌, ◌*◌, ◌<◌, ◌≤◌, true, [], IfOk, IfSome, vec_capacity};
ghost use Rattle.nmgc_heap_spec.specs.Samples.{small_layout};
ghost use Rattle.nmgc_object.specs.Words.{word_total};
ghost use Rattle.nmgc_round.specs.{View.whole, Seat.IsAt, Seat.seen, Seat.word_count, Seating.alone, Seating.collecting, Ready.HasPart, Ready.scanned_by};
ghost use Rattle.nmgc_heap_tests.specs.Sample.{snapshot_opening, IsSnapshotHeap, IsSnapshotMutator, IsBegun};

use super::laws::a_marking_round_opens;
use nmgc_commands::{Form, PackedCommand};
use nmgc_limits::REGISTERS;
use nmgc_lists::{List, ListMemory, NoMemory, VecList};
use nmgc_mutator::{Mutator, Step, laws};
use nmgc_object::{Address, Layout};
use nmgc_round::witness::WitnessFor;
use nmgc_round::{CollectorSeat, MutatorSeat, Opened, Round, Started, Witness, Words};
use nmgc_updrem::{UpdSender, link};
use nmgc_world_spec::{Operand, Reply};
use std::alloc::Global;
use std::test::Fail;

// The opening of the round.
struct AtSnapshot;

impl WitnessFor<Layout, Opened> for AtSnapshot {
    ghost wanted = { λ layout o. o ≡ snapshot_opening };
}

fn opening(layout: &Layout) -> Witness<Opened>
    ensures { result.value ≡ snapshot_opening }
{
    Witness::of::<Layout, AtSnapshot>(layout)
}

fn small() -> Layout
    ensures { result ≡ small_layout }
{
    layout!(segments: 32, words: 64, nursery: 64, mutators: 1)
}

// The words up to the last object: g, a constructor with 5, and the variable that refers to it. Then a chain of fourteen
// constructors; each refers to the one before it.
const OBJECTS: [u64; 96] = [
    0, 32771, 32, 1, 1, 1, 1, 1, 1, 1, 1, 1, 1, 1, 1, 1, 1, 1, 1, 0, 0, 0, 0, 0, 0, 0, 0, 0, 0, 0,
    0, 0, 2049, 0, 13, 0, 2050, 64, 64, 0, 4097, 128, 1, 13, 4097, 192, 80, 13, 4097, 256, 88, 13,
    4097, 320, 96, 13, 4097, 384, 104, 13, 4097, 448, 112, 13, 4097, 512, 120, 13, 4097, 576, 128,
    13, 4097, 640, 136, 13, 4097, 704, 144, 13, 4097, 768, 152, 13, 4097, 832, 160, 13, 4097, 896,
    168, 13, 4097, 960, 176, 13,
];

// The heap as the cycle begins.
pub(super) fn snapshot_heap(alloc: Global) -> Result<Words, NoMemory>
    ensures { IfOk result IsSnapshotHeap }
{
    let rest = Vec::from_elem(alloc, 1u64, 2048)?;
    let mut words = Vec::new(alloc);
    words.extend_from_slice(OBJECTS.as_slice())?;
    words.extend_from_slice(rest.as_slice())?;
    let heap = Words::new(alloc, words.as_slice())?;
    Ok(heap)
}

// The mutator as the cycle begins, with room for `commands` commands: r0 has the variable, r1 has 5, r3 the last object.
pub(super) fn mutator_with(
    alloc: Global,
    commands: u32,
    sender: UpdSender,
) -> Result<Mutator, NoMemory>
    ensures is { IfOk result IsSnapshotMutator }
    ensures room { IfOk result (λ m. (commands ≤ m.replies.spare) × (commands ≤ m.recorded.spare) × (MOST_PUSHED * commands ≤ m.updrem.spare) ×
        (commands ≤ m.finalised.spare)) }
{
    let layout = small();
    let mut mutator = Mutator::new(alloc, 0, layout, sender)?;
    mutator.reserve(commands)?;
    let mut registers = Vec::from_elem(alloc, 1u64, REGISTERS as usize)?;
    registers[0] = 72;
    registers[1] = 13;
    registers[3] = 184;
    mutator.registers = VecList::from_vec(registers, ListMemory::new(alloc)?);
    mutator.serial = 16;
    Ok(mutator)
}

// The same with room for one command.
fn mutator_at(alloc: Global) -> Result<Mutator, NoMemory>
    ensures is { IfOk result IsSnapshotMutator }
    ensures room { IfOk result (λ m. (0 < m.replies.spare) × (0 < m.recorded.spare) × (0 < m.updrem.spare) × (0 < m.finalised.spare)) }
{
    let (sender, _receiver) = link(alloc)?;
    mutator_with(alloc, 1, sender)
}

// A round that began, with its two seats.
#[derive(Drop)]
pub(super) struct Begun {
    pub(super) round: Round,
    pub(super) seat: MutatorSeat,
    pub(super) collector: CollectorSeat,
}

pub(super) fn begin(
    words: Words,
    room: Vec<MutatorSeat>,
    place: ListMemory<MutatorSeat>,
) -> Option<Begun>
    requires heap { IsSnapshotHeap words }
    requires room { (room.items ≡ []) × (1 ≤ vec_capacity room) }
    ensures { IfSome result (λ b. IsBegun b.round b.seat b.collector × (word_count b.round ≡ word_total small_layout)) }
{
    a_marking_round_opens();
    let layout = small();
    let opening = opening(&layout);
    let Started {
        round,
        mutators,
        collector,
    } = Round::start(words, layout, true, &opening, room, place);
    let mut seats = mutators;
    let seat = seats.pop()?;
    Some(Begun {
        round,
        seat,
        collector,
    })
}

// The collector scans the header of the variable, which is the first entry of its queue.
fn scan_header(round: &Round, collector: &mut CollectorSeat) -> u64
    requires seat { IsAt round.now collector.old × (seen collector.old ≡ collecting (whole snapshot_opening)) }
    requires words { word_count round.now ≡ word_total small_layout }
    ensures { IsAt round.now collector.new × (seen collector.new ≡ scanned_by (collecting (whole snapshot_opening)) result) }
{
    round.scan_load(collector, Address(36), 0)
}

// The collector scans the variable's field.
fn scan_field(round: &Round, collector: &mut CollectorSeat, header: u64) -> u64
    requires seat { IsAt round.now collector.old × (seen collector.old ≡ scanned_by (collecting (whole snapshot_opening)) header) }
    requires words { word_count round.now ≡ word_total small_layout }
    ensures { IsAt round.now collector.new × (seen collector.new ≡ scanned_by (scanned_by (collecting (whole snapshot_opening)) header) result) }
{
    round.scan_load(collector, Address(36), 2)
}

// The mutator overwrites the variable by 5. Returns whether it did.
fn overwrite(round: &Round, seat: &mut MutatorSeat, mutator: &mut Mutator) -> bool
    requires seat { IsAt round.now seat.old × (seen seat.old ≡ alone snapshot_opening 0) }
    requires mutator { IsSnapshotMutator mutator.old }
    requires room { (0 < mutator.old.replies.spare) × (0 < mutator.old.recorded.spare) × (0 < mutator.old.updrem.spare) ×
        (0 < mutator.old.finalised.spare) }
    ensures { IsAt round.now seat.new × HasPart (seen seat.new) 0 }
{
    laws::a_round_finds_mutators_ready();
    a_marking_round_opens();
    let command = PackedCommand {
        form: Form::Set {
            object: Operand::Register(0),
            index: 0,
            value: Operand::Register(1),
        },
    };
    match mutator.step(round, seat, &command) {
        Step::Replied(reply) => reply == Reply::Fine,
        Step::NurseryFull { .. } => false,
    }
}

// The mutator compares the variable with 5, which it doesn't hold. Returns whether the answer was no.
fn compare(round: &Round, seat: &mut MutatorSeat, mutator: &mut Mutator) -> bool
    requires seat { IsAt round.now seat.old × (seen seat.old ≡ alone snapshot_opening 0) }
    requires mutator { IsSnapshotMutator mutator.old }
    requires room { (0 < mutator.old.replies.spare) × (0 < mutator.old.recorded.spare) × (0 < mutator.old.updrem.spare) ×
        (0 < mutator.old.finalised.spare) }
    ensures { IsAt round.now seat.new × HasPart (seen seat.new) 0 }
{
    laws::a_round_finds_mutators_ready();
    a_marking_round_opens();
    let command = PackedCommand {
        form: Form::Cas {
            object: Operand::Register(0),
            index: 0,
            expected: Operand::Register(1),
            value: Operand::Register(2),
        },
    };
    match mutator.step(round, seat, &command) {
        Step::Replied(reply) => reply == Reply::No,
        Step::NurseryFull { .. } => false,
    }
}

// Ends the round, and returns the word of the variable.
fn end(
    round: Round,
    seat: MutatorSeat,
    collector: CollectorSeat,
    room: Vec<MutatorSeat>,
) -> Option<u64>
    requires seat { IsAt round seat × HasPart (seen seat) 0 }
    requires collector { IsAt round collector × ((seen collector).collects ≡ true) × ((seen collector).parts ≡ []) ×
        ((seen collector).opening ≡ snapshot_opening) }
    requires room { room.items ≡ [] }
    requires words { word_count round ≡ word_total small_layout }
{
    let mut seats = room;
    if seats.push(seat).is_err() {
        return None;
    }
    let Ok(seats) = List::from_vec(seats) else {
        return None;
    };
    let mut words = round.finish(seats, collector).words;
    Some(words.load(38))
}

// The outcome of a round: the words that the collector read, and the last word of the variable.
#[derive(Debug, Drop, PartialEq, Eq)]
struct Outcome {
    header: u64,
    field: u64,
    left: u64,
}

// The collector reads the variable, and then the mutator overwrites it.
fn read_first(
    words: Words,
    mutator: &mut Mutator,
    room: Vec<MutatorSeat>,
    place: ListMemory<MutatorSeat>,
    last: Vec<MutatorSeat>,
) -> Option<Outcome>
    requires heap { IsSnapshotHeap words }
    requires mutator { IsSnapshotMutator mutator.old }
    requires lists { (0 < mutator.old.replies.spare) × (0 < mutator.old.recorded.spare) × (0 < mutator.old.updrem.spare) ×
        (0 < mutator.old.finalised.spare) }
    requires room { (room.items ≡ []) × (1 ≤ vec_capacity room) × (last.items ≡ []) }
{
    let Begun {
        round,
        mut seat,
        mut collector,
    } = begin(words, room, place)?;
    let header = scan_header(&round, &mut collector);
    let field = scan_field(&round, &mut collector, header);
    if !overwrite(&round, &mut seat, mutator) {
        return None;
    }
    let left = end(round, seat, collector, last)?;
    Some(Outcome {
        header,
        field,
        left,
    })
}

// The mutator overwrites the variable after the collector read its header, and before it reads its field.
fn written_first(
    words: Words,
    mutator: &mut Mutator,
    room: Vec<MutatorSeat>,
    place: ListMemory<MutatorSeat>,
    last: Vec<MutatorSeat>,
) -> Option<Outcome>
    requires heap { IsSnapshotHeap words }
    requires mutator { IsSnapshotMutator mutator.old }
    requires lists { (0 < mutator.old.replies.spare) × (0 < mutator.old.recorded.spare) × (0 < mutator.old.updrem.spare) ×
        (0 < mutator.old.finalised.spare) }
    requires room { (room.items ≡ []) × (1 ≤ vec_capacity room) × (last.items ≡ []) }
{
    let Begun {
        round,
        mut seat,
        mut collector,
    } = begin(words, room, place)?;
    let header = scan_header(&round, &mut collector);
    if !overwrite(&round, &mut seat, mutator) {
        return None;
    }
    let field = scan_field(&round, &mut collector, header);
    let left = end(round, seat, collector, last)?;
    Some(Outcome {
        header,
        field,
        left,
    })
}

// The mutator compares the variable with another value after the collector read its header.
fn compared(
    words: Words,
    mutator: &mut Mutator,
    room: Vec<MutatorSeat>,
    place: ListMemory<MutatorSeat>,
    last: Vec<MutatorSeat>,
) -> Option<Outcome>
    requires heap { IsSnapshotHeap words }
    requires mutator { IsSnapshotMutator mutator.old }
    requires lists { (0 < mutator.old.replies.spare) × (0 < mutator.old.recorded.spare) × (0 < mutator.old.updrem.spare) ×
        (0 < mutator.old.finalised.spare) }
    requires room { (room.items ≡ []) × (1 ≤ vec_capacity room) × (last.items ≡ []) }
{
    let Begun {
        round,
        mut seat,
        mut collector,
    } = begin(words, room, place)?;
    let header = scan_header(&round, &mut collector);
    if !compare(&round, &mut seat, mutator) {
        return None;
    }
    let field = scan_field(&round, &mut collector, header);
    let left = end(round, seat, collector, last)?;
    Some(Outcome {
        header,
        field,
        left,
    })
}

// A compare-exchange that answers no writes nothing, and owes nothing.
#[test]
fn a_comparison_that_fails_changes_nothing(rt: HostRuntime) -> Result<(), Fail> {
    let alloc = rt.alloc();
    let words = snapshot_heap(alloc)?;
    let room = Vec::with_capacity(alloc, 1)?;
    let place = ListMemory::new(alloc)?;
    let mut mutator = mutator_at(alloc)?;
    let outcome = compared(words, &mut mutator, room, place, Vec::new(alloc));
    assert!(rt;
        outcome
            == Some(Outcome {
                header: 2050,
                field: 64,
                left: 64
            })
    );
    assert!(rt; mutator.updrem.entries() == [].as_slice());
    Ok(())
}

// The reference that the variable held is pushed, whether the collector read it or not.
#[test]
fn an_overwritten_reference_is_pushed(rt: HostRuntime) -> Result<(), Fail> {
    let alloc = rt.alloc();
    let words = snapshot_heap(alloc)?;
    let room = Vec::with_capacity(alloc, 1)?;
    let place = ListMemory::new(alloc)?;
    let mut mutator = mutator_at(alloc)?;
    let outcome = read_first(words, &mut mutator, room, place, Vec::new(alloc));
    assert!(rt;
        outcome
            == Some(Outcome {
                header: 2050,
                field: 64,
                left: 13
            })
    );
    assert!(rt; mutator.updrem.entries() == [Address(32)].as_slice());
    let words = snapshot_heap(alloc)?;
    let room = Vec::with_capacity(alloc, 1)?;
    let place = ListMemory::new(alloc)?;
    let mut mutator = mutator_at(alloc)?;
    let outcome = written_first(words, &mut mutator, room, place, Vec::new(alloc));
    assert!(rt;
        outcome
            == Some(Outcome {
                header: 2050,
                field: 13,
                left: 13
            })
    );
    assert!(rt; mutator.updrem.entries() == [Address(32)].as_slice());
    Ok(())
}
