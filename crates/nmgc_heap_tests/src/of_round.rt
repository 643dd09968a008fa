//! Rounds from the empty heap, with at most one mutator for each slot of g, in threads of their own.
ghost use Rattle.std.specs.Prelude.{◌≡◌, ◌<◌, ◌≤◌, ℕ, [], All, IfOk, length, map, vec_capacity, slice_index_or};
ghost use Rattle.nmgc_limits.specs.declared.mutators.TheConstants.{SHARED_SLOTS};
ghost use Rattle.nmgc_object.specs.{Layouts.IsLayout, Words.word_total};
ghost use Rattle.nmgc_round.specs.{Seat.RoundSeat, Seat.IsAt, Seat.seen, Seat.word_count, Seat.opening_of, Seating.alone, Seating.alones, Empty.IsEmptyHeap, Empty.first_opening, Ready.HasPart};

use nmgc_commands::{Form, PackedCommand};
use nmgc_limits::SHARED_SLOTS;
use nmgc_lists::{ListMemory, NoMemory};
use nmgc_object::{Address, Layout, encode_name};
use nmgc_round::witness::WitnessFor;
use nmgc_round::{Gate, MutatorSeat, OpenGate, Opened, Round, Started, Witness, Words, laws};
use nmgc_world_spec::{Name, Operand};
use std::alloc::Global;
use std::test::Fail;
use std::thread;
use std::thread::Threads;

// The opening of a run's first round.
struct First;

impl WitnessFor<Layout, Opened> for First {
    ghost wanted = { λ layout o. o ≡ first_opening layout };
}

fn first_of(layout: &Layout) -> Witness<Opened>
    ensures { result.value ≡ first_opening layout.now }
{
    Witness::of::<Layout, First>(layout)
}

// The words of the empty heap. The header word of an array with 16 fields is 3 + 2048 * 16, g's name word is 32, nil is 1.
fn empty_words(alloc: Global, layout: &Layout) -> Result<Vec<u64>, NoMemory>
    requires { IsLayout layout.now }
    ensures { IfOk result (λ words. IsEmptyHeap layout.now words.items) }
{
    let mut words = Vec::from_elem(alloc, 0u64, layout.total() as usize)?;
    words[1] = 32771;
    words[2] = 32;
    for slot in 0..16usize {
        words[3 + slot] = 1;
    }
    Ok(words)
}

/// The empty heap.
pub(crate) fn empty_heap(alloc: Global, layout: &Layout) -> Result<Words, NoMemory>
    requires { IsLayout layout.now }
    ensures { IfOk result (IsEmptyHeap layout.now) }
{
    let words = empty_words(alloc, layout)?;
    Words::new(alloc, words.as_slice())
}

// The work of a mutator: it makes a variable with nil, stores it into its slot of g, and reads it back. Returns the words
// that it found in the slot.
fn work(round: &Round, seat: &mut MutatorSeat, layout: Layout, number: u8) -> (u64, u64)
    requires seat { IsAt round.now seat.old × (seen seat.old ≡ alone (first_opening layout) number) }
    requires round { word_count round.now ≡ word_total layout }
    requires layout { IsLayout layout × (number < layout.mutators) }
    requires few { layout.mutators ≤ SHARED_SLOTS }
    ensures { IsAt round.now seat.new × HasPart (seen seat.new) number }
{
    OpenGate.pass(number, 1);
    let g = Address(1);
    if round.load_fixed(seat, g, 0, None) != 32771 {
        return (0, 0);
    }
    let slot = number as u32;
    let base = layout.nursery_base(number);
    let name = encode_name(name!(number, 0));
    round.store_unborn(seat, Address(base), 1, name);
    round.store_unborn(seat, Address(base), 2, 1);
    let make = PackedCommand {
        form: Form::Var {
            dest: 0,
            value: Operand::Register(1),
        },
    };
    round.give_birth(seat, Address(base), 2050, &make);
    let share = PackedCommand {
        form: Form::Set {
            object: Operand::Shared,
            index: slot,
            value: Operand::Register(0),
        },
    };
    let before = round.swap_field(seat, g, slot, 2 * base as u64, &share);
    let read = PackedCommand {
        form: Form::Get {
            dest: 1,
            object: Operand::Shared,
            index: slot,
        },
    };
    let after = round.load_field(seat, g, slot, &read);
    let ends = PackedCommand { form: Form::Yield };
    round.load_fixed(seat, g, 0, Some(&ends));
    (before, after)
}

// Each in a thread of its own.
fn work_all<R: Threads + Sync>(rt: &R, round: &Round, seats: &mut [MutatorSeat], layout: Layout)
    requires round { word_count round.now ≡ word_total layout }
    requires layout { IsLayout layout × (layout.mutators ≤ SHARED_SLOTS) }
    requires seats { (length seats.old ≡ layout.mutators) × ((k : ℕ) (d : RoundSeat) → k < length seats.old →
        IsAt round.now (slice_index_or seats.old k d) × (seen (slice_index_or seats.old k d) ≡ alone (first_opening layout) k)) }
    ensures count { length seats.new ≡ length seats.old }
    ensures seats { (k : ℕ) (d : RoundSeat) → k < length seats.old → IsAt round.now (slice_index_or seats.new k d) ×
        HasPart (seen (slice_index_or seats.new k d)) k }
{
    thread::for_each_mut(
        rt,
        seats,
        usize::from(SHARED_SLOTS),
        &|number, seat: &mut MutatorSeat|
            requires { IsAt round.now seat.now × (seen seat.now ≡ alone (first_opening layout) number) ×
                (word_count round.now ≡ word_total layout) × IsLayout layout × (number < layout.mutators) × (layout.mutators ≤ SHARED_SLOTS) }
            ensures { IsAt round.entry.now seat.exit.now × HasPart (seen seat.exit.now) number }
        {
            work(round, seat, layout, number as u8);
        },
    );
}

// The words after a round in which each mutator works in a thread of its own, and whether it was marking.
fn worked<R: Threads + Sync>(
    rt: &R,
    words: Words,
    layout: Layout,
    room: Vec<MutatorSeat>,
    place: ListMemory<MutatorSeat>,
) -> (Words, bool)
    requires layout { IsLayout layout }
    requires few { layout.mutators ≤ SHARED_SLOTS }
    requires heap { IsEmptyHeap layout words }
    requires room { (room.items ≡ []) × (layout.mutators ≤ vec_capacity room) }
    ensures { length result.0 ≡ word_total layout }
{
    laws::empty_heap_opens();
    let opening = first_of(&layout);
    let Started {
        round,
        mut mutators,
        collector,
    } = Round::start(words, layout, false, &opening, room, place);
    let marking = round.is_marking();
    work_all(rt, &round, mutators.items_mut(), layout);
    (round.finish(mutators, collector).words, marking)
}

// Checks the words after a mutator's work: the header of a variable is 2 + 2048 * 1, the name word of its first object is its
// number. Its slot of g has twice the object's address.
fn is_done(words: &[u64], layout: &Layout, mutator: u8) -> bool
    requires { IsLayout layout.now × (mutator < layout.now.mutators) }
{
    let base = layout.nursery_base(mutator) as usize;
    words.get(base) == Some(&2050)
        && words.get(base + 1) == Some(&u64::from(mutator))
        && words.get(base + 2) == Some(&1)
        && words.get(3 + usize::from(mutator)) == Some(&(2 * base as u64))
}

fn small(mutators: u8) -> Layout
    requires { (0 < mutators) × (mutators ≤ SHARED_SLOTS) }
    ensures layout { IsLayout result }
    ensures count { result.mutators ≡ mutators }
{
    layout!(segments: 1, words: 16, nursery: 16, mutators: mutators)
}

// The words of a table, which is closed here.
fn words_of(alloc: Global, words: Words) -> Result<Vec<u64>, NoMemory> {
    let mut left = Vec::from_elem(alloc, 0u64, words.len())?;
    let closed = words.close();
    for (at, word) in left.iter_mut().enumerate() {
        if at < closed.words.len() {
            *word = closed.word(at);
        }
    }
    closed.free();
    Ok(left)
}

#[test]
fn what_each_mutator_did_stands_in_the_words(rt: HostRuntime) -> Result<(), Fail> {
    for mutators in 1..SHARED_SLOTS + 1 {
        let layout = small(mutators);
        let words = empty_heap(rt.alloc(), &layout)?;
        let room = Vec::with_capacity(rt.alloc(), usize::from(mutators))?;
        let place = ListMemory::new(rt.alloc())?;
        let (mut words, marking) = worked(&rt, words, layout, room, place);
        assert!(rt; !marking);
        words.store(0, 5);
        let stored = words.load(0);
        assert!(rt; stored == 5);
        let left = words_of(rt.alloc(), words)?;
        for mutator in 0..mutators {
            let done = is_done(left.as_slice(), &layout, mutator);
            assert!(rt; done, "mutator {mutator} of {mutators}");
        }
    }
    Ok(())
}

// Each law asks nothing.
#[test]
fn laws_ask_nothing(rt: HostRuntime) {
    let _ = &rt;
    laws::fixed_loads_keep_the_rule();
    laws::fixed_loads_of_commands_keep_the_rule();
    laws::field_loads_keep_the_rule();
    laws::field_swaps_keep_the_rule();
    laws::field_exchanges_keep_the_rule();
    laws::result_loads_keep_the_rule();
    laws::result_exchanges_keep_the_rule();
    laws::weak_loads_keep_the_rule();
    laws::weak_swaps_keep_the_rule();
    laws::slot_loads_keep_the_rule();
    laws::slot_swaps_keep_the_rule();
    laws::slot_refusals_keep_the_rule();
    laws::unborn_stores_keep_the_rule();
    laws::unborn_looks_keep_the_rule();
    laws::allocations_keep_the_rule();
    laws::looks_at_headers_keep_the_rule();
    laws::scans_keep_the_rule();
    laws::empty_heap_opens();
    laws::old_stacks_are_listed();
    laws::openings_keep_the_rule();
    laws::mutator_splits_keep_the_rule();
    laws::collector_splits_keep_the_rule();
    laws::joins_keep_the_rule();
    laws::a_whole_seat_ends_the_round();
    laws::finished_words_represent_a_world();
    laws::replies_are_named();
    laws::events_are_a_history();
    laws::histories_have_the_rows();
    laws::events_are_of_the_machine();
}
