//! The first pass: the words at which the search starts, and the search. A weak pointer is alive if its value isn't 0.
ghost use Rattle.std.specs.Prelude.{ℕ, ◌≡◌, ◌+◌, ◌≤◌, ◌<◌, List, [], length, map, slice_index, Contains};
ghost use Rattle.std.specs.List.{flat_map};
ghost use Rattle.nmgc_limits.specs.declared.mutators.TheConstants.{SHARED_SLOTS};
ghost use Rattle.nmgc_object.specs.{declared.layout.TheConstants.SHARED_PLACE, declared.layout.TheConstants.FIRST_PLACE, declared.size.TheConstants.HEADER_WORDS, declared.words.TheConstants.WEAK_FIELDS, declared.words.Address.Address, FinQueue.FinQueue as Queue};
ghost use Rattle.nmgc_minor.specs.{Found.IsStart, Found.IsFound, Young.IsYoung, Young.IsIn, Young.IsWithin, Young.Notes, Young.CanFollow, Start.inputs_by, Start.IsWeakStart, Start.Finds};

use crate::young::Young;
use nmgc_heap_spec::{HeapWords, MutatorRoots};
use nmgc_limits::SHARED_SLOTS;
use nmgc_object::words::WEAK_FIELDS;
use nmgc_object::{Address, FieldWord, FinQueue, HEADER_WORDS, SHARED_PLACE};

// Notes as found the nursery objects to which the mutators' registers point.
fn note_registers<M: MutatorRoots>(young: &mut Young, mutators: &[M])
    requires young { IsYoung young.old }
    requires within { (word : ℕ) → Contains (flat_map M.registers mutators.now) word → IsWithin young.old word }
    ensures { Notes young.old young.new (Contains (flat_map M.registers mutators.now)) }
{
    for mutator in mutators {
        young.note_all(mutator.registers());
    }
}

// Notes as found the nursery objects to which a queue points. A queue that is known to point to none (`is_below`) isn't read.
// In a run no queue is read: words join a queue at a closing, when the nurseries are empty.
fn note_queue(young: &mut Young, queue: &FinQueue)
    requires young { IsYoung young.old }
    requires within { (word : ℕ) → Contains queue.now.words word → IsWithin young.old word }
    ensures { Notes young.old young.new (Contains queue.now.words) }
{
    if queue.is_below(young.base) {
        return;
    }
    young.note_all(queue.words());
}

// Notes as found the nursery objects to which the mutators' queues point.
fn note_queues<M: MutatorRoots>(young: &mut Young, mutators: &[M])
    requires young { IsYoung young.old }
    requires within { (queue : Queue) (word : ℕ) → Contains (map M.queue mutators.now) queue → Contains queue.words word → IsWithin young.old word }
    ensures { Notes young.old young.new (λ w. (queue : Queue) × Contains (map M.queue mutators.now) queue × Contains queue.words w) }
{
    for mutator in mutators {
        note_queue(young, mutator.queue());
    }
}

// Notes as found the nursery objects to which the fields at the addresses in `recorded` point.
fn note_places<W: HeapWords>(young: &mut Young, words: &mut W, recorded: &[Address])
    requires young { IsYoung young.old }
    requires inside { (at : Address) → Contains recorded.now at → at.0 < length (W.words words.old) }
    requires within { (at : Address) → Contains recorded.now at → IsWithin young.old (slice_index (W.words words.old) at.0) }
    ensures notes { Notes young.old young.new (λ w. (at : Address) × Contains recorded.now at × (slice_index (W.words words.old) at.0 ≡ w)) }
    ensures same { W.words words.new ≡ W.words words.old }
{
    for at in recorded {
        let word = words.load(at.0 as usize);
        young.note(word);
    }
}

// Notes as found the nursery objects to which the fields recorded by the mutators point.
fn note_recorded<W: HeapWords, M: MutatorRoots>(young: &mut Young, words: &mut W, mutators: &[M])
    requires young { IsYoung young.old }
    requires inside { (at : Address) → Contains (flat_map M.recorded mutators.now) at → at.0 < length (W.words words.old) }
    requires within { (at : Address) → Contains (flat_map M.recorded mutators.now) at → IsWithin young.old (slice_index (W.words words.old) at.0) }
    ensures notes { Notes young.old young.new (λ w. (at : Address) × Contains (flat_map M.recorded mutators.now) at ×
        (slice_index (W.words words.old) at.0 ≡ w)) }
    ensures same { W.words words.new ≡ W.words words.old }
{
    for mutator in mutators {
        note_places(young, words, mutator.recorded());
    }
}

// Notes as found the new weak pointer at `at` and the nursery objects to which its parts point, if the weak pointer is alive.
fn note_weak<W: HeapWords>(young: &mut Young, words: &mut W, at: Address)
    requires young { IsYoung young.old }
    requires inside { at.0 + (HEADER_WORDS + WEAK_FIELDS) ≤ length (W.words words.old) }
    requires within { (word : ℕ) → IsWeakStart (W.words words.old) at word → IsWithin young.old word }
    ensures notes { Notes young.old young.new (IsWeakStart (W.words words.old) at) }
    ensures same { W.words words.new ≡ W.words words.old }
{
    let fields = at.0 as usize + HEADER_WORDS as usize;
    if words.load(fields + 1) != 0 {
        young.note(FieldWord::of_place(at.0).0);
        young.note_range(words, fields, fields + WEAK_FIELDS as usize);
    }
}

// Notes as found the weak pointers in `weaks` that are alive, and the nursery objects to which their parts point.
fn note_all_weaks<W: HeapWords>(young: &mut Young, words: &mut W, weaks: &[Address])
    requires young { IsYoung young.old }
    requires inside { (at : Address) → Contains weaks.now at → at.0 + (HEADER_WORDS + WEAK_FIELDS) ≤ length (W.words words.old) }
    requires within { (at : Address) (word : ℕ) → Contains weaks.now at → IsWeakStart (W.words words.old) at word → IsWithin young.old word }
    ensures notes { Notes young.old young.new (λ w. (at : Address) × Contains weaks.now at × IsWeakStart (W.words words.old) at w) }
    ensures same { W.words words.new ≡ W.words words.old }
{
    for at in weaks {
        note_weak(young, words, *at);
    }
}

// Notes as found the mutators' new weak pointers that are alive, and the nursery objects to which their parts point.
fn note_weaks<W: HeapWords, M: MutatorRoots>(young: &mut Young, words: &mut W, mutators: &[M])
    requires young { IsYoung young.old }
    requires inside { (at : Address) → Contains (flat_map M.young_weaks mutators.now) at → at.0 + (HEADER_WORDS + WEAK_FIELDS) ≤ length (W.words words.old) }
    requires within { (at : Address) (word : ℕ) → Contains (flat_map M.young_weaks mutators.now) at → IsWeakStart (W.words words.old) at word →
        IsWithin young.old word }
    ensures notes { Notes young.old young.new (λ w. (at : Address) × Contains (flat_map M.young_weaks mutators.now) at ×
        IsWeakStart (W.words words.old) at w) }
    ensures same { W.words words.new ≡ W.words words.old }
{
    for mutator in mutators {
        note_all_weaks(young, words, mutator.young_weaks());
    }
}

// Notes as found the nursery objects to which the slots of g point.
fn note_shared<W: HeapWords>(young: &mut Young, words: &mut W)
    requires young { IsYoung young.old }
    requires inside { FIRST_PLACE ≤ length (W.words words.old) }
    requires within { (i : ℕ) → i < SHARED_SLOTS → IsWithin young.old (slice_index (W.words words.old) (SHARED_PLACE + HEADER_WORDS + i)) }
    ensures notes { Notes young.old young.new (λ w. (i : ℕ) × (i < SHARED_SLOTS) × (slice_index (W.words words.old) (SHARED_PLACE + HEADER_WORDS + i) ≡ w)) }
    ensures same { W.words words.new ≡ W.words words.old }
{
    let first = (SHARED_PLACE + HEADER_WORDS) as usize;
    young.note_range(words, first, first + usize::from(SHARED_SLOTS));
}

/// Finds the nursery objects that survive (`IsFound`): strong fields reach them from the words at which the search starts.
/// Notes them in the table and in the list, which has to be empty. Each has to lie within the words, and its pointers into
/// nurseries have to point into the table (`CanFollow`). Recorded fields and new weak pointers have to lie within the words
/// too. Sets no mark byte, since mark bytes belong to the cycle. Words and mutators are only read.
pub fn find_survivors<W: HeapWords, M: MutatorRoots>(
    young: &mut Young,
    words: &mut W,
    mutators: &[M],
)
    requires young { IsYoung young.old }
    requires empty { young.old.found.items ≡ [] }
    requires inside { FIRST_PLACE ≤ length (W.words words.old) }
    requires recorded { (at : Address) → Contains (flat_map M.recorded mutators.now) at → at.0 < length (W.words words.old) }
    requires weaks { (at : Address) → Contains (flat_map M.young_weaks mutators.now) at → at.0 + (HEADER_WORDS + WEAK_FIELDS) ≤ length (W.words words.old) }
    requires within { (word : ℕ) → IsStart (inputs_by M.registers M.queue M.recorded M.young_weaks mutators.now) (W.words words.old) word →
        IsWithin young.old word }
    requires can { (at : ℕ) → IsFound young.old.base (W.words words.old)
        (IsStart (inputs_by M.registers M.queue M.recorded M.young_weaks mutators.now) (W.words words.old)) at → CanFollow young.old (W.words words.old) at }
    ensures finds { Finds young.old young.new (W.words words.old) (inputs_by M.registers M.queue M.recorded M.young_weaks mutators.now) }
    ensures same { W.words words.new ≡ W.words words.old }
{
    note_registers(young, mutators);
    note_queues(young, mutators);
    note_shared(young, words);
    note_recorded(young, words, mutators);
    note_weaks(young, words, mutators);
    young.follow(words);
}
