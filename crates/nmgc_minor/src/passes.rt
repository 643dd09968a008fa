//! The three passes over the words, and over the roots outside them.
//!
//! Between two promotions the working lists keep the objects that the last promotion found. The next promotion first sets
//! their entries to 0, since the table is too long to be wiped at each stop. Mutators are read and changed in place.
//!
//! Easy to get wrong: no pass writes to a nursery. So the third pass copies objects as the round left them, in any order.
ghost use Rattle.std.specs.Prelude.{ℕ, ◌≡◌, ◌≢◌, ◌+◌, ◌*◌, ◌<◌, ◌≤◌, List, [], length, map, slice_index, Contains};
ghost use Rattle.nmgc_object.specs.Words.{nursery_place};
ghost use Rattle.nmgc_alloc.specs.Segments.{IsSegments};
ghost use Rattle.nmgc_minor.specs.{Start.inputs_by, Forwarding.forward_word, Promotes.CanPromote, Promotes.CanPromoteWith, Promotes.Promotes, Promotes.Leaves, Promotes.forwarded, Promotes.promoted, Resting.IsResting, Resting.IsCleared};

use crate::forwarding::{copy_all, forward_recorded, forward_shared, forward_word, forward_words};
use crate::nurseries::place_nurseries;
use crate::placing::Move;
use crate::starts::find_survivors;
use crate::young::Young;
use nmgc_alloc::Segments;
use nmgc_heap_spec::{HeapWords, MutatorRoots};
use nmgc_lists::Room;
use nmgc_object::{Address, FinQueue};

// Runs the passes over the words, and lists the moves in `moves`, which has to be empty, with room. Mutators are only read.
fn promote_words<W: HeapWords, M: MutatorRoots>(
    young: &mut Young,
    moves: &mut Room<Move>,
    words: &mut W,
    segments: &mut Segments,
    mutators: &[M],
)
    requires can { CanPromote young.old segments.old (W.words words.old) (map M.nursery mutators.now)
        (inputs_by M.registers M.queue M.recorded M.young_weaks mutators.now) }
    requires moves { moves.old.items ≡ [] }
    requires spare { length young.old.table.items ≤ moves.old.spare }
    ensures promotes { Promotes young.old.base (W.words words.old) (W.words words.new) segments.old segments.new moves.new.items
        (inputs_by M.registers M.queue M.recorded M.young_weaks mutators.now) young.new.table.items }
    ensures leaves { Leaves young.old young.new }
    ensures room { moves.new.spare + length moves.new.items ≡ moves.old.spare + length moves.old.items }
    ensures sound { IsSegments segments.new }
    ensures layout { segments.new.layout ≡ segments.old.layout }
{
    find_survivors(young, words, mutators);
    let base = young.base;
    place_nurseries(
        base,
        young.table.as_mut_slice(),
        moves,
        words,
        segments,
        mutators,
    );
    let table = young.table.as_slice();
    forward_shared(table, base, words);
    forward_recorded(table, base, words, mutators);
    copy_all(table, base, words, moves.items());
}

// Sets the table's entries of the objects in `found` to 0. If no other entry was set, all entries are 0 then.
fn clear_entries(base: u32, table: &mut [u32], found: &[Address])
    requires { (at : Address) → Contains found.now at → (base ≤ at.0) × (at.0 < base + length table.old) }
    ensures size { length table.new ≡ length table.old }
    ensures free { ((k : ℕ) → slice_index table.old k ≢ 0 → Contains found.now (record { 0 = base + k })) → (k : ℕ) → slice_index table.new k ≡ 0 }
{
    for at in found {
        table[(at.0 - base) as usize] = 0;
    }
}

// Forwards the words of a queue. A queue that is known to point into no nursery (`is_below`), as in every run, isn't read.
fn forward_queue(table: &[u32], base: u32, queue: &mut FinQueue)
    ensures { queue.new ≡ forwarded (forward_word table.now base) queue.old }
{
    if queue.is_below(base) {
        return;
    }
    for i in 0..queue.words().len() {
        let word = queue.words()[i];
        queue.set(i, forward_word(table, base, word));
    }
}

// Forwards a mutator's registers and queue, and empties its nursery and its lists of the round: the recorded fields, and the
// weak pointers made or finalised in the round.
fn settle_one<M: MutatorRoots>(table: &[u32], base: u32, mutator: &mut M)
    ensures { mutator.new ≡
        promoted M.registers M.with_registers M.queue M.with_queue M.after_stop (forward_word table.now base) mutator.old }
{
    forward_words(table, base, mutator.registers_mut());
    forward_queue(table, base, mutator.queue_mut());
    mutator.forget_round();
}

// Forwards the registers and queues of all mutators, and empties their nurseries and lists of the round (`settle_one`).
fn settle<M: MutatorRoots>(table: &[u32], base: u32, mutators: &mut [M])
    ensures { mutators.new ≡
        map (promoted M.registers M.with_registers M.queue M.with_queue M.after_stop (forward_word table.now base)) mutators.old }
{
    for mutator in mutators.iter_mut() {
        settle_one(table, base, mutator);
    }
}

// Sets the table's entries of the found objects to 0: then all entries are 0. Empties the list of found objects and the list
// of moves, and keeps their room.
fn clear(young: &mut Young, moves: &mut Room<Move>)
    requires { IsResting young.old moves.old }
    ensures cleared { IsCleared young.new moves.new }
    ensures base { young.new.base ≡ young.old.base }
    ensures size { length young.new.table.items ≡ length young.old.table.items }
{
    clear_entries(young.base, young.table.as_mut_slice(), young.found.items());
    young.found.clear();
    moves.clear();
}

/// Runs the three passes of a promotion over words, registers, queues and nurseries. The words need not represent a world.
///
/// The working lists have to be as the last call left them, and to fit the nurseries of the segments' layout. Pointers into
/// nurseries have to lead to objects that lie one after another in the used part of their maker's nursery. Either the reserve
/// has to be free, or no nursery has an object (`specs/Promotes.antt`, `CanPromoteWith`).
///
/// It copies exactly the surviving nursery objects. Strong fields reach them from the roots, the slots of g, the recorded
/// fields, and new weak pointers that are alive with their parts. Each is copied once, in order of addresses; `moves` lists
/// them. Each pointer to such an object leads to its new address: in registers and queues, the slots of g, the recorded
/// fields and the copies. Other words below the nurseries stay. Each mutator's nursery and lists of the round (`after_stop`)
/// are empty afterwards. Takes no memory.
pub fn run_passes<W: HeapWords, M: MutatorRoots>(
    young: &mut Young,
    moves: &mut Room<Move>,
    words: &mut W,
    segments: &mut Segments,
    mutators: &mut [M],
)
    requires resting { IsResting young.old moves.old }
    requires base { young.old.base ≡ nursery_place segments.old.layout 0 }
    requires size { length young.old.table.items ≡ segments.old.layout.mutators * segments.old.layout.nursery }
    requires can { CanPromoteWith segments.old (W.words words.old) (map M.nursery mutators.old)
        (inputs_by M.registers M.queue M.recorded M.young_weaks mutators.old) }
    ensures promotes { Promotes (nursery_place segments.old.layout 0) (W.words words.old) (W.words words.new) segments.old segments.new
        moves.new.items (inputs_by M.registers M.queue M.recorded M.young_weaks mutators.old) young.new.table.items }
    ensures mutators { mutators.new ≡ map (promoted M.registers M.with_registers M.queue M.with_queue M.after_stop
        (forward_word young.new.table.items (nursery_place segments.old.layout 0))) mutators.old }
    ensures sound { IsSegments segments.new }
    ensures layout { segments.new.layout ≡ segments.old.layout }
    ensures base { young.new.base ≡ young.old.base }
    ensures size { length young.new.table.items ≡ length young.old.table.items }
    ensures resting { IsResting young.new moves.new }
{
    // Note [Lines that do nothing] in `nmgc_alloc`: this gives the prover that all segments are sound.
    let _ = segments.layout();
    clear(young, moves);
    promote_words(young, moves, words, segments, mutators);
    settle(young.table.as_slice(), young.base, mutators);
}
