//! Heaps of plain words, whose objects a test makes one by one, and their promotions.
ghost use Rattle.std.specs.Prelude.{◌≡◌, IfOk};
ghost use Rattle.nmgc_object.specs.Layouts.{IsLayout};
ghost use Rattle.nmgc_collector_laws.specs.Worked.{nurseries_of};

use super::walk::{
    check_lengths, check_mutators, check_nurseries, check_objects, check_room, check_words,
};
use nmgc_alloc::Segments;
use nmgc_limits::{REGISTERS, SHARED_MAKER, SHARED_SLOTS};
use nmgc_lists::{List, NoMemory, Room};
use nmgc_minor::{Move, Young, run_passes};
use nmgc_mutator::Mutator;
use nmgc_object::{Address, Layout, Nursery};
use nmgc_updrem::link;
use std::alloc::Global;
use std::marker::Model;
use std::process::Abort;
use std::test::Fail;

// The working lists of the passes. Between two promotions they have the results of the last one.
#[derive(Drop)]
pub struct Lists {
    pub young: Young,
    moves: Room<Move>,
}

impl Model for Lists {
    ghost use Rattle.std.specs.Prelude.{length};
    ghost use Rattle.nmgc_minor.specs.{Promotion.Promotion as Shown, Resting.IsResting};

    ghost Value = { Shown };

    ghost view = { λ l. record {
      base = l.young.base;
      size = length l.young.table.items;
      moves = l.moves.items;
    } };

    ghost invariant = { λ l. IsResting l.young l.moves };
}

impl Lists {
    // Reserves the lists as `Promotion::reserve` does.
    fn reserve(alloc: Global, layout: Layout) -> Result<Lists, NoMemory>
        requires { IsLayout layout }
    {
        let count = u32::from(layout.mutators) * layout.nursery;
        let base = layout.nursery_base(0);
        let table = vec![in alloc; 0u32; count as usize]?;
        let mut found = Room::new(alloc);
        found.reserve(count)?;
        let mut moves = Room::new(alloc);
        moves.reserve(count)?;
        Ok(Lists {
            young: Young { base, table, found },
            moves,
        })
    }

    // The moves of the last promotion.
    pub fn moves(&self) -> &[Move]
        ensures { result.now ≡ self.now.moves }
    {
        self.moves.items()
    }
}

// The words and all state outside them. `sizes` has for each word of the nurseries the number of words of the object that
// begins there, or 0. All mutators share the next serial.
#[derive(Drop)]
pub struct Heap {
    alloc: Global,
    pub words: List<u64>,
    pub sizes: Vec<u32>,
    pub segments: Segments,
    pub mutators: List<Mutator>,
    pub lists: Lists,
    pub serial: u32,
}

// The nurseries of mutators.
fn nurseries(alloc: Global, mutators: &[Mutator]) -> Result<Vec<Nursery>, NoMemory>
    ensures { IfOk result (λ nurseries. nurseries.items ≡ nurseries_of mutators.now) }
{
    let mut nurseries = Vec::with_capacity(alloc, mutators.len())?;
    for mutator in mutators {
        nurseries.push(mutator.nursery)?;
    }
    Ok(nurseries)
}

// Makes the first mutator record these fields and weak pointers.
fn note(
    rt: &impl Abort,
    mutators: &mut [Mutator],
    recorded: &[Address],
    weaks: &[Address],
) -> Result<(), NoMemory> {
    assert!(rt; !mutators.is_empty());
    let mutator = &mut mutators[0];
    for at in recorded {
        mutator.recorded.reserve(1)?;
        mutator.recorded.add(*at);
    }
    for at in weaks {
        mutator.young_weaks.reserve(1)?;
        mutator.young_weaks.add(*at);
    }
    Ok(())
}

// Makes the first mutator record these fields and weak pointers, walks the heap, and promotes its objects.
pub fn promote(
    rt: &impl Abort,
    heap: &mut Heap,
    recorded: &[Address],
    weaks: &[Address],
) -> Result<(), NoMemory> {
    note(rt, heap.mutators.items_mut(), recorded, weaks)?;
    let nurseries = nurseries(heap.alloc, heap.mutators.items())?;
    let layout = heap.segments.layout();
    let base = layout.nursery_base(0);
    check_room(rt, &heap.segments);
    let sizes = heap.sizes.as_slice();
    let words = heap.words.items();
    check_lengths(rt, layout, base, words, sizes);
    assert!(rt; heap.lists.young.base == base);
    assert!(rt; heap.lists.young.table.len() == sizes.len());
    check_words(rt, sizes, base, words);
    check_mutators(rt, sizes, base, words.len(), heap.mutators.items());
    check_nurseries(rt, layout, nurseries.as_slice());
    check_objects(rt, layout, base, words, sizes, nurseries.as_slice());
    run_passes(
        &mut heap.lists.young,
        &mut heap.lists.moves,
        &mut heap.words,
        &mut heap.segments,
        heap.mutators.items_mut(),
    );
    heap.sizes.fill(0);
    wipe(rt, &mut heap.words, base);
    Ok(())
}

// Wipes the words of nurseries that are empty again: the walk also reads the words beyond the used part.
fn wipe(rt: &impl Abort, words: &mut List<u64>, base: u32) {
    let words = words.items_mut();
    assert!(rt; base as usize <= words.len());
    words[base as usize..].fill(NIL);
}

// The numbers of the kinds in a header's word, and the word of nil.
pub const CON: u64 = 1;

pub const VAR: u64 = 2;

pub const ARR: u64 = 3;

pub const THUNK: u64 = 4;

pub const WEAK: u64 = 5;

pub const STACK: u64 = 6;

pub const NIL: u64 = 1;

// A layout of 64 segments of `words` words, and nurseries.
pub const fn layout(words: u32, nursery: u32, mutators: u8) -> Layout {
    layout!(segments: 64, words: words, nursery: nursery, mutators: mutators)
}

// A heap with g as its only object, whose slots are nil.
pub fn make_heap(rt: &impl Abort, alloc: Global, layout: Layout) -> Result<Heap, Fail> {
    assert!(rt; layout.words.is_power_of_two() && 16 <= layout.words && layout.words <= 4096);
    assert!(rt; layout.words <= layout.nursery && layout.nursery <= 8192);
    assert!(rt; layout.segments == 64);
    assert!(rt; 1 <= layout.mutators && layout.mutators <= 4);
    let mut words = List::from_vec(vec![in alloc; 0u64; layout.total() as usize]?)?;
    store(rt, &mut words, 1, 32771);
    store(rt, &mut words, 2, u64::from(SHARED_MAKER));
    for i in 0..u32::from(SHARED_SLOTS) {
        store(rt, &mut words, 3 + i, NIL);
    }
    let mut mutators = List::new(alloc);
    for maker in 0..layout.mutators {
        let (sender, _receiver) = link(alloc)?;
        mutators.push(Mutator::new(alloc, maker, layout, sender)?)?;
    }
    let count = u32::from(layout.mutators) * layout.nursery;
    Ok(Heap {
        alloc,
        words,
        sizes: vec![in alloc; 0u32; count as usize]?,
        segments: Segments::new(alloc, layout)?,
        mutators,
        lists: Lists::reserve(alloc, layout)?,
        serial: 0,
    })
}

// Stores a word at an address.
pub fn store(rt: &impl Abort, words: &mut List<u64>, at: u32, word: u64) {
    let words = words.items_mut();
    assert!(rt; (at as usize) < words.len());
    words[at as usize] = word;
}

// The word at an address.
pub fn word(rt: &impl Abort, heap: &Heap, at: u32) -> u64 {
    let words = heap.words.items();
    assert!(rt; (at as usize) < words.len());
    words[at as usize]
}

// Creates an object at the top of a mutator's nursery, with the next serial, and returns its address.
pub fn create(rt: &impl Abort, heap: &mut Heap, maker: u8, kind: u64, fields: &[u64]) -> u32 {
    let mutators = heap.mutators.items_mut();
    assert!(rt; usize::from(maker) < mutators.len() && kind < 8 && fields.len() < 4095);
    let base = mutators[0].nursery.base;
    let at = mutators[usize::from(maker)].nursery.top;
    assert!(rt; base <= at && at < 10_000_000);
    let size = 2 + fields.len() as u32;
    mutators[usize::from(maker)].nursery.top = at + size;
    let serial = heap.serial;
    assert!(rt; serial < 1_000_000);
    heap.serial = serial + 1;
    store(rt, &mut heap.words, at, kind + 2048 * fields.len() as u64);
    store(
        rt,
        &mut heap.words,
        at + 1,
        64 * u64::from(serial) + u64::from(maker),
    );
    for i in 0..fields.len() {
        store(rt, &mut heap.words, at + 2 + i as u32, fields[i]);
    }
    let index = (at - base) as usize;
    assert!(rt; index < heap.sizes.len());
    heap.sizes[index] = size;
    at
}

// The word that points to an address.
pub fn to(at: u32) -> u64 {
    2 * u64::from(at)
}

// Puts a word into a register. The registers are counted through all mutators.
pub fn hold(rt: &impl Abort, heap: &mut Heap, register: usize, word: u64) {
    let count = REGISTERS as usize;
    let mutators = heap.mutators.items_mut();
    assert!(rt; register / count < mutators.len());
    let registers = mutators[register / count].registers.items_mut();
    assert!(rt; register % count < registers.len());
    registers[register % count] = word;
}

// The word in a register.
pub fn held(rt: &impl Abort, heap: &Heap, register: usize) -> u64 {
    let count = REGISTERS as usize;
    let mutators = heap.mutators.items();
    assert!(rt; register / count < mutators.len());
    let registers = mutators[register / count].registers.items();
    assert!(rt; register % count < registers.len());
    registers[register % count]
}
