//! A walk through a heap, which checks that a test's words meet the conditions of promotion.
//!
//! The passes ask much of their words. A test has words, but no world that they represent, so it checks them: if the walk
//! ends, the words meet the passes' conditions.
//!
//! Easy to get wrong: the walk takes each even word for a pointer, also headers and names. So a heap needs enough segments
//! below its nurseries that no header of a large stack, and no high serial, points there.
ghost use Rattle.std.specs.Prelude.{ℕ, ◌≡◌, ◌≢◌, ◌+◌, ◌*◌, ◌<◌, ◌≤◌, IsTrue, length, slice_index, Contains};
ghost use Rattle.nmgc_object.specs.{Words.header_word, Words.name_word, Words.IsHeader as IsGoodHeader, Words.IsName, Words.reserve_count, Layouts.IsLayout, declared.words.Address.Address as Place};
ghost use Rattle.nmgc_alloc.specs.Reserve.{free_count};
ghost use Rattle.nmgc_mutator.specs.declared.mutator.Mutator.{Mutator as MutatorSeen};
ghost use Rattle.nmgc_heap_tests.specs.Checked.{PointsWell, PointsWellAll, IsMade, AreMade, AreParts};

use nmgc_alloc::Segments;
use nmgc_mutator::Mutator;
use nmgc_object::{
    Address, FieldWord, HEADER_WORDS, Header, Layout, Nursery, decode_header, decode_name,
};
use nmgc_world_spec::Name;
use std::process::Abort;

// Whether an object begins at the target of the word, if it points to the nurseries.
fn points_well(sizes: &[u32], base: u32, word: u64) -> bool
    ensures { IsTrue result → PointsWell base sizes.now word }
{
    let Some(at) = FieldWord(word).place() else {
        return true;
    };
    if at < u64::from(base) {
        return true;
    }
    let index = (at - u64::from(base)) as usize;
    index < sizes.len() && sizes[index] != 0
}

pub fn check_words(rt: &impl Abort, sizes: &[u32], base: u32, words: &[u64])
    ensures { (k : ℕ) → k < length words.now → PointsWell base sizes.now (slice_index words.now k) }
{
    for word in words {
        assert!(rt; points_well(sizes, base, *word));
    }
}

fn check_recorded(rt: &impl Abort, base: u32, recorded: &[Address])
    ensures { (at : Place) → Contains recorded.now at → at.0 < base }
{
    for at in recorded {
        assert!(rt; at.0 < base);
    }
}

fn read_header(rt: &impl Abort, word: u64) -> Header
    ensures valid { IsGoodHeader result }
    ensures word { header_word result ≡ word }
{
    match decode_header(word) {
        Some(header) => header,
        None => panic!(rt; "no header"),
    }
}

fn read_name(rt: &impl Abort, word: u64) -> Name
    ensures valid { IsName result }
    ensures word { name_word result ≡ word }
{
    match decode_name(word) {
        Some(name) => name,
        None => panic!(rt; "no name"),
    }
}

fn check_weaks(rt: &impl Abort, sizes: &[u32], base: u32, words: usize, weaks: &[Address])
    ensures { (at : Place) → Contains weaks.now at → PointsWell base sizes.now (2 * at.0) × (at.0 + 5 ≤ words) }
{
    for at in weaks {
        assert!(rt; points_well(sizes, base, 2 * u64::from(at.0)));
        assert!(rt; at.0 as usize + 5 <= words);
    }
}

fn check_mutator(rt: &impl Abort, sizes: &[u32], base: u32, words: usize, mutator: &Mutator)
    ensures { PointsWellAll base sizes.now words mutator.now }
{
    check_words(rt, sizes, base, mutator.registers.items());
    check_words(rt, sizes, base, mutator.queue.words());
    check_recorded(rt, base, mutator.recorded.items());
    check_weaks(rt, sizes, base, words, mutator.young_weaks.items());
}

pub fn check_mutators(rt: &impl Abort, sizes: &[u32], base: u32, words: usize, mutators: &[Mutator])
    ensures { (m : MutatorSeen) → Contains mutators.now m → PointsWellAll base sizes.now words m }
{
    for mutator in mutators {
        check_mutator(rt, sizes, base, words, mutator);
    }
}

fn check_object(
    rt: &impl Abort,
    layout: Layout,
    base: u32,
    words: &[u64],
    sizes: &[u32],
    nurseries: &[Nursery],
    k: usize,
)
    requires inside { k < length sizes.now }
    requires count { length nurseries.now ≡ layout.mutators }
    ensures { IsMade layout base words.now sizes.now nurseries.now k }
{
    let at = base as usize + k;
    assert!(rt; at + 1 < words.len());
    let header = read_header(rt, words[at]);
    let name = read_name(rt, words[at + 1]);
    assert!(rt; sizes[k] == HEADER_WORDS + header.fields);
    assert!(rt; sizes[k] <= layout.words);
    assert!(rt; usize::from(name.maker) < nurseries.len());
    let nursery = nurseries[usize::from(name.maker)];
    assert!(rt; nursery.base as usize <= at);
    assert!(rt; at + sizes[k] as usize <= nursery.top as usize);
}

pub fn check_objects(
    rt: &impl Abort,
    layout: Layout,
    base: u32,
    words: &[u64],
    sizes: &[u32],
    nurseries: &[Nursery],
)
    requires { length nurseries.now ≡ layout.mutators }
    ensures { AreMade layout base words.now sizes.now nurseries.now (length sizes.now) }
{
    let mut free = 0;
    for k in 0..sizes.len() {
        if sizes[k] != 0 {
            assert!(rt; free <= k);
            check_object(rt, layout, base, words, sizes, nurseries, k);
            free = k + sizes[k] as usize;
        }
    }
}

pub fn check_nurseries(rt: &impl Abort, layout: Layout, nurseries: &[Nursery])
    requires { IsLayout layout }
    ensures { AreParts layout nurseries.now }
{
    assert!(rt; nurseries.len() == usize::from(layout.mutators));
    for maker in 0..layout.mutators {
        let nursery = nurseries[usize::from(maker)];
        assert!(rt; nursery.base == layout.nursery_base(maker));
        assert!(rt; nursery.base <= nursery.top);
        assert!(rt; nursery.top - nursery.base <= layout.nursery);
    }
}

// Checks that the reserve is free.
pub fn check_room(rt: &impl Abort, segments: &Segments)
    ensures { reserve_count segments.now.layout ≤ free_count segments.now.segments }
{
    let layout = segments.layout();
    assert!(rt; layout.reserve() <= segments.free_count());
}

pub fn check_lengths(rt: &impl Abort, layout: Layout, base: u32, words: &[u64], sizes: &[u32])
    requires { IsLayout layout }
    ensures size { length sizes.now ≡ layout.mutators * layout.nursery }
    ensures long { base + layout.mutators * layout.nursery ≤ length words.now }
{
    let count = (u32::from(layout.mutators) * layout.nursery) as usize;
    assert!(rt; sizes.len() == count);
    assert!(rt; base as usize + count <= words.len());
}
