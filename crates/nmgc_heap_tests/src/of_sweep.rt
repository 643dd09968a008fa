//! Cycles over small heaps, as a table. The expected values follow from the rules. Filled segments are swept, least number
//! first. `had` has the names in them, `freed` the names whose blocks aren't marked with the epoch, both by maker and then by
//! serial. A segment is then free, filled or active.
ghost use Rattle.std.specs.Prelude.{◌≡◌};
ghost use Rattle.nmgc_sweep.specs.{NameTable.HaveEntries, Sweeper.AreLeft};

use nmgc_alloc::{Segments, laws};
use nmgc_limits::MAKERS;
use nmgc_name_lists::NameList;
use nmgc_object::{Address, FIRST_PLACE, Layout, block_words};
use nmgc_round::OpenGate;
use nmgc_segment::State;
use nmgc_sweep::{Census, NameTable, Sweeper};
use nmgc_world_spec::Name;
use std::alloc::Global;
use std::process::Abort;
use std::test::Fail;
use std::thread::Threads;

// A cycle: the objects in the order of their allocation, whether current segments are retired before, the objects with a mark
// of the cycle before, and the objects marked in this cycle. Then the expected values: the number of calls with this quota
// that sweep the quota, the lists, and the states of the first segments after the sweep.
#[derive(Clone, Copy)]
struct Row {
    placed: &'static [Name],
    retired: bool,
    stale: &'static [usize],
    marked: &'static [usize],
    works: u32,
    quota: u32,
    swept: &'static [u32],
    had: &'static [Name],
    freed: &'static [Name],
    states: &'static [State],
}

// No object is allocated, and one call sweeps one segment.
const ONCE: Row = Row {
    placed: &[],
    retired: false,
    stale: &[],
    marked: &[],
    works: 1,
    quota: 1,
    swept: &[],
    had: &[],
    freed: &[],
    states: &[],
};

const FEW: [Name; 2] = [name!(0, 0), name!(0, 1)];

const FOUR: [Name; 4] = [name!(0, 0), name!(0, 1), name!(0, 2), name!(0, 3)];

const EIGHT: [Name; 8] = [
    name!(0, 0),
    name!(0, 1),
    name!(0, 2),
    name!(0, 3),
    name!(1, 0),
    name!(1, 1),
    name!(1, 2),
    name!(1, 3),
];

// The other mutator's segment is the first; one more object is in a segment that isn't full.
const NINE: [Name; 9] = [
    name!(1, 0),
    name!(1, 1),
    name!(1, 2),
    name!(1, 3),
    name!(0, 0),
    name!(0, 1),
    name!(0, 2),
    name!(0, 3),
    name!(0, 4),
];

// The unmarked objects among those in full segments.
const UNMARKED_OF_NINE: [Name; 3] = [name!(1, 0), name!(1, 2), name!(1, 3)];

// All except the third.
const UNMARKED_OF_FOUR: [Name; 3] = [name!(0, 0), name!(0, 1), name!(0, 3)];

// Allocates an object of four words, and notes its name.
fn place(rt: &impl Abort, names: &mut NameTable, segments: &mut Segments, name: Name) -> Address
    requires { HaveEntries segments.old.layout names.old }
    ensures { HaveEntries segments.new.layout names.new }
{
    let layout = segments.layout();
    assert!(rt; name.maker < MAKERS);
    assert!(rt; name.maker < layout.mutators);
    assert!(rt; block_words(0) <= layout.words);
    assert!(rt; segments.has_room(name.maker, 0));
    let at = segments.allocate(name.maker, 0);
    assert!(rt; at.0 < FIRST_PLACE + layout.segments * layout.words);
    names.note(at, name);
    at
}

// Begins a cycle.
fn begin(rt: &impl Abort, segments: &mut Segments, retired: bool)
    ensures { segments.new.layout ≡ segments.old.layout }
{
    laws::counts_show_waiting_and_room();
    if retired {
        segments.retire_all();
    }
    assert!(rt; segments.sweep_count() == 0);
    segments.prepare();
}

// Marks objects by their addresses.
fn mark(rt: &impl Abort, segments: &mut Segments, places: &[Address], marked: &[usize], epoch: u8)
    ensures { segments.new.layout ≡ segments.old.layout }
{
    assert!(rt; 1 <= epoch);
    assert!(rt; epoch <= 2);
    for index in marked {
        assert!(rt; *index < places.len());
        let at = places[*index];
        assert!(rt; segments.block_at(at).is_some());
        assert!(rt; segments.mark_at(at, epoch));
    }
}

// The names of a list, in their order.
fn all_names(alloc: Global, list: &NameList) -> Result<Vec<Name>, Fail> {
    let mut names = Vec::new(alloc);
    for span in list.spans() {
        for at in 0..span.count() {
            names.push(span.name(at))?;
        }
    }
    Ok(names)
}

// The names of a list, by maker and then by serial.
fn sorted_names(alloc: Global, list: &NameList) -> Result<Vec<Name>, Fail> {
    let mut names = all_names(alloc, list)?;
    names.sort_unstable_by_key(|name| (name.maker, name.serial));
    Ok(names)
}

// Compares the census of a cycle, and the states after it.
fn compare(
    rt: &impl Abort,
    alloc: Global,
    census: &Census,
    segments: &Segments,
    row: &Row,
) -> Result<(), Fail> {
    assert!(rt; census.had.len() == row.had.len());
    assert!(rt; census.freed.len() == row.freed.len());
    assert!(rt; census.swept.as_slice() == row.swept);
    assert!(rt; sorted_names(alloc, &census.had)?.as_slice() == row.had);
    assert!(rt; sorted_names(alloc, &census.freed)?.as_slice() == row.freed);
    for number in 0..segments.layout().segments {
        if let Some(state) = row.states.get(number as usize) {
            assert!(rt; segments.state(number) == *state);
        }
    }
    Ok(())
}

// Does the cycle, and compares.
fn check<R: Abort + Threads + Sync>(rt: &R, alloc: Global, row: Row) -> Result<(), Fail> {
    let layout = layout!(segments: 8, words: 16, nursery: 16, mutators: 2);
    assert!(rt; layout.words.is_power_of_two());
    let mut names = NameTable::new(alloc, layout)?;
    let mut segments = Segments::new(alloc, layout)?;
    let mut places = Vec::new(alloc);
    for name in row.placed {
        places.push(place(rt, &mut names, &mut segments, *name))?;
    }
    begin(rt, &mut segments, row.retired);
    let at = places.as_slice();
    mark(rt, &mut segments, at, row.stale, 1);
    mark(rt, &mut segments, at, row.marked, 2);
    let mut sweeper = Sweeper::start(alloc, &segments, 2)?;
    assert!(rt; sweeper.had().len() == 0);
    assert!(rt; sweeper.freed().len() == 0);
    for turn in 0..row.works {
        let _ = turn;
        let done = sweeper.work(rt, &mut segments, &names, row.quota, &OpenGate);
        assert!(rt; done.swept == row.quota);
    }
    let works = u64::from(row.works);
    let upper = row.quota / 2;
    assert!(rt; sweeper.turns == works * u64::from(row.quota - upper));
    assert!(rt; sweeper.upper_turns == works * u64::from(upper));
    let done = sweeper.work(rt, &mut segments, &names, 0, &OpenGate);
    assert!(rt; done.swept == 0);
    assert!(rt; done.finished == (works * u64::from(row.quota) == row.swept.len() as u64));
    sweeper.finish(rt, &mut segments, &names);
    assert!(rt; sweeper.swept() == row.swept);
    let census = sweeper.into_census();
    compare(rt, alloc, &census, &segments, &row)
}

#[test]
fn two_mutators_and_stale_marks(rt: HostRuntime) -> Result<(), Fail> {
    check(
        &rt,
        rt.alloc(),
        Row {
            placed: &NINE,
            marked: &[1, 4, 5, 6, 7],
            works: 2,
            swept: &[0, 1],
            had: &EIGHT,
            freed: &UNMARKED_OF_NINE,
            states: &[
                State::Active,
                State::Filled,
                State::Current { mutator: 0 },
                State::Free,
            ],
            ..ONCE
        },
    )?;
    // A mark of the cycle before keeps no object.
    check(
        &rt,
        rt.alloc(),
        Row {
            placed: &FOUR,
            stale: &[0, 1, 2, 3],
            marked: &[2],
            swept: &[0],
            had: &FOUR,
            freed: &UNMARKED_OF_FOUR,
            states: &[State::Active],
            ..ONCE
        },
    )
}

// A retired segment has blocks that aren't in use.
#[test]
fn retired_segments(rt: HostRuntime) -> Result<(), Fail> {
    check(
        &rt,
        rt.alloc(),
        Row {
            placed: &FEW,
            retired: true,
            swept: &[0],
            had: &FEW,
            freed: &FEW,
            states: &[State::Free],
            ..ONCE
        },
    )?;
    check(
        &rt,
        rt.alloc(),
        Row {
            placed: &FEW,
            retired: true,
            marked: &[0, 1],
            works: 0,
            swept: &[0],
            had: &FEW,
            states: &[State::Active],
            ..ONCE
        },
    )
}

// Segments that no call of a round swept are swept in the end. Without a filled segment, nothing is swept.
#[test]
fn the_rest_and_nothing(rt: HostRuntime) -> Result<(), Fail> {
    check(
        &rt,
        rt.alloc(),
        Row {
            placed: &EIGHT,
            swept: &[0, 1],
            had: &EIGHT,
            freed: &EIGHT,
            states: &[State::Free, State::Free],
            ..ONCE
        },
    )?;
    check(
        &rt,
        rt.alloc(),
        Row {
            placed: &FEW,
            works: 0,
            states: &[State::Current { mutator: 0 }],
            ..ONCE
        },
    )
}

// Two segments at once, in two threads, and the rest of the quota.
#[test]
fn two_halves(rt: HostRuntime) -> Result<(), Fail> {
    check(
        &rt,
        rt.alloc(),
        Row {
            placed: &NINE,
            marked: &[1, 4, 5, 6, 7],
            quota: 2,
            swept: &[0, 1],
            had: &EIGHT,
            freed: &UNMARKED_OF_NINE,
            states: &[
                State::Active,
                State::Filled,
                State::Current { mutator: 0 },
                State::Free,
            ],
            ..ONCE
        },
    )
}

// The number of objects of four words that fill 257 segments of 1,024 blocks.
const MANY: u32 = 257 * 1024;

// Each third object is marked.
fn check_many<R: Abort + Threads + Sync>(rt: &R, alloc: Global) -> Result<(), Fail> {
    let layout = layout!(segments: 257, words: 4096, nursery: 4096, mutators: 1);
    assert!(rt; layout.words.is_power_of_two());
    let mut names = NameTable::new(alloc, layout)?;
    let mut segments = Segments::new(alloc, layout)?;
    let mut places = Vec::new(alloc);
    let mut marked = Vec::new(alloc);
    for serial in 0..MANY {
        let name = Name { maker: 0, serial };
        places.push(place(rt, &mut names, &mut segments, name))?;
        if serial % 3 == 0 {
            marked.push(serial as usize)?;
        }
    }
    begin(rt, &mut segments, false);
    mark(rt, &mut segments, places.as_slice(), marked.as_slice(), 2);
    let mut sweeper = Sweeper::start(alloc, &segments, 2)?;
    let done = sweeper.work(rt, &mut segments, &names, MANY, &OpenGate);
    assert!(rt; done.swept == 257);
    if !done.finished {
        return Err("a segment waits".into());
    }
    // All names follow one another, and a span has at most 65,535 of them; a span of freed names has two.
    assert!(rt; sweeper.had().len() == 5);
    assert!(rt; sweeper.freed().len() == (MANY / 3 + 1) as usize);
    let census = sweeper.into_census();
    assert!(rt; census.had.len() == MANY as usize);
    assert!(rt; census.freed.len().saturating_add(marked.len()) == MANY as usize);
    let had = all_names(alloc, &census.had)?;
    let freed = all_names(alloc, &census.freed)?;
    for index in 0..MANY {
        if let Some(name) = had.get(index as usize) {
            assert!(rt; name.serial == index);
        }
        if let Some(name) = freed.get(index as usize) {
            assert!(rt; name.serial == index / 2 * 3 + index % 2 + 1);
        }
    }
    Ok(())
}

// The lists of many segments are in order of blocks, and so here of serials.
#[test]
fn names_of_many_segments(rt: HostRuntime) -> Result<(), Fail> {
    check_many(&rt, rt.alloc())
}
