//! Several markers mark a stopped heap.
//!
//! The markers start at the root words and then the slots of g: word i goes to marker i modulo the number of markers. They
//! claim addresses. Once all are done, the names there are read, and put in order for each marker, again in threads if
//! possible.
//!
//! Easy to get wrong: the number of objects that a marker claims depends on the schedule, and so does the choice of these
//! objects. The claims of all markers together don't: they are exactly the objects except g that strong fields reach from the
//! roots and the slots of g, each once.
ghost use Rattle.std.specs.Prelude.{ℕ, ◌≡◌, ◌≤◌, length, take, IfOk};
ghost use Rattle.nmgc_object.specs.declared.layout.TheConstants.{FIRST_PLACE};
ghost use Rattle.nmgc_pmark.specs.{declared.crew.TheConstants.MOST_MARKERS, Claims.Stopped, Claims.IsStopped, Claims.AreClaims, Claims.starts_of, Names.AreNamed, Names.IsNamed, Names.NameAll, Names.NameThem, Names.AreAllRead};

use crate::bounds::Bounds;
use crate::crew::mark_places;
use crate::order::sort;
use crate::still::StillWords;
use nmgc_alloc::Segments;
use nmgc_limits::SHARED_SLOTS;
use nmgc_lists::{List, NoMemory, Room};
use nmgc_mark::marker::most_blocks;
use nmgc_object::laws::words_differ;
use nmgc_object::{Address, HEADER_WORDS, NAME_OFFSET, SHARED_PLACE, name_of};
use nmgc_round::Gate;
use nmgc_world_spec::Name;
use std::alloc::Global;
use std::thread;
use std::thread::Threads;

/// For each marker, the names of the objects that it claimed, in order.
#[derive(Drop)]
pub struct Claims {
    pub by: List<List<Name>>,
}

/// Marks a stopped heap with 1 to `MOST_MARKERS` markers side by side, and returns the names of the objects that each
/// claimed, in order. The lists have exactly the names except g reachable along strong fields from the root words and the
/// slots of g. Each name is in one list, once, whatever the schedule. Requires that words, segments and roots represent some
/// stopped heap with empty nurseries (`IsStopped`). Before each object that it scans, a marker passes `gate` with its number
/// and the count of its passes, from 1. Then each list of names is read and put in order, again in a thread if possible.
/// Takes memory for a word a block (twice that while the table is made), for 8 bytes a block and marker, for starting words
/// and for names.
pub fn mark_all<R: Threads + Sync, W: StillWords, G: Gate>(
    alloc: Global,
    rt: &R,
    words: &W,
    segments: &Segments,
    roots: &[u64],
    markers: u8,
    gate: &G,
) -> Result<Claims, NoMemory>
    requires markers { (1 ≤ markers) × (markers ≤ MOST_MARKERS) }
    requires stopped { (h : Stopped) × IsStopped h segments.now (W.words words.now) roots.now }
    ensures { IfOk result (λ claims. (h : Stopped) → IsStopped h segments.now (W.words words.now) roots.now → AreClaims h.world h.roots markers claims.by) }
{
    words_differ();
    let starts = starts_of(alloc, words, roots)?;
    let bounds = Bounds {
        markers,
        blocks: most_blocks(segments.layout()) as usize,
    };
    let lists = mark_places(alloc, rt, words, starts.as_slice(), bounds, gate)?;
    read_all_names(alloc, rt, words, lists)
}

// Returns the starting words of all markers: the roots, and then the slots of g.
fn starts_of<W: StillWords>(alloc: Global, words: &W, roots: &[u64]) -> Result<Vec<u64>, NoMemory>
    requires { FIRST_PLACE ≤ length (W.words words.now) }
    ensures { IfOk result (λ starts. starts.items ≡ starts_of (W.words words.now) roots.now) }
{
    let first = (SHARED_PLACE + HEADER_WORDS) as usize;
    let mut starts = Vec::from_slice(alloc, roots)?;
    for slot in 0..usize::from(SHARED_SLOTS) {
        starts.push(words.word(first + slot))?;
    }
    Ok(starts)
}

// Returns the names of the objects at the addresses of each list, each list of names in order. A list is read in a thread of
// its own if possible, since reading names takes longer than marking.
fn read_all_names<R: Threads + Sync, W: StillWords>(
    alloc: Global,
    rt: &R,
    words: &W,
    lists: Vec<Room<Address>>,
) -> Result<Claims, NoMemory>
    requires { AreNamed (W.words words.now) lists.items }
    ensures { IfOk result (λ claims. NameAll (W.words words.now) lists.items claims.by) }
{
    let read = thread::map_vec(
        rt,
        lists,
        &|list: Room<Address>| -> Result<List<Name>, NoMemory>
            requires { IsNamed (W.words words.now) list.items }
            ensures { IfOk result (λ names. NameThem (W.words words.entry.now) list.items names) }
        { read_names(alloc, words, list.items()) },
    )?;
    collect_lists(alloc, read)
}

// Returns the lists of names, or `NoMemory` if there was no memory for one of them or for the list of all.
fn collect_lists(alloc: Global, read: Vec<Result<List<Name>, NoMemory>>) -> Result<Claims, NoMemory>
    ensures { IfOk result (λ claims. AreAllRead read.items claims.by) }
{
    let mut by = List::new(alloc);
    for names in read {
        by.push(names?)?;
    }
    Ok(Claims { by })
}

// Returns the names of the objects at the addresses, in order of names.
fn read_names<W: StillWords>(
    alloc: Global,
    words: &W,
    places: &[Address],
) -> Result<List<Name>, NoMemory>
    requires { IsNamed (W.words words.now) places.now }
    ensures { IfOk result (λ names. NameThem (W.words words.now) places.now names) }
{
    let mut names = Vec::with_capacity(alloc, places.len())?;
    for at in places {
        names.push_reserved(name_of(words.word(at.0 as usize + NAME_OFFSET as usize)));
    }
    sort(names.as_mut_slice(), alloc);
    List::from_vec(names)
}
