//! The addresses of the objects of an image.
//!
//! The search begins with g, with the mutators' registers and queues, and with the weak pointers that are alive. A report has
//! only the weak pointers' names, so their addresses are searched among the blocks in use. Easy to get wrong: the object in
//! such a block may be unreachable. Then only its name can be read. So its other words aren't read before it is found.
ghost use Rattle.std.specs.Prelude.{◌≡◌, ◌↔◌, ℕ, ◌^◌, ◌<◌, length, Contains, IfOk, IsTrue, OnOk};
ghost use Rattle.nmgc_segment.specs.Segment.{InUse};
ghost use Rattle.nmgc_alloc.specs.{AllocState.nth, AllocState.HasNumber, Segments.IsBlockAt};
ghost use Rattle.nmgc_image.specs.{Names.IsTestOf, Objects.name_in, Reading.has_key};
ghost use Rattle.nmgc_image.specs.Reaching.{Reaches, IsSearch, Visits, ArePointers, IsOwnRoot, IsMutatorRoot, IsWeakBlock, IsWeakIn, IsWeakRoot, IsRootPlace, IsReadyFor};

use crate::declared::{Declared, set_of_names};
use crate::objects::name_at;
use crate::search::Search;
use nmgc_journal::{MutatorEnd, Report};
use nmgc_lists::NoMemory;
use nmgc_object::SHARED_PLACE;
use nmgc_segment::State;
use std::alloc::Global;

/// Returns the addresses of all objects that the image of a report has, in no particular order.
pub(crate) fn places_of(alloc: Global, report: &Report) -> Result<Vec<u32>, NoMemory>
    requires { IsReadyFor report.now }
    ensures { IfOk result (λ places. (at : ℕ) → Contains places.items at ↔ Reaches report.now.words (IsRootPlace report.now) at) }
{
    let mut search = Search::new(alloc, report.words.len())?;
    visit_roots(alloc, &mut search, report)?;
    search.run(alloc, &report.words)?;
    Ok(search.order)
}

// Adds the roots' addresses to the search: g, the objects in the mutators' registers and queues, and the weak pointers.
fn visit_roots(alloc: Global, search: &mut Search, report: &Report) -> Result<(), NoMemory>
    requires sound { IsSearch search.old }
    requires room { length search.old.seen.items ≡ length report.now.words }
    requires ready { IsReadyFor report.now }
    ensures { OnOk result (Visits (IsRootPlace report.now) search.old search.new) }
{
    search.visit(SHARED_PLACE)?;
    visit_mutators(search, report.mutators.items())?;
    visit_weaks(alloc, search, report)
}

// Adds the addresses in the mutators' registers and queues to the search.
fn visit_mutators(search: &mut Search, mutators: &[MutatorEnd]) -> Result<(), NoMemory>
    requires sound { IsSearch search.old }
    requires within { (at : ℕ) → IsMutatorRoot mutators.now at → (at < length search.old.seen.items) × (at < 2 ^ 32) }
    ensures { OnOk result (Visits (IsMutatorRoot mutators.now) search.old search.new) }
{
    for own in mutators {
        visit_own(search, own)?;
    }
    Ok(())
}

// Adds the addresses in a mutator's registers and queue to the search.
fn visit_own(search: &mut Search, own: &MutatorEnd) -> Result<(), NoMemory>
    requires sound { IsSearch search.old }
    requires within { (at : ℕ) → IsOwnRoot own.now at → (at < length search.old.seen.items) × (at < 2 ^ 32) }
    ensures { OnOk result (Visits (IsOwnRoot own.now) search.old search.new) }
{
    visit_registers(search, own)?;
    visit_queue(search, own)
}

// Adds the addresses in a mutator's registers to the search.
fn visit_registers(search: &mut Search, own: &MutatorEnd) -> Result<(), NoMemory>
    requires sound { IsSearch search.old }
    requires within { (at : ℕ) → ArePointers own.now.registers at → (at < length search.old.seen.items) × (at < 2 ^ 32) }
    ensures { OnOk result (Visits (ArePointers own.now.registers) search.old search.new) }
{
    search.visit_words(own.registers.items())
}

// Adds the addresses in a mutator's queue to the search.
fn visit_queue(search: &mut Search, own: &MutatorEnd) -> Result<(), NoMemory>
    requires sound { IsSearch search.old }
    requires within { (at : ℕ) → ArePointers own.now.queue at → (at < length search.old.seen.items) × (at < 2 ^ 32) }
    ensures { OnOk result (Visits (ArePointers own.now.queue) search.old search.new) }
{
    search.visit_words(own.queue.items())
}

// Adds to the search the addresses of the weak pointers that the report lists.
fn visit_weaks(alloc: Global, search: &mut Search, report: &Report) -> Result<(), NoMemory>
    requires sound { IsSearch search.old }
    requires room { length search.old.seen.items ≡ length report.now.words }
    requires ready { IsReadyFor report.now }
    ensures { OnOk result (Visits (IsWeakRoot report.now) search.old search.new) }
{
    let weaks = set_of_names(alloc, report.weaks.items())?;
    if weaks.is_empty() {
        return Ok(());
    }
    for number in 0..report.segments.layout().segments {
        visit_segment(search, report, &weaks, number)?;
    }
    Ok(())
}

// Adds to the search the addresses of a segment's blocks in use whose names are in `weaks`, the report's weak pointers.
fn visit_segment(
    search: &mut Search,
    report: &Report,
    weaks: &Declared,
    number: u32,
) -> Result<(), NoMemory>
    requires sound { IsSearch search.old }
    requires room { length search.old.seen.items ≡ length report.now.words }
    requires ready { IsReadyFor report.now }
    requires weaks { IsTestOf (has_key weaks.now.keys.items) report.now.weaks }
    requires number { HasNumber report.now.segments number }
    ensures { OnOk result (Visits (IsWeakIn report.now number) search.old search.new) }
{
    if is_free(report.segments.state(number)) {
        return Ok(());
    }
    for block in 0..report.segments.blocks(number) {
        if report.segments.in_use(number, block) {
            let at = report.segments.place_of(number, block).0;
            visit_block(search, report, weaks, at)?;
        }
    }
    Ok(())
}

// Whether a segment in this state is free.
fn is_free(state: State) -> bool
    ensures { IsTrue result ↔ (state ≡ State.Free) }
{
    state == State::Free
}

// Adds to the search the address of a block in use, if the name there is in `weaks`, the report's weak pointers.
fn visit_block(
    search: &mut Search,
    report: &Report,
    weaks: &Declared,
    at: u32,
) -> Result<(), NoMemory>
    requires sound { IsSearch search.old }
    requires room { length search.old.seen.items ≡ length report.now.words }
    requires ready { IsReadyFor report.now }
    requires weaks { IsTestOf (has_key weaks.now.keys.items) report.now.weaks }
    requires block { (number : ℕ) × (block : ℕ) × IsBlockAt report.now.segments number block at × InUse (nth report.now.segments.segments number) block }
    ensures { OnOk result (Visits (λ place. (place ≡ at) × Contains report.now.weaks (name_in report.now.words at)) search.old search.new) }
{
    if weaks.has(name_at(&report.words, at)) {
        search.visit(at)?;
    }
    Ok(())
}
