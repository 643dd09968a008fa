//! All markers side by side.
//!
//! Before any marker starts, the first seat is split into a seat for each. Then each marks in a thread of its own, or in the
//! caller's thread if no thread can be started. Once all are done their seats are joined. Then it is known that every block
//! that any marker found claimed is in some list.
ghost use Rattle.std.specs.Prelude.{◌≡◌, ◌-◌, ◌<◌, ◌≤◌, [], ◌∷◌, ◌^◌, length, map, vec_len, IfOk};
ghost use Rattle.nmgc_pmark.specs.{View.whole, View.blank, Seat.seen, Seat.bounds_of, Seat.IsAt, Found.CanMark, Marker.CanBegin, Marker.HasMarked, declared.crew.TheConstants.MOST_MARKERS};
ghost use Rattle.nmgc_pmark.specs.Crew.{AreNumbered, CanAllBegin, HaveAllMarked, AreSound, IsSharedAmong, AreMarked, found_of};

use crate::bounds::Bounds;
use crate::marker::Marker;
use crate::still::StillWords;
use crate::table::{ClaimSeat, ClaimTable};
use nmgc_lists::{NoMemory, Room};
use nmgc_object::Address;
use nmgc_round::Gate;
use std::alloc::Global;
use std::thread;
use std::thread::Threads;

/// The greatest number of markers.
pub const MOST_MARKERS: u8 = 8;

/// Claims all objects except g that are reachable along strong fields from the starting words. Returns a list for each
/// marker, with the addresses of the objects that it claimed. Each object is in exactly one list, once. Requires that each
/// object has a header within the words and a block number of its own (`CanMark`). A test makes two markers meet at `gate`.
pub fn mark_places<R: Threads + Sync, W: StillWords, G: Gate>(
    alloc: Global,
    rt: &R,
    words: &W,
    starts: &[u64],
    bounds: Bounds,
    gate: &G,
) -> Result<Vec<Room<Address>>, NoMemory>
    requires markers { (1 ≤ bounds.markers) × (bounds.markers ≤ MOST_MARKERS) }
    requires blocks { (0 < bounds.blocks) × (bounds.blocks < 2 ^ 32) }
    requires can { CanMark (W.words words.now) starts.now bounds.blocks }
    ensures { IfOk result (λ lists. AreMarked (W.words words.now) starts.now bounds.markers lists.items) }
{
    let (table, seat) = ClaimTable::new(alloc, bounds)?;
    let mut crew = make_crew(alloc, &table, seat, bounds)?;
    mark_beside(
        rt,
        &table,
        words,
        starts,
        bounds.markers,
        crew.as_mut_slice(),
        gate,
    );
    end_crew(alloc, table, crew)
}

// Makes a marker that has claimed nothing yet, with room for every block.
fn make_marker(
    alloc: Global,
    table: &ClaimTable,
    seat: ClaimSeat,
    number: u8,
    bounds: Bounds,
) -> Result<Marker, NoMemory>
    requires seat { IsAt table.now seat }
    requires part { (seen seat).parts ≡ blank number ∷ [] }
    requires bounds { bounds_of table.now ≡ bounds }
    requires number { number < bounds.markers }
    requires blocks { bounds.blocks < 2 ^ 32 }
    ensures begins { IfOk result (λ marker. CanBegin table.now bounds.markers marker) }
    ensures number { IfOk result (λ marker. marker.number ≡ number) }
{
    // Only the contract uses `table`.
    let _ = table;
    let mut found = Room::new(alloc);
    found.reserve(bounds.blocks as u32)?;
    let mut waiting = Room::new(alloc);
    waiting.reserve(bounds.blocks as u32)?;
    Ok(Marker {
        number,
        seat,
        found,
        waiting,
    })
}

// Makes a marker for each number below `bounds.markers`, in order. `seat` has the parts of all markers, and is split.
fn make_crew(
    alloc: Global,
    table: &ClaimTable,
    seat: ClaimSeat,
    bounds: Bounds,
) -> Result<Vec<Marker>, NoMemory>
    requires seat { IsAt table.now seat }
    requires whole { seen seat ≡ whole bounds.markers }
    requires bounds { bounds_of table.now ≡ bounds }
    requires some { 1 ≤ bounds.markers }
    requires blocks { bounds.blocks < 2 ^ 32 }
    ensures begin { IfOk result (λ crew. CanAllBegin table.now bounds.markers crew.items) }
    ensures numbers { IfOk result (λ crew. AreNumbered crew.items) }
    ensures count { IfOk result (λ crew. vec_len crew ≡ bounds.markers) }
{
    let mut seat = seat;
    let mut crew = Vec::new(alloc);
    for number in 1..bounds.markers {
        let own = table.split(&mut seat);
        crew.push(make_marker(alloc, table, own, number - 1, bounds)?)?;
    }
    crew.push(make_marker(alloc, table, seat, bounds.markers - 1, bounds)?)?;
    Ok(crew)
}

// Lets all markers mark side by side, each in a thread of its own, or in the caller's thread if no thread can be started.
fn mark_beside<R: Threads + Sync, W: StillWords, G: Gate>(
    rt: &R,
    table: &ClaimTable,
    words: &W,
    starts: &[u64],
    markers: u8,
    crew: &mut [Marker],
    gate: &G,
)
    requires begin { CanAllBegin table.now markers crew.old }
    requires numbers { AreNumbered crew.old }
    requires can { CanMark (W.words words.now) starts.now (bounds_of table.now).blocks }
    ensures marked { HaveAllMarked table.now (W.words words.now) starts.now markers crew.new }
    ensures numbers { AreNumbered crew.new }
    ensures count { length crew.new ≡ length crew.old }
{
    thread::for_each_mut(
        rt,
        crew,
        MOST_MARKERS as usize,
        &|number, marker: &mut Marker|
            requires { CanBegin table.now markers marker.now × CanMark (W.words words.now) starts.now (bounds_of table.now).blocks ×
                (marker.now.number ≡ number) }
            ensures { HasMarked table.entry.now (W.words words.entry.now) starts.entry.now markers marker.exit.now × (marker.exit.now.number ≡ number) }
        {
            // Only the contract uses `number`.
            let _ = number;
            marker.mark(table, words, starts, markers, gate);
        },
    );
}

// Joins the seats, ends the table, and returns the markers' lists, in the markers' order. The lists share no block, and each
// block that any marker found claimed is in one of the lists.
fn end_crew(
    alloc: Global,
    table: ClaimTable,
    crew: Vec<Marker>,
) -> Result<Vec<Room<Address>>, NoMemory>
    requires sound { AreSound table crew.items }
    requires numbers { AreNumbered crew.items }
    requires count { (1 ≤ vec_len crew) × (vec_len crew ≡ (bounds_of table).markers) }
    ensures { IfOk result (λ lists. (lists.items ≡ map found_of crew.items) × IsSharedAmong crew.items) }
{
    let mut crew = crew;
    let Some(last) = crew.pop() else {
        unreachable!();
    };
    let mut last = last;
    let mut lists = Vec::new(alloc);
    for marker in crew {
        let Marker {
            number: _,
            seat,
            found,
            waiting: _,
        } = marker;
        table.join(&mut last.seat, seat);
        lists.push(found)?;
    }
    let Marker {
        number: _,
        seat,
        found,
        waiting: _,
    } = last;
    lists.push(found)?;
    table.close(seat);
    Ok(lists)
}
