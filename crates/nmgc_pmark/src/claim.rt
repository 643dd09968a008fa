//! The claim table: a word for each block, 0 or the number of the marker that claimed the block plus one.
//!
//! A marker claims a block by one compare-exchange. So only one marker gets a block, and other markers find it claimed.
//!
//! Easy to get wrong: a marker that was refused a block may not wait for its scan. The marker that has the block scans it.
ghost use Rattle.std.specs.Prelude.{◌≡◌, ◌<◌, Contains, IfOk, IsTrue};
ghost use Rattle.nmgc_pmark.specs.{View.whole, View.tried, View.claimed_by, View.keeps_rest, View.gives_first, View.together, Rule.IsMarker, Rule.CanSplit, Rule.HasAll, Rule.IsShared, Seat.seen, Seat.bounds_of, Seat.IsAt};

use crate::bounds::Bounds;
use crate::plays::{Both, FirstMarker, Tries};
use crate::table::{ClaimSeat, ClaimTable};
use atomic_table::Table;
use nmgc_lists::NoMemory;
use std::alloc::Global;

impl ClaimTable {
    /// Makes a table without claims, and a seat with the parts of all markers. Requires at least one block. Takes memory for
    /// a word a block, and twice that while the table is made.
    pub fn new(alloc: Global, bounds: Bounds) -> Result<(ClaimTable, ClaimSeat), NoMemory>
        requires { 0 < bounds.blocks }
        ensures bounds { IfOk result (λ t. bounds_of t.0 ≡ bounds) }
        ensures seat { IfOk result (λ t. IsAt t.0 t.1) }
        ensures whole { IfOk result (λ t. seen t.1 ≡ whole bounds.markers) }
    {
        let words = Vec::from_elem(alloc, 0, bounds.blocks)?;
        let (table, seat) = Table::of_words(alloc, words.as_slice(), &bounds)?;
        Ok((ClaimTable { table }, seat))
    }

    /// Splits a seat. Returns a seat with the first part of `seat`, whose number no other part may have (`CanSplit`). `seat`
    /// keeps the other parts, and the blocks that it found claimed.
    pub fn split(&self, seat: &mut ClaimSeat) -> ClaimSeat
        requires seat { IsAt self.now seat.old }
        requires ready { CanSplit (seen seat.old) }
        ensures seats { IsAt self.now seat.new × IsAt self.now result }
        ensures rest { seen seat.new ≡ keeps_rest (seen seat.old) }
        ensures first { seen result ≡ gives_first (seen seat.old) }
    {
        self.table.shared.split_seat::<FirstMarker>(seat)
    }

    /// Joins two seats: `seat` gets the parts of `other` and the blocks that `other` found claimed, and `other` ends.
    pub fn join(&self, seat: &mut ClaimSeat, other: ClaimSeat)
        requires seats { IsAt self.now seat.old × IsAt self.now other }
        ensures seat { IsAt self.now seat.new }
        ensures both { seen seat.new ≡ together (seen seat.old) (seen other) }
    {
        self.table.shared.join_seat::<Both>(seat, other)
    }

    /// Claims a block for `marker` by one compare-exchange, and returns whether the marker got it. If not, the block was
    /// found claimed. The seat has to have this marker's part alone. No marker gets a block twice (`fresh`), and no two
    /// markers get the same block, as `close` shows. Takes no memory and never waits.
    pub fn claim(&self, seat: &mut ClaimSeat, marker: u8, block: usize) -> bool
        requires seat { IsAt self.now seat.old }
        requires marker { IsMarker (seen seat.old) marker }
        requires within { block < (bounds_of self.now).blocks }
        ensures seat { IsAt self.now seat.new }
        ensures view { seen seat.new ≡ tried (seen seat.old) block result }
        ensures fresh { IsTrue result → Contains (claimed_by (seen seat.old)) block → ⊥ }
    {
        let found = self
            .table
            .shared
            .compare_exchange::<Tries>(seat, block, 0, u64::from(marker) + 1);
        found == 0
    }

    /// Ends the table. Requires that `seat` has the part of every marker. Ensures that no block is in the parts of two
    /// markers, and that each block that was found claimed is in some marker's part.
    pub fn close(self, seat: ClaimSeat)
        requires seat { IsAt self seat }
        requires all { HasAll (bounds_of self).markers (seen seat) }
        ensures { IsShared (seen seat) }
    {
        let ClaimTable { table } = self;
        let closed = table.close_with(seat);
        closed.free();
    }
}
