//! Scanning beside the mutators.
//!
//! Each scanned word of an object (its header, then fields) is one load of the round, and one scan of the marking machine
//! (`scan`). An object is scanned to its end once it is begun. So between two calls every queued object is still to be
//! scanned from its header on.
//!
//! Before each object each mutator's ring is polled once. At most one block of remembered addresses moves from the ring to
//! the collector's list, and the stop marks them. So a mutator finds free slots again while the marker is at work. Marking
//! waits for memory more than it computes, if the next object's header is far away. So at every eighth object the headers of
//! the first eight in the queue are looked at together (`Round::look_ahead`), which is no scan.
//!
//! Easy to get wrong: only `empty` says whether anything is left. A round that scans its whole quota may leave nothing.
ghost use Rattle.std.specs.Prelude.{◌≡◌, ◌<◌, ◌≤◌, [], ◌↔◌, IsTrue, length};
ghost use Rattle.nmgc_round.specs.{Gate.next_turn, Gate.passed, Seat.seen};
ghost use Rattle.nmgc_mark.specs.{Marker.HasRoomToMark, Marker.turned, Tie.IsTied, Work.IsCollector, Work.HasWorked, Work.marks_seen};
ghost use Rattle.nmgc_updrem.specs.Rings.{HavePolled};

use crate::marker::{Marker, Work};
use nmgc_alloc::Segments;
use nmgc_limits::MAKERS;
use nmgc_round::{CollectorSeat, Gate, Round};
use nmgc_updrem::Inbox;

impl Marker {
    // Passes the gate, and counts the pass.
    fn pass<G: Gate>(&mut self, gate: &G)
        ensures { self.new ≡ turned self.old (next_turn self.old.turns) }
    {
        self.turns = self.turns.saturating_add(1);
        gate.pass(MAKERS, self.turns);
    }

    /// Scans at most `quota` objects from the queue's front beside the mutators. Returns their number, and whether the queue
    /// is empty. If fewer than `quota` were scanned, it is empty. Each object is scanned to its end, with one
    /// `Round::scan_load` for each scanned word. Before each object the gate is passed and counted (clause `turns`), and each
    /// mutator's ring is polled once. No clause says that the gate is called or that a ring is polled; tests show both.
    /// Headers are looked at ahead of the scans, which leaves the seat's view as it is.
    ///
    /// Requires that the seat is the collector's in this round, and that the inbox has a receiver for each mutator. Requires
    /// room for each unmarked block of the snapshot (`HasRoomToMark`), and a tied marker: it has the marks and the queue of
    /// the marking machine in the collector's view. It stays tied. Takes no memory, and waits only for the gate.
    ///
    /// The first work of a cycle begins with the late pass over the segments (`Segments::catch_up`).
    pub fn work<G: Gate>(
        &mut self,
        round: &Round,
        seat: &mut CollectorSeat,
        segments: &mut Segments,
        inbox: &mut Inbox,
        quota: u32,
        gate: &G,
    ) -> Work
        requires inbox { segments.old.layout.mutators ≤ length inbox.old }
        requires collector { IsCollector round.now seat.old }
        requires room { HasRoomToMark segments.old self.old }
        requires tied { IsTied (seen seat.old).opening (marks_seen (seen seat.old)) segments.old self.old }
        ensures worked { HasWorked round.now seat.old seat.new segments.old segments.new self.old self.new result.scanned }
        ensures turns { self.new.turns ≡ passed self.old.turns result.scanned }
        ensures most { result.scanned ≤ quota }
        ensures least { result.scanned < quota → self.new.queue ≡ [] }
        ensures empty { IsTrue result.empty ↔ (self.new.queue ≡ []) }
        ensures polled { HavePolled inbox.old inbox.new }
    {
        let mutators = segments.layout().mutators;
        segments.catch_up();
        for scanned in 0..quota {
            self.look_ahead(round, seat, scanned);
            match self.take_first() {
                None => {
                    return Work {
                        scanned,
                        empty: true,
                    };
                }
                Some(at) => {
                    self.pass(gate);
                    inbox.poll_each(mutators);
                    self.scan(round, seat, segments, at);
                }
            }
        }
        Work {
            scanned: quota,
            empty: self.is_empty(),
        }
    }
}
