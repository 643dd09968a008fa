//! Splitting seats, and joining them again.
//!
//! The first seat of a round has the part of every mutator and the collector's. A part is only ever at one seat: splitting
//! and joining move parts and change nothing in them, so no part is lost or doubled. That is why a seat that has every part
//! may end the round, and why no event of a mutator is missed or counted twice.
ghost use Rattle.std.specs.Prelude.{map, All, true, [], ◌≡◌, ◌<◌, ◌≤◌, length, vec_capacity};
ghost use Rattle.nmgc_round.specs.Seating.{from, alones, all_together, CanSplit, keeps_rest, gives_first, mutates, collecting, together};
ghost use Rattle.nmgc_round.specs.Seat.{IsAt, seen, word_count, opening_of};

use crate::plays::{Both, CollectorAlone, FirstMutator};
use crate::table::{CollectorSeat, MutatorSeat, Round};
use nmgc_lists::List;

impl Round {
    /// Moves the first mutator's part of a seat into a new seat, and returns that. The old seat keeps the other parts.
    pub fn split_mutator(&self, seat: &mut MutatorSeat) -> MutatorSeat
        requires seat { IsAt self.now seat.old }
        requires ready { CanSplit (seen seat.old) }
        requires within { 0 < word_count self.now }
        ensures { IsAt self.now seat.new × IsAt self.now result × (seen seat.new ≡ keeps_rest (seen seat.old)) × (seen result ≡ gives_first (seen seat.old)) }
    {
        self.table.shared.split_seat::<FirstMutator>(seat)
    }

    /// Moves the collector's part of a seat into a new seat, and returns that. The old seat keeps the mutators' parts.
    pub fn split_collector(&self, seat: &mut MutatorSeat) -> CollectorSeat
        requires seat { IsAt self.now seat.old }
        requires ready { (seen seat.old).collects ≡ true }
        requires within { 0 < word_count self.now }
        ensures { IsAt self.now seat.new × IsAt self.now result × (seen seat.new ≡ mutates (seen seat.old)) × (seen result ≡ collecting (seen seat.old)) }
    {
        self.table.shared.split_seat::<CollectorAlone>(seat)
    }

    /// Moves all parts of the seat `other` into `seat`. The other seat is gone.
    pub fn join(&self, seat: &mut MutatorSeat, other: MutatorSeat)
        requires seats { IsAt self.now seat.old × IsAt self.now other }
        requires within { 0 < word_count self.now }
        ensures { IsAt self.now seat.new × (seen seat.new ≡ together (seen seat.old) (seen other)) }
    {
        self.table.shared.join_seat::<Both>(seat, other)
    }

    /// Splits a seat with all mutators' parts into one for each, and adds these to `seats`, an empty list with room, in
    /// order.
    pub fn split_all(&self, seat: MutatorSeat, mutators: usize, seats: &mut Vec<MutatorSeat>)
        requires seat { IsAt self.now seat × (seen seat ≡ from (opening_of self.now) 0 (opening_of self.now).hands) }
        requires count { (mutators ≡ length (opening_of self.now).hands) × (0 < mutators) }
        requires room { (seats.old.items ≡ []) × (mutators ≤ vec_capacity seats.old) }
        requires within { 0 < word_count self.now }
        ensures { (map seen seats.new.items ≡ alones (opening_of self.now) 0 (opening_of self.now).hands) × All (IsAt self.now) seats.new.items }
    {
        let mut seat = seat;
        for _number in 1..mutators {
            seats.push_reserved(self.split_mutator(&mut seat));
        }
        seats.push_reserved(seat);
    }

    /// Joins the parts of all seats in one seat, and returns it.
    pub fn gather(&self, seat: MutatorSeat, others: List<MutatorSeat>) -> MutatorSeat
        requires seats { IsAt self.now seat × All (IsAt self.now) others }
        requires within { 0 < word_count self.now }
        ensures { IsAt self.now result × (seen result ≡ all_together (seen seat) (map seen others)) }
    {
        let mut seat = seat;
        let mut others = others;
        while let Some(other) = others.take_first() {
            self.join(&mut seat, other);
        }
        seat
    }
}
