//! The beginning and the end of a round.
//!
//! Each is one step on the run's table, and copies no word. The world that the words represent is no value of the program:
//! only proofs know it. So the caller hands in an *opening*, a value of no bytes that only clauses read. All views have it.
//!
//! Easy to get wrong: an error in between would lose the words. So `start` gets the seats' memory, and neither step fails.
ghost use Rattle.std.specs.Prelude.{map, All, [], ◌≡◌, ◌<◌, ◌≤◌, length, vec_capacity};
ghost use Rattle.nmgc_round.specs.{Starting.CanOpen, Finishing.HasAll, Finishing.IsFinished, Finishing.Leaves, Stop.IsSole, Stop.words_of, Seating.alones, Seating.all_together, Seating.collecting, View.whole, Seat.IsAt, Seat.seen, Seat.word_count, Seat.opening_of};

use crate::plays::{Begun, Ends, Opens};
use crate::table::{CollectorSeat, Finished, MutatorSeat, Round, Shared, Started};
use crate::view::Opened;
use crate::witness::{Witness, WitnessFor};
use crate::words::Words;
use nmgc_lists::{List, ListMemory};
use nmgc_object::Layout;
use std::marker::Brand;

/// Chooses the opening of the argument, as a new witness.
pub(crate) struct Same;

impl WitnessFor<Witness<Opened>, Opened> for Same {
    ghost wanted = { λ about x. x ≡ about.value };
}

impl Round {
    // Opens a round by a step of its only seat, which then has every part. The step is a load of word 0, made only for its
    // effect on the seat's view. `C` is `opening`.
    fn open<C: Begun>(table: &Shared, seat: &mut MutatorSeat, opening: &Witness<Opened>)
        requires seat { IsSole table.now.shared.table_id seat.old }
        requires asked { C.opening ≡ opening.now.value }
        requires ready { CanOpen opening.now.value (words_of seat.old) }
        ensures { (seat.new.table_id ≡ table.now.shared.table_id) × (seat.new.me.1 ≡ []) × (seen seat.new ≡ whole opening.now.value) }
    {
        let _ = opening;
        table.shared.load::<Opens<C>>(seat, 0);
    }

    // Makes a round of these words by `open`, and returns it with its one seat, which has every part.
    fn begin(words: Words, marking: bool, opening: &Witness<Opened>) -> (Round, MutatorSeat)
        requires opens { CanOpen opening.now.value words }
        requires marking { marking ≡ opening.now.value.marking }
        ensures { IsAt result.0 result.1 × (seen result.1 ≡ whole opening.now.value) × (word_count result.0 ≡ length words) ×
            (opening_of result.0 ≡ opening.now.value) × (0 < word_count result.0) }
    {
        let Words { table, seat } = words;
        let mut seat = seat;
        Round::open::<Brand>(&table, &mut seat, opening);
        let opening: Witness<Opened> = Witness::of::<Witness<Opened>, Same>(opening);
        (
            Round {
                table,
                marking,
                opening,
            },
            seat,
        )
    }

    /// Begins a round on these words, with a seat for each of the layout's mutators and one for the collector. The seats know
    /// only the opening: they have no rows and no scans, and owe nothing.
    ///
    /// The opening is the state of the marking machine as the round begins, with the addresses in use. Requires that the
    /// words represent its world, and that `marking` is as in the opening: it says whether a cycle is marking. Requires that
    /// `room` is an empty list with room for the mutators' seats. `place` is the memory in which their list will lie, so
    /// nothing can fail. Takes no allocator, no memory, and no time that grows with the words.
    pub fn start(
        words: Words,
        layout: Layout,
        marking: bool,
        opening: &Witness<Opened>,
        room: Vec<MutatorSeat>,
        place: ListMemory<MutatorSeat>,
    ) -> Started
        requires opens { CanOpen opening.now.value words }
        requires layout { layout ≡ opening.now.value.layout }
        requires marking { marking ≡ opening.now.value.marking }
        requires room { (room.items ≡ []) × (layout.mutators ≤ vec_capacity room) }
        ensures round { (opening_of result.round ≡ opening.now.value) × (word_count result.round ≡ length words) }
        ensures mutators { (map seen result.mutators ≡ alones opening.now.value 0 opening.now.value.hands) × All (IsAt result.round) result.mutators }
        ensures collector { IsAt result.round result.collector × (seen result.collector ≡ collecting (whole opening.now.value)) }
    {
        let (round, first) = Round::begin(words, marking, opening);
        let mut first = first;
        let collector = round.split_collector(&mut first);
        let mut seats = room;
        round.split_all(first, usize::from(layout.mutators), &mut seats);
        Started {
            round,
            mutators: List::from_vec_in(seats, place),
            collector,
        }
    }

    /// Whether a cycle is marking in this round. This takes no step.
    pub fn is_marking(&self) -> bool
        ensures { result ≡ (opening_of self.now).marking }
    {
        self.marking
    }

    // Ends the round by a seat that has every part, and returns the words. Loads word 0 and drops it, as `open` does.
    fn end(self, last: MutatorSeat) -> Words
        requires { IsAt self last × HasAll (seen last) }
        ensures { IsFinished (opening_of self) result (seen last) × (length result ≡ word_count self) }
    {
        let Round {
            table,
            marking: _,
            opening: _,
        } = self;
        let mut seat = last;
        table.shared.load::<Ends>(&mut seat, 0);
        Words { table, seat }
    }

    /// Ends the round and returns its words. The seats have to be all seats of the round: the mutators' and the collector's.
    /// All views agree with one list of events, and each event is possible at its position. A mutator's events are its rows
    /// in their order, the collector's are its scans, and marks and objects owed agree. The words represent the world after
    /// the events. Can't fail, and takes no allocator, no memory, and no time that grows with the words.
    pub fn finish(self, mutators: List<MutatorSeat>, collector: CollectorSeat) -> Finished
        requires seats { All (IsAt self) mutators × IsAt self collector }
        requires all { HasAll (all_together (seen collector) (map seen mutators)) }
        ensures leaves { Leaves (opening_of self) result.words (all_together (seen collector) (map seen mutators)) }
        ensures count { length result.words ≡ word_count self }
    {
        let last = self.gather(collector, mutators);
        Finished {
            words: self.end(last),
        }
    }
}
