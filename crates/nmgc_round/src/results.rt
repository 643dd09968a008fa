//! The result of a thunk: the steps that are the positions of `force` and `update` in the order.
//!
//! A thunk has no result at first, and gets one at most once: the step that stores it is a compare-exchange from an unset
//! word. From then on its free variables are no strong fields, so while marking that very step owes them all. The seat has
//! loaded them before: they never change, and its view names them.
//!
//! Easy to get wrong: the result lies before the free variables. An unset result is the word 0, which represents no value.
ghost use Rattle.std.specs.Prelude.{◌≡◌, ◌≢◌, ◌+◌, ◌<◌, ◌==◌, []};
ghost use Rattle.nmgc_object.specs.declared.size.TheConstants.{HEADER_WORDS};
ghost use Rattle.nmgc_round.specs.{Ready.Mutates, Known.IsSafe, Compare.FoundOther, Compare.wrote, Results.CanForce, Results.CanUpdate, Results.forced, Results.updated, Seat.IsAt, Seat.Knows, Seat.seen, Seat.word_count};

use crate::compare::Exchanged;
use crate::plays::{Asked, Located};
use crate::table::{MutatorSeat, Round};
use crate::view::View;
use atomic_table::Play;
use nmgc_commands::PackedCommand;
use nmgc_object::{Address, HEADER_WORDS};
use std::marker::{Brand, PhantomData};

/// The step in which a command loads a result.
pub struct Forces<C> {
    asked: PhantomData<C>,
}

impl<C: Asked> Play<(), View> for Forces<C> {
    ghost then = { λ s m n w. ((w.0 ≡ forced m.0 C.command n) × (n ≢ 0 → IsSafe m.0.opening n)) × (w.1 ≡ []) };
}

/// The step in which a command stores a result, if there is none.
pub struct Updates<A, C> {
    place: PhantomData<A>,
    asked: PhantomData<C>,
}

impl<A: Located, C: Asked> Play<(), View> for Updates<A, C> {
    ghost then = { λ s m n w. (w.0 ≡ updated m.0 A.at C.command (n == s.first)) × (w.1 ≡ []) };
}

impl Round {
    // Loads a thunk's result, as the position of a `force`, and returns its word or 0. `C` is `command`.
    fn load_result_for<C: Asked>(
        &self,
        seat: &mut MutatorSeat,
        at: Address,
        command: &PackedCommand,
    ) -> u64
        requires seat { IsAt self.now seat.old }
        requires asked { C.command ≡ command.now }
        requires ready { Mutates (λ o p. CanForce o p at.0 command.now) (seen seat.old) }
        requires within { at.0 + HEADER_WORDS < word_count self.now }
        ensures view { Knows self.now seat.old seat.new (forced (seen seat.old) command.now result) }
        ensures safe { result ≢ 0 → IsSafe (seen seat.old).opening result }
    {
        let _ = command;
        self.table
            .shared
            .load::<Forces<C>>(seat, at.0 as usize + HEADER_WORDS as usize)
    }

    /// Loads the result of a thunk and returns its word, or 0 if the thunk has none. This is the position of the `force` in
    /// the order: its row answers the word or `none`. If the word is a pointer, its object lies within the heap's words.
    pub fn load_result(&self, seat: &mut MutatorSeat, at: Address, command: &PackedCommand) -> u64
        requires seat { IsAt self.now seat.old }
        requires ready { Mutates (λ o p. CanForce o p at.0 command.now) (seen seat.old) }
        requires within { at.0 + HEADER_WORDS < word_count self.now }
        ensures view { Knows self.now seat.old seat.new (forced (seen seat.old) command.now result) }
        ensures safe { result ≢ 0 → IsSafe (seen seat.old).opening result }
    {
        self.load_result_for::<Brand>(seat, at, command)
    }

    // Stores a thunk's result if unset, as an `update`'s position, and returns the outcome. `A` is `at`, `C` is `command`.
    fn exchange_result_for<A: Located, C: Asked>(
        &self,
        seat: &mut MutatorSeat,
        at: Address,
        word: u64,
        command: &PackedCommand,
    ) -> Exchanged
        requires seat { IsAt self.now seat.old }
        requires place { A.at ≡ at.0 }
        requires asked { C.command ≡ command.now }
        requires ready { Mutates (λ o p. CanUpdate o p at.0 word command.now) (seen seat.old) }
        requires within { at.0 + HEADER_WORDS < word_count self.now }
        ensures view { Knows self.now seat.old seat.new (updated (seen seat.old) at.0 command.now (wrote result)) }
        ensures found { FoundOther 0 result }
    {
        let _ = command;
        let found = self
            .table
            .shared
            .compare_exchange::<Updates<A, C>>(
                seat,
                at.0 as usize + HEADER_WORDS as usize,
                0,
                word,
            );
        if found == 0 {
            Exchanged::Yes
        } else {
            Exchanged::No { found }
        }
    }

    /// Stores the result of a thunk unless it has one, and returns the outcome. This is the position of the `update` in the
    /// order. After `Yes` the row answers `updated`, the view's `Part.found` ends with the words of the free variables, and
    /// while marking the seat owes them from this step on. After `No` the thunk has a result, the row answers `already`, and
    /// nothing else changes. The clause says only that `found` isn't 0. In the code it is the thunk's result.
    pub fn exchange_result(
        &self,
        seat: &mut MutatorSeat,
        at: Address,
        word: u64,
        command: &PackedCommand,
    ) -> Exchanged
        requires seat { IsAt self.now seat.old }
        requires ready { Mutates (λ o p. CanUpdate o p at.0 word command.now) (seen seat.old) }
        requires within { at.0 + HEADER_WORDS < word_count self.now }
        ensures view { Knows self.now seat.old seat.new (updated (seen seat.old) at.0 command.now (wrote result)) }
        ensures found { FoundOther 0 result }
    {
        self.exchange_result_for::<Brand, Brand>(seat, at, word, command)
    }
}
