//! Compare-exchange of a field: the step that is the position of `cas` in the order.
//!
//! It is one step, whether it writes or not: no other step comes between its look at the word and its write. If it writes, it
//! is a swap, so while marking the seat owes the word that was taken out.
ghost use Rattle.std.specs.Prelude.{◌≡◌, ◌+◌, ◌<◌, ◌==◌, []};
ghost use Rattle.nmgc_object.specs.declared.size.TheConstants.{HEADER_WORDS};
ghost use Rattle.nmgc_round.specs.{Ready.Mutates, Compare.CanExchange, Compare.FoundOther, Compare.exchanged, Compare.wrote, Seat.IsAt, Seat.Knows, Seat.seen, Seat.word_count};

use crate::plays::Asked;
use crate::table::{MutatorSeat, Round};
use crate::view::View;
use atomic_table::Play;
use nmgc_commands::PackedCommand;
use nmgc_object::{Address, HEADER_WORDS};
use std::marker::{Brand, PhantomData};

/// The outcome of a compare-exchange.
#[derive(Debug, Drop, PartialEq, Eq)]
pub enum Exchanged {
    /// It found the expected word, and wrote the new one.
    Yes,
    /// It found this other word, and wrote nothing.
    No { found: u64 },
}

/// The step in which a command compares a field, and writes another word if the field has the expected word.
pub struct Exchanges<C> {
    asked: PhantomData<C>,
}

impl<C: Asked> Play<(), View> for Exchanges<C> {
    ghost then = { λ s m n w. (w.0 ≡ exchanged m.0 C.command s.first (n == s.first)) × (w.1 ≡ []) };
}

impl Round {
    // Does the compare-exchange of a field that is the position of a `cas`, and returns the outcome. `C` is `command`.
    fn exchange_field_for<C: Asked>(
        &self,
        seat: &mut MutatorSeat,
        at: Address,
        field: u32,
        expected: u64,
        word: u64,
        command: &PackedCommand,
    ) -> Exchanged
        requires seat { IsAt self.now seat.old }
        requires asked { C.command ≡ command.now }
        requires ready { Mutates (λ o p. CanExchange o p at.0 field expected word command.now) (seen seat.old) }
        requires within { at.0 + HEADER_WORDS + field < word_count self.now }
        ensures view { Knows self.now seat.old seat.new (exchanged (seen seat.old) command.now expected (wrote result)) }
        ensures found { FoundOther expected result }
    {
        let _ = command;
        let found = self.table.shared.compare_exchange::<Exchanges<C>>(
            seat,
            at.0 as usize + HEADER_WORDS as usize + field as usize,
            expected,
            word,
        );
        if found == expected {
            Exchanged::Yes
        } else {
            Exchanged::No { found }
        }
    }

    /// Stores a word into a field of a variable or an array if the field has the expected word, and returns the outcome. This
    /// is the position of the `cas` in the order. After `Yes` the row answers yes, the view's `Part.found` ends with the
    /// expected word, and while marking the seat owes it from this step on. After `No` the field had another word, the row
    /// answers no, and nothing else changes. By contract `found` isn't the expected word; in the code it is the field's word.
    pub fn exchange_field(
        &self,
        seat: &mut MutatorSeat,
        at: Address,
        field: u32,
        expected: u64,
        word: u64,
        command: &PackedCommand,
    ) -> Exchanged
        requires seat { IsAt self.now seat.old }
        requires ready { Mutates (λ o p. CanExchange o p at.0 field expected word command.now) (seen seat.old) }
        requires within { at.0 + HEADER_WORDS + field < word_count self.now }
        ensures view { Knows self.now seat.old seat.new (exchanged (seen seat.old) command.now expected (wrote result)) }
        ensures found { FoundOther expected result }
    {
        self.exchange_field_for::<Brand>(seat, at, field, expected, word, command)
    }
}
