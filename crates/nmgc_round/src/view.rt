//! The types of values that only proofs know. No value of these types is made.
//!
//! In clauses a seat's view and a chosen value need a type. These are empty shells; the definitions are in `specs/View.antt`.
use std::marker::Model;

/// The view of a seat.
pub struct View {
    nothing: u8,
}

impl Model for View {
    ghost use Rattle.nmgc_round.specs.View.{Seen, nobody};

    ghost Value = { Seen };

    ghost view = { λ _. nobody };
}

/// The opening of a round: the state with which it begins, and the addresses in use.
pub struct Opened {
    nothing: u8,
}

impl Model for Opened {
    ghost use Rattle.nmgc_round.specs.View.{Opening, no_opening};

    ghost Value = { Opening };

    ghost view = { λ _. no_opening };
}

/// The words with which a table is made.
pub struct Stored {
    nothing: u8,
}

impl Model for Stored {
    ghost use Rattle.std.specs.Prelude.{ℕ, List, []};

    ghost Value = { List ℕ };

    ghost view = { λ _. [] };
}
