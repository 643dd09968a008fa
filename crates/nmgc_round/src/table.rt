//! The table of a run, its seats, and a round on it.
//!
//! A seat has no bytes. It is the permission to step, and its view is the knowledge of its owner; contracts see the view, and
//! nothing is stored for it. A seat that is dropped before its round is over loses the words, since no other seat can then
//! have every part. So everything that can fail is done before a round starts.
ghost use Rattle.std.specs.Prelude.{◌≡◌, ◌<◌};
ghost use Rattle.nmgc_object.specs.Words.{word_total};

use crate::plays::Rules;
use crate::view::{Opened, Stored, View};
use crate::witness::Witness;
use crate::words::Words;
use atomic_table::{Seat, Table};
use nmgc_lists::List;
use std::alloc::Global;

/// The words of the heap, which all threads share in a round.
pub(crate) type Shared = Table<(), View, Witness<Stored>, Rules, Global>;

/// A mutator's permission to step.
pub type MutatorSeat = Seat<(), View>;

/// The collector's permission to step.
pub type CollectorSeat = Seat<(), View>;

/// A round, in which mutators and the collector step on the words of a table.
#[derive(Drop)]
pub struct Round {
    pub(crate) table: Shared,
    pub(crate) marking: bool,
    pub(crate) opening: Witness<Opened>,
    ghost bare: { table.shared.table_id.slots ≡ 0 },
    ghost sized: { word_total opening.value.layout ≡ table.shared.table_id.words },
    ghost some: { 0 < table.shared.table_id.words },
    ghost marks: { marking ≡ opening.value.marking },
}

/// A round that has begun, with a seat for each mutator in order of their numbers, and the collector's.
#[derive(Drop)]
pub struct Started {
    pub round: Round,
    pub mutators: List<MutatorSeat>,
    pub collector: CollectorSeat,
}

/// The words of the heap after a round.
#[derive(Drop)]
pub struct Finished {
    pub words: Words,
}
