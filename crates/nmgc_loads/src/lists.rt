//! Lists that are replaced: the decider of one mutator.
//!
//! The mutator makes lists 0, 1 and so on, three for each place. List K has 1,024 cells with the number K, and comes into place K
//! modulo the number of places. So only the last third is left. Then the mutator reads these lists, and adds up their cells and
//! numbers.
//!
//! Easy to get wrong: a mutator may have no place.
ghost use Rattle.std.specs.Prelude.{IfSome};
ghost use Rattle.nmgc_limits.specs.Limits.{most_segment_words};
ghost use Rattle.nmgc_world_spec.specs.World.{Fits};

use crate::arrays::{NIL, SLOTS, array_of, make, slot_of};
use nmgc_commands::registers::{R0, R1};
use nmgc_commands::{Number, PackedCommand, Register};
use nmgc_decider::Decider;
use nmgc_world_spec::{Reply, Value};

/// The cells of a list.
pub const CELLS: u32 = 1024;

// The lists that are made for each place.
const MADE: u32 = 3;

// The registers of a list, or its unread rest, and of its number.
const LIST: Register = R0;

const NUMBER: Register = R1;

/// The command whose reply the decider takes next.
#[derive(Clone, Copy, Debug, PartialEq, Eq)]
enum Step {
    // Nil, and the arrays.
    Nil,
    Array,
    // A list is made: its number; its cells, with the number of those that follow; and the write into its place.
    Number,
    Cell(u32),
    Keep,
    // A list is read: its first cell, and then the number and the rest of each cell.
    Head,
    First,
    Rest,
    Done,
    Refused,
}

/// A mutator's lists.
#[derive(Clone, Copy, Debug, PartialEq, Eq)]
pub struct Lists {
    step: Step,
    places: u32,
    // The places that have a slot.
    slots: u32,
    // The list that is made, or the place that is read.
    list: u32,
    /// The cells read.
    pub cells: u64,
    /// The sum of the numbers read.
    pub sum: u64,
}

/// Returns the sum of the numbers in the cells of all lists that are left, for this number of places.
pub fn right_sum(places: u32) -> u64 {
    let places = u64::from(places);
    let twice = places.saturating_mul((5 * places).saturating_sub(1));
    (twice / 2).saturating_mul(u64::from(CELLS))
}

impl Lists {
    /// Makes the decider of a mutator with this number of places. It takes the reply to a `nil` first.
    pub fn new(places: u32) -> Self {
        Lists {
            step: Step::Nil,
            places,
            slots: 0,
            list: 0,
            cells: 0,
            sum: 0,
        }
    }

    /// Returns whether all lists were made and read, and no reply was refused.
    pub fn is_done(&self) -> bool {
        self.step == Step::Done
    }

    // Goes to a step with its command.
    fn go(&mut self, step: Step, command: PackedCommand) -> Option<PackedCommand>
        requires { Fits most_segment_words command }
        ensures { IfSome result (Fits most_segment_words) }
    {
        self.step = step;
        Some(command)
    }

    // Makes the next array, or the first list once each place has its slot.
    fn set_up(&mut self) -> Option<PackedCommand>
        ensures { IfSome result (Fits most_segment_words) }
    {
        if self.slots >= self.places {
            return self.make();
        }
        let command = make(self.slots)?;
        self.slots = self.slots.saturating_add(SLOTS);
        self.go(Step::Array, command)
    }

    // Begins to make a list, or to read the first one once all were made.
    fn make(&mut self) -> Option<PackedCommand>
        ensures { IfSome result (Fits most_segment_words) }
    {
        if self.list < self.places.saturating_mul(MADE) {
            let number = Number::of(u64::from(self.list));
            return self.go(Step::Number, PackedCommand::num(NUMBER, number));
        }
        self.list = 0;
        self.read()
    }

    // Puts a list into its place.
    fn keep(&mut self) -> Option<PackedCommand>
        ensures { IfSome result (Fits most_segment_words) }
    {
        let place = self.list % self.places.max(1);
        let command = PackedCommand::set(array_of(place)?, slot_of(place), LIST);
        self.go(Step::Keep, command)
    }

    // Begins to read a list, or ends once all were read.
    fn read(&mut self) -> Option<PackedCommand>
        ensures { IfSome result (Fits most_segment_words) }
    {
        if self.list >= self.places {
            self.step = Step::Done;
            return None;
        }
        let command = PackedCommand::get(LIST, array_of(self.list)?, slot_of(self.list));
        self.go(Step::Head, command)
    }
}

impl Decider for Lists {
    ghost steps = { λ p r q. Unit {0} };

    ghost words = { λ p. most_segment_words };

    ghost valid = { λ p. Unit {0} };

    fn decide(&mut self, reply: Reply) -> Option<PackedCommand> {
        match (self.step, reply) {
            (Step::Cell(more), Reply::Given(_)) => {
                if more == 0 {
                    return self.keep();
                }
                let command = PackedCommand::pair(LIST, 0, NUMBER, LIST);
                self.go(Step::Cell(more - 1), command)
            }
            (Step::First, Reply::Given(Value::Number(number))) => {
                self.cells = self.cells.saturating_add(1);
                self.sum = self.sum.saturating_add(number);
                self.go(Step::Rest, PackedCommand::get(LIST, LIST, 1))
            }
            (Step::Head | Step::Rest, Reply::Given(Value::Ref(_))) => {
                self.go(Step::First, PackedCommand::get(NUMBER, LIST, 0))
            }
            (Step::Rest, Reply::Given(Value::Nil)) => {
                self.list = self.list.saturating_add(1);
                self.read()
            }
            (Step::Number, Reply::Fine) => {
                let command = PackedCommand::pair(LIST, 0, NUMBER, NIL);
                self.go(Step::Cell(CELLS - 1), command)
            }
            (Step::Keep, Reply::Fine) => {
                self.list = self.list.saturating_add(1);
                self.make()
            }
            (Step::Nil, Reply::Fine) | (Step::Array, Reply::Given(_)) => self.set_up(),
            (_, _) => {
                self.step = Step::Refused;
                None
            }
        }
    }
}
