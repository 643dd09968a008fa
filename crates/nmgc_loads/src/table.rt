//! Operations on a table that all mutators share: the decider of one mutator.
//!
//! The table has 64,000 fields, in 16 arrays. Mutator 0 makes the arrays, and puts them into the slots of the shared array in
//! order. Each other mutator reads the slots in order, and yields while one is nil. A stream of random numbers decides on each
//! operation. About half of them put a new entry into a field. The rest read a field. An entry has its field's number, which
//! the reader checks.
ghost use Rattle.std.specs.Prelude.{IfSome};
ghost use Rattle.nmgc_limits.specs.Limits.{most_segment_words};
ghost use Rattle.nmgc_world_spec.specs.World.{Fits};

use crate::arrays::{SLOTS, array_of, make, slot_of};
use nmgc_commands::registers::{R0, R1, R2};
use nmgc_commands::{Number, PackedCommand, Register};
use nmgc_decider::{Decider, Random};
use nmgc_world_spec::{Reply, Value};

/// The number of arrays.
pub const ARRAYS: u16 = 16;

/// The number of fields.
pub const FIELDS: u32 = ARRAYS as u32 * SLOTS;

// The seed of all operations.
const SEED: u64 = 1;

// The registers of an entry, of its field's number, and of the number that was read.
const ENTRY: Register = R0;

const FIELD: Register = R1;

const SEEN: Register = R2;

/// The command whose reply the decider takes next.
#[derive(Clone, Copy, Debug, PartialEq, Eq)]
enum Step {
    // Nil. Then each array is made and shared, or found; while there is none, a round passes.
    Nil,
    Array,
    Share,
    Find,
    Yield,
    // A new entry: its field's number, itself, and the field.
    Number,
    Entry,
    Write,
    // An entry that is read: the field, and the entry's number.
    Read,
    Look,
    Done,
    Refused,
}

/// A mutator's operations on the table.
#[derive(Clone, Copy, Debug, PartialEq, Eq)]
pub struct Table {
    step: Step,
    // Whether the mutator makes the arrays.
    is_maker: bool,
    // The number of arrays that were made or found.
    arrays: u16,
    random: Random,
    left: u32,
    // The field of the operation.
    field: u32,
    /// The operations done.
    pub operations: u64,
    /// The entries read with another number than their field's.
    pub wrong: u64,
}

impl Table {
    /// Makes the decider of a mutator that does `operations` operations. It takes the reply to a `nil` first.
    pub fn new(mutator: u8, operations: u32) -> Self {
        Table {
            step: Step::Nil,
            is_maker: mutator == 0,
            arrays: 0,
            random: Random::new(SEED, u64::from(mutator)),
            left: operations,
            field: 0,
            operations: 0,
            wrong: 0,
        }
    }

    /// Returns whether all operations were done, and no reply was refused.
    pub fn is_done(&self) -> bool {
        self.step == Step::Done
    }

    // Goes to a step with its command.
    fn go(&mut self, step: Step, command: PackedCommand) -> Option<PackedCommand>
        requires { Fits most_segment_words command }
        ensures { IfSome result (Fits most_segment_words) }
    {
        self.step = step;
        Some(command)
    }

    // Makes or finds the next array, or begins the first operation once all are there.
    fn set_up(&mut self) -> Option<PackedCommand>
        ensures { IfSome result (Fits most_segment_words) }
    {
        if self.arrays >= ARRAYS {
            return self.operate();
        }
        let place = u32::from(self.arrays) * SLOTS;
        if self.is_maker {
            return self.go(Step::Array, make(place)?);
        }
        let command = PackedCommand::get_shared(array_of(place)?, self.arrays);
        self.go(Step::Find, command)
    }

    // Begins the next operation, or ends.
    fn operate(&mut self) -> Option<PackedCommand>
        ensures { IfSome result (Fits most_segment_words) }
    {
        if self.left == 0 {
            self.step = Step::Done;
            return None;
        }
        self.left -= 1;
        let kind = self.random.below(2);
        self.field = self.random.below(FIELDS);
        if kind == 0 {
            let number = Number::of(u64::from(self.field));
            return self.go(Step::Number, PackedCommand::num(FIELD, number));
        }
        let command = PackedCommand::get(ENTRY, array_of(self.field)?, slot_of(self.field));
        self.go(Step::Read, command)
    }

    // Counts an operation, and begins the next one.
    fn end(&mut self) -> Option<PackedCommand>
        ensures { IfSome result (Fits most_segment_words) }
    {
        self.operations = self.operations.saturating_add(1);
        self.operate()
    }

    // Returns the next command while the arrays are made or found. Returns `None` for a reply that the command can't have.
    fn decide_set_up(&mut self, reply: Reply) -> Option<PackedCommand>
        ensures { IfSome result (Fits most_segment_words) }
    {
        match (self.step, reply) {
            (Step::Nil | Step::Yield, Reply::Fine) => self.set_up(),
            (Step::Array, Reply::Given(_)) => {
                let place = u32::from(self.arrays) * SLOTS;
                let command = PackedCommand::set_shared(self.arrays, array_of(place)?);
                self.go(Step::Share, command)
            }
            (Step::Find, Reply::Given(Value::Nil)) => {
                self.go(Step::Yield, PackedCommand::yield_now())
            }
            (Step::Share, Reply::Fine) | (Step::Find, Reply::Given(Value::Ref(_))) => {
                self.arrays = self.arrays.saturating_add(1);
                self.set_up()
            }
            (_, _) => {
                self.step = Step::Refused;
                None
            }
        }
    }
}

impl Decider for Table {
    ghost steps = { λ p r q. Unit {0} };

    ghost words = { λ p. most_segment_words };

    ghost valid = { λ p. Unit {0} };

    fn decide(&mut self, reply: Reply) -> Option<PackedCommand> {
        match (self.step, reply) {
            (Step::Read, Reply::Given(Value::Ref(_))) => {
                self.go(Step::Look, PackedCommand::get(SEEN, ENTRY, 0))
            }
            (Step::Look, Reply::Given(Value::Number(number))) => {
                if number != u64::from(self.field) {
                    self.wrong = self.wrong.saturating_add(1);
                }
                self.end()
            }
            (Step::Number, Reply::Fine) => {
                let command = PackedCommand::pair(ENTRY, 0, FIELD, FIELD);
                self.go(Step::Entry, command)
            }
            (Step::Entry, Reply::Given(_)) => {
                let array = array_of(self.field)?;
                let command = PackedCommand::set(array, slot_of(self.field), ENTRY);
                self.go(Step::Write, command)
            }
            (Step::Read, Reply::Given(Value::Nil)) | (Step::Write, Reply::Fine) => self.end(),
            (_, _) => self.decide_set_up(reply),
        }
    }
}
