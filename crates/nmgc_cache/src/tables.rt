//! The arrays of the cache, in the first slots of the shared array and in the registers of the same numbers.
//!
//! Mutator 0 makes them, and stores them in order. Each other mutator looks at the slots in order, and yields while one is nil.
ghost use Rattle.std.specs.Prelude.{◌≤◌, IfSome};
ghost use Rattle.nmgc_limits.specs.Limits.{most_segment_words};
ghost use Rattle.nmgc_world_spec.specs.World.{Fits};

use crate::sizes::{MOST_FIELDS, SHARDS, Sizes};
use nmgc_commands::registers::LAST;
use nmgc_commands::{PackedCommand, Register};
use nmgc_world_spec::{Reply, Value};

/// The register that always holds nil.
pub const NIL: Register = LAST;

// The number of the last array.
const LAST_TABLE: u8 = 2 * SHARDS - 1;

/// The event for which a mutator waits, with the number of the array.
#[derive(Clone, Copy, Debug, PartialEq, Eq)]
pub enum Setting {
    /// The array is made.
    Making(u8),
    /// The array is stored.
    Sharing(u8),
    /// The slot is read.
    Finding(u8),
    /// The round is over.
    Waiting(u8),
    /// All arrays are in their registers.
    Set,
    /// A reply came that the command can't have.
    Refused,
}

// Returns the number of fields of an array.
fn fields_of(sizes: Sizes, table: u8) -> u16
    ensures { result ≤ MOST_FIELDS }
{
    let fields = if table < SHARDS {
        sizes.keys
    } else {
        sizes.entries.saturating_add(1)
    };
    fields.min(MOST_FIELDS)
}

impl Setting {
    /// Begins, for the mutator of this number.
    pub fn new(mutator: u8) -> Self {
        if mutator == 0 {
            Setting::Making(0)
        } else {
            Setting::Finding(0)
        }
    }

    /// Returns the command whose reply is awaited, or `None` if there is none any more, or no register for the array. The clause
    /// says only that it fits.
    pub fn command(self, sizes: Sizes) -> Option<PackedCommand>
        ensures { IfSome result (Fits most_segment_words) }
    {
        match self {
            Setting::Making(table) => {
                let fields = fields_of(sizes, table);
                Some(PackedCommand::arr(Register::new(table)?, fields, NIL))
            }
            Setting::Sharing(table) => {
                let register = Register::new(table)?;
                Some(PackedCommand::set_shared(u16::from(table), register))
            }
            Setting::Finding(table) => {
                let register = Register::new(table)?;
                Some(PackedCommand::get_shared(register, u16::from(table)))
            }
            Setting::Waiting(_) => Some(PackedCommand::yield_now()),
            Setting::Set | Setting::Refused => None,
        }
    }

    /// Returns the event that is awaited after a reply.
    pub fn after(self, reply: Reply) -> Setting {
        match (self, reply) {
            (Setting::Making(table), Reply::Given(Value::Ref(_))) => Setting::Sharing(table),
            (Setting::Sharing(table), Reply::Fine) => {
                if table < LAST_TABLE {
                    Setting::Making(table + 1)
                } else {
                    Setting::Set
                }
            }
            (Setting::Finding(table), Reply::Given(Value::Nil)) => Setting::Waiting(table),
            (Setting::Waiting(table), Reply::Fine) => Setting::Finding(table),
            (Setting::Finding(table), Reply::Given(Value::Ref(_))) => {
                if table < LAST_TABLE {
                    Setting::Finding(table + 1)
                } else {
                    Setting::Set
                }
            }
            (_, _) => Setting::Refused,
        }
    }
}
