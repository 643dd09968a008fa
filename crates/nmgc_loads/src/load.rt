//! The load of a mutator, of either kind: the decider, and its counts.
ghost use Rattle.nmgc_limits.specs.Limits.{most_segment_words};

use crate::lists::{CELLS, Lists, right_sum};
use crate::table::Table;
use nmgc_commands::PackedCommand;
use nmgc_decider::{Decider, share};
use nmgc_world_spec::Reply;

/// The two loads.
#[derive(Clone, Copy, Debug, PartialEq, Eq)]
pub enum Kind {
    Lists,
    Table,
}

/// The task of a run.
#[derive(Clone, Copy, Debug, PartialEq, Eq)]
pub struct Task {
    pub kind: Kind,
    /// The places of all mutators together, or their operations.
    pub count: u32,
    /// The number of mutators.
    pub threads: u8,
}

/// The load of a mutator: the decider.
#[derive(Clone, Copy, Debug, PartialEq, Eq)]
pub enum Load {
    Lists(Lists),
    Table(Table),
}

/// The counts of one or more mutators. A count that their load doesn't have is 0.
#[derive(Clone, Copy, Debug, PartialEq, Eq)]
pub struct Counts {
    /// The cells read, and the sum of their numbers.
    pub cells: u64,
    pub sum: u64,
    /// The operations done, and the entries read with a wrong number.
    pub operations: u64,
    pub wrong: u64,
    /// Whether all did all their work.
    pub is_done: bool,
}

impl Task {
    /// Returns the number of places or operations of a mutator.
    pub fn share(&self, mutator: u8) -> u32 {
        share(self.count, self.threads, mutator)
    }

    /// Returns the load of a mutator.
    pub fn load(&self, mutator: u8) -> Load {
        match self.kind {
            Kind::Lists => Load::Lists(Lists::new(self.share(mutator))),
            Kind::Table => Load::Table(Table::new(mutator, self.share(mutator))),
        }
    }

    /// Returns the counts that all mutators have if each reply is right.
    pub fn right_counts(&self) -> Counts {
        let mut counts = Counts::NONE;
        match self.kind {
            Kind::Lists => {
                counts.cells = u64::from(self.count) * u64::from(CELLS);
                for mutator in 0..self.threads {
                    counts.sum = counts.sum.saturating_add(right_sum(self.share(mutator)));
                }
            }
            Kind::Table => counts.operations = u64::from(self.count),
        }
        counts
    }
}

impl Counts {
    /// Nothing counted, and nothing left to do.
    pub const NONE: Counts = Counts {
        cells: 0,
        sum: 0,
        operations: 0,
        wrong: 0,
        is_done: true,
    };

    /// Adds the counts of a mutator.
    pub fn add(&mut self, load: &Load) {
        match load {
            Load::Lists(lists) => {
                self.cells = self.cells.saturating_add(lists.cells);
                self.sum = self.sum.saturating_add(lists.sum);
                self.is_done = self.is_done && lists.is_done();
            }
            Load::Table(table) => {
                self.operations = self.operations.saturating_add(table.operations);
                self.wrong = self.wrong.saturating_add(table.wrong);
                self.is_done = self.is_done && table.is_done();
            }
        }
    }
}

impl Decider for Load {
    ghost steps = { λ p r q. Unit {0} };

    ghost words = { λ p. most_segment_words };

    ghost valid = { λ p. Unit {0} };

    fn decide(&mut self, reply: Reply) -> Option<PackedCommand> {
        match self {
            Load::Lists(lists) => lists.decide(reply),
            Load::Table(table) => table.decide(reply),
        }
    }
}
