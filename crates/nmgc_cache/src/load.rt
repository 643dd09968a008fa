//! The operations of a mutator, by a seed.
//!
//! They depend on the numbers of `Load::new` alone and not on replies, so the counts of reads, writes and scans are the same in
//! each run. Small keys come more often than large keys. Easy to get wrong: a mutator writes only keys that it owns.
use crate::known::owned_near;
use nmgc_decider::Random;

/// An operation of a mutator.
#[derive(Clone, Copy, Debug, PartialEq, Eq)]
pub enum Operation {
    /// Reads the value of a key.
    Read { key: u32 },
    /// Writes the next version of a key that the mutator owns.
    Write { key: u32 },
    /// Reads the values of the keys from `key` on, `SCANNED` of them.
    Scan { key: u32 },
}

/// The number of keys that a scan reads.
pub const SCANNED: u32 = 8;

// Of a hundred operations, how many are writes, and how many scans.
const WRITES: u32 = 9;

const SCANS: u32 = 1;

/// The operations that a mutator still does.
#[derive(Clone, Copy, Debug, PartialEq, Eq)]
pub struct Load {
    random: Random,
    mutator: u8,
    threads: u8,
    keys: u32,
    left: u32,
}

impl Load {
    /// Makes the operations of a mutator: `count` of them, over `keys` keys.
    pub fn new(seed: u64, mutator: u8, threads: u8, keys: u32, count: u32) -> Self {
        Load {
            random: Random::new(seed, u64::from(mutator)),
            mutator,
            threads,
            keys,
            left: count,
        }
    }

    /// Returns the number of operations left.
    pub fn left(&self) -> u32 {
        self.left
    }

    /// Returns the next operation, or `None` if none is left.
    pub fn next(&mut self) -> Option<Operation> {
        if self.left == 0 {
            return None;
        }
        self.left -= 1;
        let kind = self.random.below(100);
        let key = self.key();
        if kind < WRITES {
            let key = owned_near(key, self.mutator, self.threads, self.keys);
            return Some(Operation::Write { key });
        }
        if kind < WRITES + SCANS {
            return Some(Operation::Scan { key });
        }
        Some(Operation::Read { key })
    }

    // Returns the next key.
    fn key(&mut self) -> u32 {
        let bound = self.random.below(self.keys);
        self.random.below(bound.saturating_add(1))
    }
}
