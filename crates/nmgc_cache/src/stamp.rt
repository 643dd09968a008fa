//! A key and its version as one number, which a field of an object holds.
use nmgc_commands::Number;

// The number of versions of a key, and the greatest key.
const VERSIONS: u64 = 4_294_967_296;

const MOST_KEY: u32 = 1_073_741_823;

/// The stamp of a value: its key, and how often the key was written.
#[derive(Clone, Copy, Debug, PartialEq, Eq)]
pub struct Stamp {
    pub key: u32,
    pub version: u32,
}

impl Stamp {
    /// Returns the stamp as a number of a register. A key past 2^30 - 1 counts as that.
    pub fn number(self) -> Number {
        Number::of(u64::from(self.key.min(MOST_KEY)) * VERSIONS + u64::from(self.version))
    }

    /// Returns the stamp that a number is.
    pub fn of_number(number: u64) -> Self {
        Stamp {
            key: (number / VERSIONS) as u32,
            version: (number % VERSIONS) as u32,
        }
    }
}
