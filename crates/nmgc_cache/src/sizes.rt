//! The sizes of a cache, and the place of a key in it.

ghost use Rattle.std.specs.Prelude.{◌<◌};

use nmgc_commands::Register;
use nmgc_limits::constants_are_these;

/// The number of arrays of the index, and of rings. Each array is in a slot of the shared array.
pub const SHARDS: u8 = 8;

/// The most fields of an array: a segment of 4,096 words has room for these, a header and a name.
pub const MOST_FIELDS: u16 = 4094;

/// The numbers of a cache.
#[derive(Clone, Copy, Debug, PartialEq, Eq)]
pub struct Sizes {
    /// The number of keys of each index array, at most `MOST_FIELDS`.
    pub keys: u16,
    /// The number of values that each ring holds, less than `MOST_FIELDS`. The next field has the count of the ring.
    pub entries: u16,
}

/// The cache of the program.
pub const LARGE: Sizes = Sizes {
    keys: 4000,
    entries: 2000,
};

impl Sizes {
    /// Returns the number of all keys.
    pub fn all_keys(&self) -> u32 {
        u32::from(SHARDS) * u32::from(self.keys)
    }

    /// Returns the number of values that all rings hold.
    pub fn all_entries(&self) -> u32 {
        u32::from(SHARDS) * u32::from(self.entries)
    }
}

/// Returns the number of the index array that has a key, and of the ring that holds its value.
pub fn shard_of(key: u32) -> u8
    ensures { result < SHARDS }
{
    (key % u32::from(SHARDS)) as u8
}

/// Returns the register of the index array that has a key.
pub fn index_of(key: u32) -> Register {
    constants_are_these();
    Register::of(shard_of(key))
}

/// Returns the register of the ring that holds a key's value.
pub fn ring_of(key: u32) -> Register {
    constants_are_these();
    Register::of(SHARDS + shard_of(key))
}

/// Returns a key's field in its index array. A key past all fields counts as the last one.
pub fn field_of(key: u32) -> u16 {
    (key / u32::from(SHARDS)).min(u32::from(u16::MAX)) as u16
}
