//! Names and values.
//!
//! The name of an object distinguishes it from every other: its maker, and the number of objects that the maker had made
//! before. No name is used again. So a name in a register or a field means one object for the whole run, wherever the
//! collector puts its words. No mutator made the shared array g; its name is `Name::SHARED`, with maker `SHARED_MAKER`.

use nmgc_limits::SHARED_MAKER;

/// The name of an object: its maker, and its number among the maker's objects, from 0.
#[derive(Clone, Copy, Debug, PartialEq, Eq)]
pub struct Name {
    pub maker: u8,
    pub serial: u32,
}

impl Name {
    /// The name of the shared array.
    pub const SHARED: Name = Name {
        maker: SHARED_MAKER,
        serial: 0,
    };
}

/// The content of a register or a field. Numbers of a script are below 2^62.
#[derive(Clone, Copy, Debug, PartialEq, Eq)]
pub enum Value {
    Nil,
    Number(u64),
    Ref(Name),
}
