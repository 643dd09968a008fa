//! Lists of names, kept as spans.
//!
//! A cycle's row has every name that its segments had, and a maker's objects mostly lie in the order in which they were made,
//! one serial after the other. So a list keeps spans of names instead of names (`span`): a list of thousands is a few spans.
//! If no two names follow one another, it has a span for each. A span takes the bytes of a name, so a list never takes more
//! than its names would. The spans are no part of a list's value: contracts see the names (`specs/Spans.antt`).
//!
//! - `span`: names of one maker, one serial after the other.
//! - `list`: a list of names, to be read and put in order.
//! - `room`: a list to be filled, in memory that was taken before.
//!
//! Easy to get wrong: spans in order of their first names have their names in order only if there is no duplicate
//! (`specs/laws/Spans.antt`). The names of two overlapping spans would have to be mixed.
#![tactic(auto)]

pub mod list;
pub mod room;
pub mod span;

pub use list::NameList;
pub use room::NameRoom;
pub use span::Span;
