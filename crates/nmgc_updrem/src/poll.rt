//! The answer of a poll of a ring.

/// The answer of a poll of a mutator's ring.
#[derive(Clone, Copy, Debug, PartialEq, Eq)]
pub enum Poll {
    /// One block was taken out, and its entries are at the end of the list.
    Took,
    /// This end knew of no block when it looked.
    Nothing,
    /// The list has no room for a block, and the end didn't look.
    NoRoom,
}
