//! The facts that a sweeper has about its cycle, from the cycle's beginning to its end. Each function here does nothing; its
//! contract is the law, over the results of `Sweeper`'s calls.
ghost use Rattle.nmgc_sweep.specs.Statements.{StartNotesSegments, LeftStays, ClosingBeginsWork, EndShowsCensus, LeftIsCounted, WorkGoesOn, PlacingKeepsWaiting};

/// Proves that a sweeper that starts when a cycle begins, with the cycle's epoch, notes exactly the segments that the cycle
/// sweeps (`HasNotes`). Words and segments have to represent the cycle's heap just after the beginning (`cycle_begun`).
/// Before the cycle no segment may have waited, and no name may have lain in two blocks.
pub fn start_notes_segments()
    ensures { StartNotesSegments }
{}

/// Proves two laws for a sweeper whose unswept segments are exactly the waiting segments (`AreLeft`). This stays so while the
/// layout stays and the same segments wait. The number of unswept segments is the count of waiting segments in the allocation
/// state that words and segments represent.
pub fn unswept_segments_wait()
    ensures stays { LeftStays }
    ensures counted { LeftIsCounted }
{}

/// Proves that a sweeper that has swept and listed nothing is at work (`IsAtWork`) once its cycle closes with just the
/// blocks of kept names marked in waiting segments (`IsClosedNow`). It needs the cycle's notes (`HasNotes`), and its unswept
/// segments have to be the waiting segments (`AreLeft`). Words and segments have to represent the allocation state.
pub fn closing_begins_work()
    ensures { ClosingBeginsWork }
{}

/// Proves that the lists of a sweeper at work are the census of its cycle, with the names put in order, if no segment waits.
pub fn end_shows_census()
    ensures { EndShowsCensus }
{}

/// Proves that a sweeper at work (`IsAtWork`) stays at work after a change, and that its unswept segments stay exactly the
/// waiting segments (`AreLeft`). The change has to keep the waiting segments and their names, all marks, the layout and the
/// number of segments (`KeepsWaiting`). Words and segments must represent an allocation state after the change. Proves also
/// that placing an object is such a change.
pub fn work_goes_on()
    ensures goes_on { WorkGoesOn }
    ensures placing { PlacingKeepsWaiting }
{}
