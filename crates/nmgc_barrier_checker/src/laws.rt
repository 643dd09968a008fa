//! The theorems of the watch. Each function does nothing: its contract is the law.
ghost use Rattle.nmgc_barrier_checker.specs.Watching.{ReasonsRefuse, EveryEventIsJudged, ClosedIsExact, ClosedLaterIsExact, KeptIsMarked, NeededIsKept};

/// Proves that an event can't happen, if there is a reason against it. So `Watch::step` refuses no event that can happen.
pub fn a_reason_refuses()
    ensures { ReasonsRefuse }
{}

/// Proves that each event can happen or has a reason against it, if the watch's heap and, in a cycle, the snapshot are worlds
/// (`AreClosed`). By `a_reason_refuses`, no event with a reason against it can happen.
pub fn every_event_is_judged()
    ensures { EveryEventIsJudged }
{}

/// Proves that a marker marks exactly the kept names of a cycle's result, if the cycle closes without debts and untaken
/// names, and the marker can close with it. The law is about each marker that is possible beside a cycle that began with a
/// world (`Beside`), since a trace doesn't show the marker. The close may report which weak pointers die, or not.
pub fn a_closed_cycle_marked_what_it_had_to()
    ensures { ClosedIsExact }
{}

/// Proves that a cycle whose registers are read at scans has marked exactly the kept names if it closes without debts. The
/// roots as they were read keep these, along with opened names, names stored by unscanned mutators, and pushes.
pub fn a_closed_hybrid_cycle_marked_what_it_had_to()
    ensures { ClosedLaterIsExact }
{}

/// Proves that each name kept by the commands alone is kept by commands and pushes (`MarksName`), if the snapshot is a world.
pub fn names_kept_by_commands_are_kept()
    ensures { KeptIsMarked }
{}

/// Proves that each needed name of a cycle's result is a kept name, if the close reported no deaths (`IsLeft`) and the
/// snapshot is a world. A needed name may be needed only by weak pointers that live on.
pub fn what_is_needed_is_kept()
    ensures { NeededIsKept }
{}
