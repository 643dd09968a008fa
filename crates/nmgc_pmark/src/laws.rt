//! Several markers against the run and against the one marker: each function does nothing, and its contract is the law.
ghost use Rattle.nmgc_pmark.specs.{OneMarker.MarksTheSame, Stops.StopsAreStopped, Strong.RootsStartStrongReach};

use nmgc_mark::laws::all_reached_is_marked;

/// Proves that several markers mark the same as the one marker of a cycle. Suppose that the one marker began at a snapshot
/// and emptied its queue by scans alone (`IsMarkedAlone`), and that several markers' lists are claims from the snapshot's
/// roots (`AreClaims`). Then the snapshot block of an object, except g, is marked exactly if the object's name is in a list.
pub fn one_marker_marks_the_same()
    ensures { MarksTheSame }
{
    all_reached_is_marked();
}

/// Proves that the heap at a stop of a run (`HoldsAtStop`) is a stopped heap, as `mark_all` requires, if its world is closed
/// and its segments are sound. Its roots are the values in registers and finaliser queues.
pub fn a_stop_is_stopped()
    ensures { StopsAreStopped }
{}

/// Proves that in a closed world strong fields reach the same names from the values of the roots as from the roots.
pub fn roots_start_strong_reach()
    ensures { RootsStartStrongReach }
{}
