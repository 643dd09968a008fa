//! Laws of every run of the marking machine, with events from any source. Each function here does nothing. Its contract is a
//! law over the definitions of `specs/`. A proof about a list of events may cite the theorem, and a proof about single events
//! the facts. The lemmas are in `specs/laws/`.
ghost use Rattle.nmgc_snapshot_laws.specs.Run.{SnapshotTheorem, FactsAreKept, OpeningHasFacts, EventKeepsFacts, ClosingIsExact};

/// Proves the snapshot theorem: the marks of every run from a world are exact, in each order of the queue. Before the closing,
/// only names that are live in the snapshot are marked, and the world is the replay of the commands. The closing completes
/// the marks to exactly the live names. Then exactly the dead weak pointers die, and exactly the kept names are marked.
/// Opened names count as roots.
pub fn marking_from_a_snapshot_is_exact()
    ensures { SnapshotTheorem }
{}

/// Proves that in every run from a world, each state before the closing has the marking machine's invariant (`Facts`).
pub fn events_keep_the_facts()
    ensures { FactsAreKept }
{}

/// Proves that the marking machine's invariant (`Facts`) holds when marking begins from a world (`IsWorld`).
pub fn an_opening_has_the_facts()
    ensures { OpeningHasFacts }
{}

/// Proves that each event that happens, except the closing, keeps the marking machine's invariant (`Facts`) and a closed
/// world (`IsWorld`), if the state before has both.
pub fn an_event_keeps_the_facts()
    ensures { EventKeepsFacts }
{}

/// Proves that a possible closing is exact, if the marking machine's invariant (`Facts`) holds before it. A closing is
/// possible if marking hasn't ended and nothing is queued, owed or pushed. An exact closing completes the marks to exactly
/// the live names, then to exactly the kept names. It kills exactly the dead weak pointers. Opened names count as roots.
pub fn a_closing_is_exact()
    ensures { ClosingIsExact }
{}
