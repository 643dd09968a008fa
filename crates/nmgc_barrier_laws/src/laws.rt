//! Theorems of the lax rule, a watched barrier, finished markers and roots that are read later (`specs/Hybrid`). Each
//! function does nothing: its contract is the law.
//!
//! By the strict rule of the marking machine, a command owes exactly `owed_by`. By the lax rule (`specs/Lax`) it owes all due
//! names (`specs/Due`) that aren't marked, owed or pushed yet, and perhaps others that may be held. A *lax step* is such a
//! command, another order of waiting names, a push, a mark of a name that may be held, or a scan. A *watched cycle* sees only
//! commands, pushes and reports of taken names (`Watches`). Its debts are due names not yet pushed. Worlds are closed
//! (`IsWorld`).
ghost use Rattle.nmgc_barrier_laws.specs.{Barrier.BarrierTheorem, Barrier.JointTheorem, Barrier.SomeMarkerFinishes, Barrier.SomeMarkerIsBeside, FieldCycle.CommandsAreChanges, FieldCycle.FieldSafetyTheorem, FieldCycle.FieldTheorem, Hybrid.HybridJointTheorem, Hybrid.HybridSafetyTheorem, Hybrid.OneSnapshotIsScannedAtOnce, Hybrid.ScansAtOnceAreRoots, Hybrid.SomeMarkerFinishesIn, Hybrid.SomeMarkerIsBesideIn, Lax.CoreIsLax, Lax.LaxKeepsFacts, Lax.LaxTheorem};

/// Proves that each event that the marking machine does, except the end, is a list of lax steps. Requires that the marking
/// machine's invariant (`Facts`) holds before the event, and that the world is closed (`IsWorld`).
pub fn a_machine_event_is_lax()
    ensures { CoreIsLax }
{}

/// Proves that a lax step keeps the marking machine's invariant (`Facts`) and a closed world (`IsWorld`), if the state before
/// has both. So a barrier may remember names in any order, and more names than are due.
pub fn a_lax_step_keeps_the_facts()
    ensures { LaxKeepsFacts }
{}

/// Proves the snapshot theorem for lax runs: lax steps from the opening of a world. Every marked name is live in the
/// snapshot. Each closing that is possible after the steps is exact (`IsExactClosing`). Names that commands opened, and names
/// that `IsFloated` steps pushed, count as roots here.
pub fn a_lax_marking_is_exact()
    ensures { LaxTheorem }
{}

/// Proves that a watched cycle is exact with any marker beside it (`Beside`). If the cycle has no debts, the marker's state
/// owes nothing. If the marker can end (`IsPossible`), its end marks exactly the names that the commands and pushes keep
/// (`MarksName`). The marker marks only names that may be held, and scans and takes in any order.
pub fn a_barrier_without_debts_is_exact()
    ensures { BarrierTheorem }
{}

/// Proves that a finished marker can end, and ends exactly, beside commands and pushes that leave no debts. A marker has
/// finished when it has taken all pushed names and emptied its queue. Its end marks exactly the names that the commands and
/// pushes keep (`MarksName`). Exactly the dead weak pointers die. Names that were opened or pushed count as roots.
pub fn a_finished_marker_is_exact()
    ensures { JointTheorem }
{}

/// Proves that there is a marker beside each watched cycle (`Beside`), whatever the cycle has seen.
pub fn a_marker_is_possible()
    ensures { SomeMarkerIsBeside }
{}

/// Proves that there is a finished marker beside each watched cycle. So `a_finished_marker_is_exact` isn't an empty claim.
pub fn a_finished_marker_is_possible()
    ensures { SomeMarkerFinishes }
{}

/// Proves that a finished marker is exact if each mutator's registers are read at its own scan. Beside commands, scans and
/// pushes that leave no debts, a finished marker can end. It marks exactly the names that the roots as they were read keep in
/// the snapshot, along with opened names, names stored by unscanned mutators, and pushes. Exactly the dead weak pointers die.
pub fn a_hybrid_marker_is_exact()
    ensures { HybridJointTheorem }
{}

/// Proves that a cycle with later roots loses nothing, if all mutators are scanned and nothing is due. Every name that can be
/// reached and was there at the mark is live by the roots as they were read, given the names opened and remembered.
pub fn a_hybrid_cycle_loses_nothing()
    ensures { HybridSafetyTheorem }
{}

/// Proves that there is a marker beside each cycle with later roots (`BesideIn`), whatever the cycle has seen.
pub fn a_hybrid_marker_is_possible()
    ensures { SomeMarkerIsBesideIn }
{}

/// Proves that a cycle keeps the same names whether its snapshot has the registers, or all mutators are scanned at the mark.
pub fn scans_at_once_are_roots()
    ensures { ScansAtOnceAreRoots }
{}

/// Proves that each cycle with one snapshot is a cycle whose mutators are all scanned at the mark (`all_scanned`). Each marker
/// beside the first is beside the second, too. So the theorems of cycles with later roots hold for both kinds.
pub fn a_cycle_with_one_snapshot_is_scanned_at_once()
    ensures { OneSnapshotIsScannedAtOnce }
{}

/// Proves that there is a finished marker beside each cycle with later roots. So `a_hybrid_marker_is_exact` isn't an empty
/// claim.
pub fn a_finished_hybrid_marker_is_possible()
    ensures { SomeMarkerFinishesIn }
{}

/// Proves that a marker is exact if registers aren't known. The heap is fields, and roots are known as they are read. At an
/// end without debts, with each stored name kept, a marker that is done has marked exactly the kept names (`KeepsName`). It
/// reads single places of marked objects in any order, in the heap as it is.
pub fn a_marker_beside_fields_is_exact()
    ensures { FieldTheorem }
{}

/// Proves that a cycle of fields loses nothing. If mutators hold only kept names and new names at the end, every name of the
/// snapshot that they can reach is kept.
pub fn a_cycle_of_fields_loses_nothing()
    ensures { FieldSafetyTheorem }
{}

/// Proves that a command makes the same names due whether or not registers are known, if it opens and finalises no weak
/// pointer. So the rule for fields is the rule of cycles with later roots (`IsDueIn`).
pub fn commands_are_changes_of_fields()
    ensures { CommandsAreChanges }
{}
