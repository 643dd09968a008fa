//! The laws of rounds and stops beside a marking cycle. Each contract is the law. A body calls the laws that it needs.
ghost use Rattle.nmgc_collector_laws.specs.{RestMarking.RestOpens, Owed.SlicesAreGathered, Owed.SlicesAreOwed, Owed.MachineGoesOn, Tie.CoreHasSnapshot, Tie.RoundBeginsTied, Prepares.StopIsPrepared, Prepares.StopBegins, Calls.SnapshotIsMarking, Calls.RoundIsMarking, Calls.AddIsMarking, Resolves.FinishMayResolve, Resolves.ResolveCloses, Resolves.ClosedHolds, Resolves.ClosedCycleSweeps, Joins.JoiningLists, Joins.JoinersAreNew, Joins.FewerListed, Closes.ClosingIsSoon, Closes.ClosingComes, Closes.ClosingIsPaced, Closes.WaitingIsPaced, Sweeps.MarkedWait, Sweeps.PlacedWait, Sweeps.SweepingStays, Sweeps.SettledStays, Drops.RoundFreesUntracked, Drops.StopFreesUntracked, Drops.FreeGrows, Drops.SweptHoldsAfterRound, Drops.SweptHoldsAtStop, Drops.DropKeepsRound, Heaps.HeapRests, Heaps.RoundHolds, Heaps.MarkedHolds, Keeps.PromotionKeepsMarking, Keeps.PaceAfterRound, Keeps.PaceAtStop, Keeps.PaceBegins};

use crate::ties::{a_cycle_closes as weaks_close, ties_agree};
use nmgc_mark::laws::{a_round_begins_tied, a_round_ends_tied, marks_are_of_the_snapshot};
use nmgc_object::laws::words_differ;
use nmgc_weak::laws::queues_close;

/// Proves that a round can open from a heap at rest beside a marking cycle. At rest means here that words, blocks and
/// mutators represent a world, and that in the cycle's marking machine nothing is owed and every pushed name was taken. The
/// round opens with this machine, and in the round the collector may use the snapshot.
pub fn a_round_opens_while_a_cycle_marks()
    ensures { RestOpens }
{}

/// Proves that after its slice each mutator remembers, in order, the addresses in segments of the objects that its part owes.
/// Requires that the round could open, and that no mutator remembered anything before. The mutators' seats together have all
/// parts of the round, whatever the collector scanned.
pub fn owed_objects_are_remembered()
    ensures gathered { SlicesAreGathered }
    ensures owed { SlicesAreOwed }
{}

/// Proves that while a cycle marks, the marking machine can go through a finished round's events and then push all owed
/// objects. The machine has to be at rest before the round. Each mutator has to remember, in order, the addresses in segments
/// of the objects that it owes. The machine's pushes for a mutator are exactly its remembered entries of the snapshot.
pub fn the_machine_follows_a_round()
    ensures { MachineGoesOn }
{}

/// Proves that a marker tied to the marking machine stays tied as a round begins at a stop. A tied marker has the machine's
/// marks and queue. At the stop the tie is by blocks. In the round it is by places, to the view of the collector's seat. The
/// machine's snapshot is the cycle's snapshot.
pub fn a_round_begins_with_a_tied_marker()
    ensures snapshot { CoreHasSnapshot }
    ensures begins { RoundBeginsTied }
{
    marks_are_of_the_snapshot();
    ties_agree();
    a_round_begins_tied();
}

/// Proves that marking may begin at a stop once the segments are prepared, if no segment waits to be swept and no mark byte
/// is the next epoch (`AreSettled`). Words and prepared segments represent the state with which the cycle begins.
pub fn a_stop_is_prepared()
    ensures prepared { StopIsPrepared }
    ensures begins { StopBegins }
{}

/// Proves that the marker's calls establish and keep the invariant of a marking cycle (`IsMarking`). It holds once the marker
/// took the snapshot at a stop, after the marker's work in a round, and after all remembered entries were added at a stop.
/// After the work all marked objects are found (`HasFound`). Requires that each call kept its contract, and that the
/// finaliser queues have room for all weak pointers that may die.
pub fn a_cycle_marks_after_each_call()
    ensures snapshot { SnapshotIsMarking }
    ensures round { RoundIsMarking }
    ensures add { AddIsMarking }
{
    marks_are_of_the_snapshot();
    ties_agree();
    a_round_ends_tied();
}

/// Proves that a cycle closes call by call at a stop at rest (`IsStopOf`). Once the marker has finished, the weak pointers
/// may be resolved. Once they are resolved, the cycle is closed, and the deaths are exactly its dead weak pointers. Once the
/// finalisers have joined their makers' queues, words, roots and list represent the closed world. If all segments of the
/// cycle still wait and nothing was listed or freed, the cycle sweeps (`IsSweeping`).
pub fn a_resolved_cycle_is_closed()
    ensures may { FinishMayResolve }
    ensures closes { ResolveCloses }
    ensures holds { ClosedHolds }
    ensures sweeps { ClosedCycleSweeps }
{
    marks_are_of_the_snapshot();
    weaks_close();
    queues_close();
}

/// Proves that the list of weak pointers is right after a promotion (`ListsWeaks`), if the moved weak pointers that are alive
/// joined the list from before the promotion. No moved object was in that list. If no name of a snapshot was added to a list
/// in order, the list has no more names of the snapshot, for any maker, than before.
pub fn moved_join_the_list()
    ensures joining { JoiningLists }
    ensures new { JoinersAreNew }
    ensures fewer { FewerListed }
{
    words_differ();
}

/// Proves that the same segments wait to be swept as before, if only marks changed or objects were promoted. A cycle that
/// sweeps before a promotion sweeps after it (`IsSweeping`). Settled marks (`AreSettled`) stay settled over a promotion.
pub fn waiting_segments_stay()
    ensures marked { MarkedWait }
    ensures placed { PlacedWait }
    ensures stays { SweepingStays }
    ensures settled { SettledStays }
{}

/// Proves that a closed cycle's sweep, beside a run's round or at a stop, frees no tracked name and leaves no fewer segments
/// free. If the sweep freed no listed weak pointer, the places of freed names can be dropped: words and swept segments
/// represent the state at the other places. The nurseries, and the round's lists for its promotion, stay right.
pub fn freed_places_can_be_dropped()
    ensures round { RoundFreesUntracked }
    ensures stop { StopFreesUntracked }
    ensures free { FreeGrows }
    ensures after_round { SweptHoldsAfterRound }
    ensures at_stop { SweptHoldsAtStop }
    ensures remembered { DropKeepsRound }
{}

/// Proves that a cycle at its pace (`IsPacedAfterRound`) closes neither too late (`IsSoon`) nor too early (`IsPaced`), and
/// goes on only if it may (`MayWait`). Let the cycle keep n objects, and let at most n be marked. Then at most one round has
/// passed since the snapshot, or the rounds before the last can't scan n objects. So at most (n - 1) / quota + 1 rounds have
/// passed, with the quotient rounded down and a quota of at least 1. Let a round have passed in a sound cycle with a tied
/// marker. If the marker has nothing left to scan, the rounds can scan all steady objects, and all that the snapshot's roots
/// reach if no object was owed. Otherwise more objects are found than the rounds can scan.
pub fn a_closing_is_in_bounds()
    ensures soon { ClosingIsSoon }
    ensures comes { ClosingComes }
    ensures paced { ClosingIsPaced }
    ensures waits { WaitingIsPaced }
{}

/// Proves that a promotion (`HasPromoted`) keeps the invariant of a marking cycle (`IsMarking`), if marker, sweeper and
/// remembered entries don't change. The finaliser queues have to have room for all weak pointers that may die.
pub fn a_promotion_keeps_marking()
    ensures { PromotionKeepsMarking }
{}

/// Proves that a marking cycle keeps its pace, by which each round scans its quota or leaves nothing to scan. A cycle has its
/// pace as it begins, if all marked objects are queued. A round that scans its quota, or leaves nothing to scan, keeps the
/// pace. A stop that scans nothing keeps the pace, if the round before it left something to scan.
pub fn the_pace_is_kept()
    ensures begins { PaceBegins }
    ensures round { PaceAfterRound }
    ensures stop { PaceAtStop }
{}

/// Proves that words and segments represent the state after a round, if they represented the state of the stop at which the
/// round began (`IsRoundFrom`). At a stop they still represent the state after blocks are marked, if the segments show the
/// same blocks as before. Marking changes neither the state nor the places of its objects. Let a sound state be at a stop of
/// a marking cycle, and let the mutators have nothing left of their round. Then the heap is at rest, and the marker may
/// finish.
pub fn the_heap_stays_represented()
    ensures rests { HeapRests }
    ensures round { RoundHolds }
    ensures marked { MarkedHolds }
{
    marks_are_of_the_snapshot();
    ties_agree();
}
