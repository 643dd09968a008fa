//! The marker against the marking machine: each function does nothing, and its contract is the law. A marker is tied to the
//! machine, or to a view of a round, if its marks and queue are the machine's, or the view's.
ghost use Rattle.std.specs.Prelude.{◌≡◌, ℕ, [], List, Contains, IsSome, true};
ghost use Rattle.nmgc_world_spec.specs.{declared.value.Name.Name, World.shared_name, World.node_of, Reach.IsReached, Reach.IsRoot};
ghost use Rattle.nmgc_object.specs.FinQueue.{FinQueue};
ghost use Rattle.nmgc_snapshot_laws.specs.{Facts.Facts, State.State as Core, State.names_of};
ghost use Rattle.nmgc_alloc.specs.{AllocState.Segments, Segments.IsSegments};
ghost use Rattle.nmgc_heap_spec.specs.Objects.{Place};
ghost use Rattle.nmgc_round.specs.{View.Opening, View.Seen, View.whole, Seating.collecting, Marking.Marks, Marking.marks_of, Rule.now, Finishing.IsFinished};
ghost use Rattle.nmgc_mark.specs.{Marker.HasRoomToMark, Marker.blank, Seen.MarkerSeen, Beginning.IsBeginning, Beginning.IsPrepared, Beginning.most_blocks, Tie.IsRightSnapshot, Tie.IsTied, Work.marks_seen};

/// Proves that marking may begin at a stop (`IsBeginning`), if the heap was just prepared for a cycle (`IsPrepared`).
pub fn marking_begins_on_prepared_heaps()
    ensures { (o : Opening) (s : Segments) (epoch : ℕ) (words registers : List ℕ) (queues : List FinQueue) →
        IsPrepared o s epoch words registers queues → IsBeginning o s epoch words registers queues }
{}

/// Proves that in sound segments a blank marker with room for `most_blocks` blocks has room for each unmarked block of the
/// snapshot (`HasRoomToMark`).
pub fn blank_markers_have_room()
    ensures { (s : Segments) (epoch : ℕ) → IsSegments s → HasRoomToMark s (blank epoch (most_blocks s.layout)) }
{}

/// Proves that a marker tied to the marking machine is tied to the collector's view when a round begins.
pub fn a_round_begins_tied()
    ensures { (o : Opening) (s : Segments) (marker : MarkerSeen) → IsTied o (marks_of o.core) s marker → IsTied o (marks_seen (collecting (whole o))) s marker }
{}

/// Proves that a marker is tied to the marking machine after a finished round (`IsFinished`), if it is tied to the round's
/// view. This view joins the views of all seats, among them the collector's.
pub fn a_round_ends_tied()
    ensures { (o : Opening) (words : List ℕ) (v : Seen) (s : Segments) (marker : MarkerSeen) (h : IsFinished o words v) → v.collects ≡ true →
        v.opening ≡ o → IsTied v.opening (marks_seen v) s marker → IsTied o (marks_of (now o h.events)) s marker }
{}

/// Proves that a tied marker stays tied when objects are added, if the snapshot's blocks still fit the objects
/// (`IsRightSnapshot`). The marker may be tied to the marking machine or to a view.
pub fn a_tie_survives_further_objects()
    ensures { (o : Opening) (places : List Place) (m : Marks) (s : Segments) (marker : MarkerSeen) →
        ((p : Place) → Contains o.places p → Contains places p) → IsRightSnapshot (record o { places = places }) s → IsTied o m s marker →
        IsTied (record o { places = places }) m s marker }
{}

/// Proves that, if the marking machine's invariant holds (`Facts`), g is marked and each marked name is in the snapshot.
pub fn marks_are_of_the_snapshot()
    ensures { (core : Core) → Facts core → ((name : Name) → Contains core.marked name → IsSome (node_of core.snapshot name)) ×
        Contains core.marked shared_name }
{}

/// Proves that all names reachable from the snapshot's roots along strong fields are marked, if the marking machine's
/// invariant holds (`Facts`) and no name is queued, owed or pushed.
pub fn all_reached_is_marked()
    ensures { (core : Core) → Facts core → core.queue ≡ [] → ((m : ℕ) → names_of core.owed m ≡ []) → ((m : ℕ) → names_of core.pushed m ≡ []) →
        (name : Name) → IsReached core.snapshot (IsRoot core.snapshot) name → Contains core.marked name }
{}
