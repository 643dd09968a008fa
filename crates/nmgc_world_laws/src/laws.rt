//! The effect of commands and closings on worlds.
//!
//! Each function here does nothing; its contract is the law. A world satisfies `IsWorld`, and can take the commands that
//! follow (`CanApply`). A closing kills the weak pointers of a list (`closed`). A world *holds* its *wide reach*, which has
//! all names that a mutator could get later (`IsWide`). A name is *old* if it had a node before the commands, or else *new*.
ghost use Rattle.std.specs.Prelude.{Bool};
ghost use Rattle.nmgc_world_spec.specs.declared.value.Name.{Name};
ghost use Rattle.nmgc_world_laws.specs.Reachable.{StepHoldsOnly, ClosingHoldsOnly, Passes, StepKeepsWorld, RowsKeepWorld, ClosingKeepsWorld, NewIsWorld, StepAddsOne, ClosingAddsNone, StaysUnreached, RowsHoldLive, NeverComesBack, ClosesWell, NothingReachableIsFreed, NothingReachableIsEverFreed, ReachableIsKept, ReachableIsEverKept};
ghost use Rattle.nmgc_world_laws.specs.{Leaves.StepLeavesOthers, Leaves.ClosingLeavesHands, Shape.StepKeepsShapes, Shape.RowsKeepShapes, Shape.ClosingKeepsShapes, Stored.StepStores, Stored.OldRefersToYoung, Stored.OldWeaksStay, Stored.OldWeaksAreFinalised, Limits.NewIsWithin, Limits.StepKeepsLimits, Limits.RowsKeepLimits, Limits.ClosingKeepsLimits};

/// Proves that a world (`IsWorld`) stays a world after commands that it can take, and after any closing. A new world with 1
/// to 32 mutators is a world. In a world each reference names a node, and registers, serials, the slots of g and stacks are
/// within bounds.
pub fn worlds_stay_worlds()
    ensures new { NewIsWorld }
    ensures step { StepKeepsWorld }
    ensures rows { RowsKeepWorld }
    ensures closing { ClosingKeepsWorld }
{}

/// Proves that a mutator's command changes no register, finaliser queue or number of objects of any other mutator. A closing
/// changes no register and no number of objects. It changes queues only by values added at their ends.
pub fn other_mutators_keep_their_registers()
    ensures step { StepLeavesOthers }
    ensures closing { ClosingLeavesHands }
{}

/// Proves that a set that covers a world still covers it after a command and after a closing. A set covers a world if it has
/// all names that the world holds, and follows strong fields (`HoldsOnly`). For a command the set must have the mutator's
/// next name (`next_name`), even if no object is made. So only this name can become held. The sets are those that a test
/// decides. For other sets see the lemmas `step_holds_only` and `closed_holds`: a clause can't quantify over all sets.
pub fn only_a_new_name_becomes_held()
    ensures step { (test : Name → Bool) → StepHoldsOnly (Passes test) }
    ensures closing { (test : Name → Bool) → ClosingHoldsOnly (Passes test) }
{}

/// Proves that a name that has a node, but isn't in the wide reach, never gets into it by later commands and closings. One
/// command adds at most the mutator's next name (`next_name`) to the wide reach. A closing adds no name.
pub fn names_out_of_reach_stay_out()
    ensures step { StepAddsOne }
    ensures closing { ClosingAddsNone }
    ensures rows { StaysUnreached }
    ensures run { NeverComesBack }
{}

/// Proves that after commands from a snapshot, mutators hold only new names and names that are live in the snapshot. Here a
/// mutator holds the names in its registers and its queue, and all that strong fields reach from there (`CoversReach`).
/// Opened names (`opened`) count as roots of the snapshot. A name of the snapshot that isn't live keeps its node.
pub fn only_live_or_new_names_are_held()
    ensures { RowsHoldLive }
{}

/// Proves that nothing reachable is freed. Suppose that commands follow a snapshot, that a closing then kills exactly the
/// dead weak pointers (`IsDeadAfter`), and that a list has exactly the kept names (`IsKeptAfter`). Then the list has each
/// name of the snapshot that is in the wide reach after later commands (`kept`), or after later commands and closings
/// (`ever_kept`). The clauses `closing`, `since` and `run` need no list. They say that the wide reach has no lost name. A
/// lost name is a name of the snapshot that can't be kept.
pub fn nothing_reachable_is_freed()
    ensures closing { ClosesWell }
    ensures since { NothingReachableIsFreed }
    ensures run { NothingReachableIsEverFreed }
    ensures kept { ReachableIsKept }
    ensures ever_kept { ReachableIsEverKept }
{}

/// Proves that each reference from an old object's strong field to a new object was stored there by a command (`rows`). The
/// old object was in the wide reach when the commands began. A value in a strong field after one command was there before, or
/// the command made the object, or the command stored the value there (`step`). An old weak pointer that is alive was alive
/// at the beginning, with the same parts (`weaks`). Each old weak pointer that was alive and isn't any more was finalised by
/// a command (`finalised`).
pub fn new_values_are_stored()
    ensures step { StepStores }
    ensures rows { OldRefersToYoung }
    ensures weaks { OldWeaksStay }
    ensures finalised { OldWeaksAreFinalised }
{}

/// Proves that no command and no closing changes an object's shape. The shape is the kind, the tag and the number of fields.
pub fn shapes_stay()
    ensures step { StepKeepsShapes }
    ensures rows { RowsKeepShapes }
    ensures closing { ClosingKeepsShapes }
{}

/// Proves that a new world is within the limits of a script (`IsWithin`). Commands that fit (`Fits`) and closings keep a
/// world within the limits. Numbers are below 2^62, headers can be written, and each object except g fits a segment.
pub fn worlds_stay_within_limits()
    ensures new { NewIsWithin }
    ensures step { StepKeepsLimits }
    ensures rows { RowsKeepLimits }
    ensures closing { ClosingKeepsLimits }
{}
