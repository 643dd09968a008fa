//! Laws that test the definitions of `nmgc_run_spec`, as contracts of functions. A body only calls the laws that it needs.
ghost use Rattle.nmgc_run_laws.specs.{Statements.ClassesAreCounted, Statements.RunGoesOn, Statements.AddsOneTurn, Statements.LastIsOfTurn, Statements.LeftIsDetermined, Statements.FreeIsReal, Statements.VersionIsNothing, Statements.UpgradeIsNothing, Statements.EachCycleHasItsRow, Statements.ClosingsAreSoon, Statements.LawfulAreOfRuns, Statements.FoundIsSteady, Longer.RunsAreOfLonger, Longer.RowsAreOfLonger, Statements.SerialsAreFew};
ghost use Rattle.nmgc_run_laws.specs.{Ends.EndsAreStops, Places.BlocksAtStop, Places.BlocksAfterRound, Places.BlocksArePlaces, Sound.StatesAreSound, Sound.RoundsAreSound, Sound.TrackedHaveBlocks, Course.RunsAreInCourse, Course.RoundsStayInCourse, Course.PromotionsStayInCourse, Course.CyclesBeginInCourse, Limits.ScriptsHaveGoodPlans, Limits.StatesAreWithin, Limits.RoundsAreWithin};

use nmgc_alloc::laws::counts_are_equal;
use nmgc_object::laws::words_differ;

/// Proves that a layout has `DENSE_CLASS` + 1 dense classes, and one further class for each doubling from `DENSE_WORDS` to a
/// segment's words.
pub fn classes_are_counted()
    ensures { ClassesAreCounted }
{}

/// Proves that a run with a further round and its stop is a run, if both may follow the run's last state (`IsTurn`). The
/// report gets the round's replies and the stop's rows at its end. The last state is then the state after the stop.
pub fn a_run_takes_a_further_round()
    ensures run { RunGoesOn }
    ensures agrees { AddsOneTurn }
    ensures last { LastIsOfTurn }
{}

/// Proves that a run's report determines the rest of each program: the commands that no round of the report answered.
pub fn left_is_determined()
    ensures { LeftIsDetermined }
{}

/// Proves that in a lawful report the last stop's row has the number of free segments of the report's heap.
pub fn free_segments_are_counted()
    ensures { FreeIsReal }
{
    counts_are_equal();
}

/// Proves that a script has the same lawful reports in any other version, and the same lawful reports as its upgrade.
pub fn a_version_changes_nothing()
    ensures version { VersionIsNothing }
    ensures upgrade { UpgradeIsNothing }
{}

/// Proves that in the report of a run that has ended, the number of rows of cycles is the number of cycles begun.
pub fn each_cycle_has_its_row()
    ensures { EachCycleHasItsRow }
{}

/// Proves that in a lawful report of a script within the limits each cycle was closed soon after its snapshot, even if a full
/// cycle closed it. A cycle that kept n objects was closed at most (n - 1) / quota + 1 rounds after its snapshot. The
/// quotient is rounded down, and it is 0 if n is 0.
pub fn closings_are_soon()
    ensures { ClosingsAreSoon }
{}

/// Proves that in a heap at a stop or after a round, the places in segments are exactly the blocks in use, and each object
/// fits its block. Conversely (`back`), let words and segments represent a world without places in nurseries, and the places
/// in segments be the blocks in use (`AreBlocks`). Then exactly g and the blocks have places, and objects fit their blocks.
pub fn places_are_blocks()
    ensures at_stop { BlocksAtStop }
    ensures after_round { BlocksAfterRound }
    ensures back { BlocksArePlaces }
{
    words_differ();
}

/// Proves that the states of a run of a runnable plan are sound (`IsSoundState`), and rounds from sound states are sound
/// (`IsSoundRound`). At each stop of such a run every tracked name except g has a block.
pub fn tracked_names_have_blocks()
    ensures states { StatesAreSound }
    ensures rounds { RoundsAreSound }
    ensures blocks { TrackedHaveBlocks }
{}

/// Proves that the state's cycle is in course (`IsInCourse`) at each stop of a run, and that rounds and promotions keep it in
/// course. A beginning cycle is in course if no segment waited to be swept before. A cycle in course is the last one begun.
/// Each waiting segment was filled as the cycle began, and has the names that it had then. While the cycle marks, all
/// segments filled as it began wait. Without a cycle, no segment waits.
pub fn cycles_are_in_course()
    ensures runs { RunsAreInCourse }
    ensures rounds { RoundsStayInCourse }
    ensures promotions { PromotionsStayInCourse }
    ensures begins { CyclesBeginInCourse }
{}

/// Proves that the plan of a script within the limits has a layout and commands within the limits. The plan is runnable if
/// its programs are short enough for serials. If a runnable plan has commands within the limits, each state of its runs is
/// within the limits. A round from a sound state within the limits has commands and a new state within the limits.
pub fn runs_stay_within_limits()
    ensures scripts { ScriptsHaveGoodPlans }
    ensures states { StatesAreWithin }
    ensures rounds { RoundsAreWithin }
{}

/// Proves that at the end of a run of a script that fits a run (`FitsRun`), the heap at the end (`HoldsAtEnd`) is the heap at
/// the last stop (`HasHeapOfStop`).
pub fn ends_are_stops()
    ensures { EndsAreStops }
{}

/// Proves that each lawful report of a script is a report of the script's run (`IsRunOf`), if the script is within the limits
/// and has few enough commands in all (`FitsRun`). The report ends as heap full exactly if the run's last stop leaves the
/// heap full (`LeavesHeapFull`). In that case the last cycle kept more objects than there are segments above the reserve, and
/// the last stop is crowded (`IsCrowded`).
pub fn lawful_reports_are_of_runs()
    ensures { LawfulAreOfRuns }
{}

/// Proves that a cycle's found objects are exactly its steady objects at a stop, if the commands of the round before the stop
/// owed nothing. So the two bounds of the closing count the same objects there.
pub fn found_objects_are_steady()
    ensures { FoundIsSteady }
{}

/// Proves that a run is also a run of longer programs, with the same rows. The longer programs have more commands at their
/// ends, and only programs with commands left after the run's last stop may be longer. So a program may decide as it goes.
pub fn runs_are_of_longer_programs()
    ensures runs { RunsAreOfLonger }
    ensures rows { RowsAreOfLonger }
{}

/// Proves that a mutator makes at most one object with each command. At a stop, the sum of its serial and the number of its
/// commands left is at most the length of its program.
pub fn serials_are_few()
    ensures { SerialsAreFew }
{}
