//! Laws on the steps of a stop that advance a cycle: each leads to the state of the run after that step.
//!
//! A function here does nothing; its contract is the law, and its body calls the laws that the proof uses. `stop` calls them,
//! so each of its steps is proved to be the run's. The laws are about a collector that represents a state of the run of a
//! script within limits: after the promotion, after the adding (`StandsWithin`), or later (`StandsAt`).
ghost use Rattle.nmgc_cycle.specs.{Steps.AddingLeads, Steps.ClosingLeads, Steps.EndLeads, Steps.StartingLeads, Steps.BeginningLeads, Steps.CloseReady, Steps.BeginReady, FullLaws.CloseNowReady, FullLaws.FinishingNowLeads, FullLaws.SweepRestReady, FullLaws.SweepingRestLeads, FullLaws.FinishLeads, FullLaws.FilingLeads, FullLaws.ProceedingLeads, StopLaws.HasStopLaws};

use nmgc_collector_laws::marking::{
    a_closing_is_in_bounds, a_cycle_marks_after_each_call, a_promotion_keeps_marking,
    a_resolved_cycle_is_closed, a_round_begins_with_a_tied_marker, a_stop_is_prepared,
    freed_places_can_be_dropped, moved_join_the_list, the_heap_stays_represented, the_pace_is_kept,
    waiting_segments_stay,
};
use nmgc_mark::laws::marking_begins_on_prepared_heaps;
use nmgc_run_laws::laws::{cycles_are_in_course, places_are_blocks};
use nmgc_sweep::laws::{
    closing_begins_work, end_shows_census, start_notes_segments, unswept_segments_wait,
    work_goes_on,
};
use nmgc_weak::laws::queues_close;

// Proves that the adding leaves the state as it is, if the collector represents a state after the promotion. The adding gives
// the remembered entries to the marker, if a cycle marks, and forgets them.
pub(crate) fn an_adding_leads()
    ensures { AddingLeads }
{
    a_cycle_marks_after_each_call();
    a_closing_is_in_bounds();
    the_pace_is_kept();
    waiting_segments_stay();
    unswept_segments_wait();
}

// Proves that a closing may be done after the adding, and leads to a state by the run's closing rule, within its bounds. A
// marking cycle is closed if its marker's last work left nothing to scan. Otherwise nothing changes.
pub(crate) fn a_closing_leads()
    ensures leads { ClosingLeads }
    ensures ready { CloseReady }
{
    the_heap_stays_represented();
    a_round_begins_with_a_tied_marker();
    a_resolved_cycle_is_closed();
    queues_close();
    waiting_segments_stay();
    unswept_segments_wait();
    closing_begins_work();
}

// Proves that the end of a cycle leads to a state by the run's rule, and adds the run's row to the report. A cycle ends if it
// sweeps and no segment waits. Otherwise nothing changes.
pub(crate) fn an_end_leads()
    ensures { EndLeads }
{
    end_shows_census();
}

// Proves that a cycle may begin if none is in progress, and that a cycle that is started then is the run's next cycle. So a
// stop that begins a cycle exactly if one is due leads to a state by the run's rule.
pub(crate) fn a_beginning_leads()
    ensures leads { BeginningLeads }
    ensures starting { StartingLeads }
    ensures ready { BeginReady }
{
    a_stop_is_prepared();
    marking_begins_on_prepared_heaps();
    the_heap_stays_represented();
    a_cycle_marks_after_each_call();
    start_notes_segments();
    unswept_segments_wait();
    waiting_segments_stay();
    the_pace_is_kept();
    cycles_are_in_course();
}

// Proves that a marking cycle may be closed, whatever is left to scan, and that waiting segments may be swept. If the cycle
// in progress is closed, swept and ended at one stop, each part leads to a state by the run's rules, within their bound. The
// report gets the run's rows, and then no cycle is in progress.
pub(crate) fn a_finish_leads()
    ensures close_ready { CloseNowReady }
    ensures closing { FinishingNowLeads }
    ensures sweep_ready { SweepRestReady }
    ensures sweeping { SweepingRestLeads }
    ensures leads { FinishLeads }
{
    the_heap_stays_represented();
    a_round_begins_with_a_tied_marker();
    a_resolved_cycle_is_closed();
    queues_close();
    waiting_segments_stay();
    unswept_segments_wait();
    closing_begins_work();
    freed_places_can_be_dropped();
    an_end_leads();
}

// Proves that a stop goes on as the run does (`leads`): it does a full cycle if one is due. Otherwise it begins a cycle if
// one is due. Each part of a full cycle leads to a state of the run too. The parts are the end of the cycle in progress
// (`finish`), the filing of all segments as filled (`filing`), and the start of a cycle (`starting`). If no cycle is in
// progress, one may begin (`begin_ready`).
pub(crate) fn a_due_cycle_leads()
    ensures finish { FinishLeads }
    ensures filing { FilingLeads }
    ensures starting { StartingLeads }
    ensures begin_ready { BeginReady }
    ensures leads { ProceedingLeads }
{
    a_finish_leads();
    a_beginning_leads();
}

// Proves all laws that a stop needs: its promotion's effect, that a cycle may be closed or begun, and where later steps lead.
pub(crate) fn a_stop_leads()
    ensures { HasStopLaws }
{
    places_are_blocks();
    a_promotion_keeps_marking();
    moved_join_the_list();
    waiting_segments_stay();
    unswept_segments_wait();
    work_goes_on();
    an_adding_leads();
    a_closing_leads();
    an_end_leads();
    a_due_cycle_leads();
}
