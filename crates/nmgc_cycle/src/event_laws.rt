//! The law that ties the events of a run to the text of its report. The function does nothing; its contract is the law.
ghost use Rattle.nmgc_cycle.specs.EventTexts.{ReportIsEvents};

/// Proves that the text of all events of a run, between a report's first line and its last one, is the text of the run's report.
/// So an observer that writes the text of each event as it comes has written the report when the run ends.
pub fn events_are_the_report()
    ensures { ReportIsEvents }
{}
