//! The theorems of the watch. Each function does nothing: its contract is the law.
ghost use Rattle.nmgc_field_checker.specs.Watching.{ReasonsRefuse, EventsKeepTheRule, ClosedIsExact};

/// Proves that an event can't happen, if there is a reason against it. So `FieldWatch::step` refuses no event that can happen.
pub fn a_reason_refuses()
    ensures { ReasonsRefuse }
{}

/// Proves that events keep the rule for fields: a cycle that goes on began at a mark, and lines of the rule led to it.
pub fn events_keep_the_rule()
    ensures { EventsKeepTheRule }
{}

/// Proves that the result of a close is exact. A marker marks just the objects that the result keeps, if it is possible beside
/// the cycle (`BesideFields`) and is done. The law is about each such marker, since a trace doesn't show the marker.
pub fn a_closed_cycle_marked_what_it_had_to()
    ensures { ClosedIsExact }
{}
