//! The result for a trace of format 3.
ghost use Rattle.std.specs.Prelude.{◌≡◌};
ghost use Rattle.nmgc_field_reader.specs.FieldTraces.{report_of};

use crate::counts::FieldCounts;
use nmgc_field_checker::FieldWhy;
use nmgc_field_checker::watch::FieldPhase;

/// Why a line can't happen.
#[derive(Clone, Copy, Debug, PartialEq, Eq)]
pub enum FieldRefusal {
    /// The text is no line of a trace.
    Unknown,
    /// The event can't have happened, for this reason.
    Event(FieldWhy),
}

/// The result for a trace. Lines are counted from 1.
#[derive(Clone, Copy, Debug, PartialEq, Eq)]
pub enum FieldReport {
    /// The line with this number can't happen, and all lines before it can.
    Refused(usize, FieldRefusal),
    /// Each line can happen, and no cycle has begun.
    Unmarked,
    /// Each line can happen, and a cycle goes on.
    Open,
    /// Each line can happen, and the last cycle has ended; but the trace may not be whole.
    Cut,
    /// Each line can happen, at least one cycle has ended, none goes on, and the trace is whole.
    Whole,
}

impl FieldReport {
    ghost use Rattle.nmgc_field_reader.specs.FieldTraces.{is_whole};

    /// Whether each line can happen, and the trace is whole. Takes no memory and constant time.
    pub fn is_whole(&self) -> bool
        ensures { result ≡ is_whole self.now }
    {
        match self {
            FieldReport::Whole => true,
            FieldReport::Refused(_, _)
            | FieldReport::Unmarked
            | FieldReport::Open
            | FieldReport::Cut => false,
        }
    }
}

/// Returns the report on a trace whose lines can all happen, by its last phase.
pub(crate) fn report_of(phase: &FieldPhase) -> FieldReport
    ensures { result ≡ report_of phase.now }
{
    match phase {
        FieldPhase::Between(_) => FieldReport::Unmarked,
        FieldPhase::Marking(_) => FieldReport::Open,
        FieldPhase::Ended(_) => FieldReport::Cut,
        FieldPhase::Stopped => FieldReport::Whole,
    }
}

/// The answer to a trace: the report, and the counts up to there. A refusal may have the name that it is about, and the text of
/// the line that it cites.
#[derive(Drop)]
pub struct FieldAnswer {
    pub report: FieldReport,
    pub counts: FieldCounts,
    /// How often something came due: the number of fields and references, in all. At most 2^64 - 1.
    pub dues: u64,
    /// No bytes if the refusal is about no name.
    pub name: Vec<u8>,
    pub since: Option<String>,
}
