//! Counts of a trace's lines.
ghost use Rattle.std.specs.Prelude.{◌≡◌};
ghost use Rattle.nmgc_field_reader.specs.FieldTraces.{with_event};

use nmgc_field_checker::FieldEvent;

/// The numbers of lines of each kind that could happen. Each count stops at 2^64 - 1.
#[derive(Clone, Copy, Debug, PartialEq, Eq)]
pub struct FieldCounts {
    /// Cycles that have ended.
    pub cycles: u64,
    /// New objects, stores, and objects that were handed over or owed, in cycles and outside.
    pub commands: u64,
    /// Pushes, due or not.
    pub pushes: u64,
}

impl FieldCounts {
    /// Counts an event that happened, if it is a command, a push or the end of a cycle.
    pub(crate) fn add(&mut self, event: &FieldEvent)
        ensures { self.new ≡ with_event self.old event.now }
    {
        match event {
            FieldEvent::Made { .. }
            | FieldEvent::Written { .. }
            | FieldEvent::Handed { .. }
            | FieldEvent::Owed { .. } => self.commands = self.commands.saturating_add(1),
            FieldEvent::Push { .. } => self.pushes = self.pushes.saturating_add(1),
            FieldEvent::Close => self.cycles = self.cycles.saturating_add(1),
            FieldEvent::Began { .. }
            | FieldEvent::Ended { .. }
            | FieldEvent::Mark { .. }
            | FieldEvent::Scan { .. }
            | FieldEvent::Settle { .. }
            | FieldEvent::Marked { .. }
            | FieldEvent::Black { .. }
            | FieldEvent::Freed { .. }
            | FieldEvent::Stop => {}
        }
    }
}
