//! The text of a report, made as its run goes on.
//!
//! `ReportText` makes the text of each event. Its owner takes the text and empties it, so nothing is kept but the text since
//! then. `ReportWriter` writes it to a sink at once. The end of the run is no event: its line is the caller's.
//!
//! Easy to get wrong: the number of a round isn't in its event. It is the number of the last stop and one more.
ghost use Rattle.std.specs.{Prelude.◌≡◌, Prelude.◌++◌, Prelude.[], Prelude.OnOk, Io.KnownBytes.Appends};
ghost use Rattle.nmgc_io.specs.Text.{AppendsFront};
ghost use Rattle.nmgc_journal.specs.Text.{end_text};
ghost use Rattle.nmgc_cycle.specs.EventTexts.{event_text, next_round};
ghost use Rattle.nmgc_live.specs.Written.{WritesEvent};

use nmgc_cycle::{Event, Observer, RunFault};
use nmgc_io::{Sink, write_all};
use nmgc_journal::text::{push_end, push_round};
use nmgc_journal::{End, push_stop};
use nmgc_lists::NoMemory;
use std::alloc::Global;

/// The text of a run's events, as they come.
#[derive(Drop)]
pub struct ReportText {
    // The number of the next round.
    round: u64,
    text: Vec<u8>,
}

impl ReportText {
    /// Returns an empty text, before the first stop. Takes no memory.
    pub fn new(alloc: Global) -> Self
        ensures { (result.round ≡ 0) × (result.text.items ≡ []) }
    {
        ReportText {
            round: 0,
            text: Vec::new(alloc),
        }
    }

    /// Returns the text since it was emptied.
    pub fn bytes(&self) -> &[u8]
        ensures { result.now ≡ self.now.text.items }
    {
        self.text.as_slice()
    }

    /// Empties the text. The memory stays for the next text.
    pub fn clear(&mut self)
        ensures { (self.new.text.items ≡ []) × (self.new.round ≡ self.old.round) }
    {
        self.text.clear();
    }

    /// Appends a line that is no event.
    pub fn push_line(&mut self, line: &[u8]) -> Result<(), NoMemory>
        ensures text { OnOk result (self.new.text.items ≡ self.old.text.items ++ line.now) }
        ensures round { self.new.round ≡ self.old.round }
    {
        self.text.extend_from_slice(line)?;
        Ok(())
    }

    /// Appends the last line of a report.
    pub fn push_end(&mut self, end: End) -> Result<(), NoMemory>
        ensures text { OnOk result (self.new.text.items ≡ self.old.text.items ++ end_text end) }
        ensures round { self.new.round ≡ self.old.round }
    {
        push_end(&mut self.text, end)
    }
}

impl Observer for ReportText {
    ghost steps = { λ before event after. WritesEvent before event after };

    ghost fails = { λ before event after. Unit {0} };

    fn observe(&mut self, event: Event) -> Result<(), RunFault> {
        match event {
            Event::Stop { row, cycles } => {
                let cycles = cycles.into_rows();
                push_stop(&mut self.text, &row, cycles.items())?;
                self.round = u64::from(row.number) + 1;
            }
            Event::Round(rows) => push_round(&mut self.text, self.round, &rows)?,
        }
        Ok(())
    }
}

/// An observer that writes the report's text to a sink, event by event.
#[derive(Drop)]
pub struct ReportWriter<K> {
    pub sink: K,
    report: ReportText,
}

impl<K: Sink> ReportWriter<K> {
    /// Returns a writer to this sink, before the first stop. The sink has to have the first line of a report. Takes no memory.
    pub fn new(alloc: Global, sink: K) -> Self
        ensures { (result.sink ≡ sink) × (result.report.round ≡ 0) }
    {
        ReportWriter {
            sink,
            report: ReportText::new(alloc),
        }
    }
}

impl<K: Sink> Observer for ReportWriter<K> {
    ghost steps = { λ before event after. Appends (K.taken before.sink) (K.taken after.sink) (event_text before.report.round event) ×
        (after.report.round ≡ next_round before.report.round event) };

    ghost fails = { λ before event after. AppendsFront (K.taken before.sink) (K.taken after.sink) (event_text before.report.round event) };

    fn observe(&mut self, event: Event) -> Result<(), RunFault> {
        self.report.clear();
        self.report.observe(event)?;
        match write_all(&mut self.sink, self.report.bytes()) {
            Ok(()) => Ok(()),
            Err(_) => Err(RunFault::Observer),
        }
    }
}
