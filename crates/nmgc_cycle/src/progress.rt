//! The collector's work beside the mutators: none, or marking, or sweeping.
//!
//! In a round the collector works on a thread of its own, if it has work and some program has commands left. It writes marks
//! and segments that wait to be swept; the mutators look at neither. It passes the gate before each object that it scans and
//! before each segment that it sweeps. It counts these passes through the whole run: marker and sweeper hand the count on.
//! Segments are swept in two halves. The upper half has a further thread, with its own number and count at the gate.
//!
//! The sweeper starts as its cycle begins, since the segments that wait then are to be swept, and sweeps once the cycle is
//! closed. It reads the names of the objects in these segments from the array of names, to which nothing is written in a round.
ghost use Rattle.std.specs.Prelude.{◌≡◌, ◌≤◌, length};
ghost use Rattle.nmgc_updrem.specs.Rings.{HavePolled};
ghost use Rattle.nmgc_cycle.specs.{Shown.phase_in, Shown.is_marking_in, Cycles.CanHelp, Cycles.HasHelped};

use crate::worker::RoundInputs;
use nmgc_alloc::Segments;
use nmgc_journal::Phase;
use nmgc_mark::{Marker, Work};
use nmgc_round::{CollectorSeat, Gate};
use nmgc_sweep::{NameTable, Sweeper};
use nmgc_updrem::Inbox;
use std::thread::Threads;

/// A cycle that is marking.
#[derive(Drop)]
pub struct Marking {
    /// The stop of its snapshot.
    pub from: u32,
    pub marker: Marker,
    /// The answer of the marker's last work.
    pub last: Work,
    /// The sweeper, which is to sweep the segments that waited as the cycle began.
    pub sweeper: Sweeper,
}

/// A cycle that was closed, and is sweeping.
#[derive(Drop)]
pub struct Sweeping {
    /// The stop of its snapshot.
    pub from: u32,
    /// The stop of its closing.
    pub closed: u32,
    /// The number of objects that it keeps.
    pub kept: u32,
    pub sweeper: Sweeper,
}

/// The phase of the collector, with the cycle in progress.
#[derive(Drop)]
pub enum Progress {
    Idle,
    Marking(Marking),
    Sweeping(Sweeping),
}

impl Progress {
    /// Returns the phase that a stop's row shows.
    pub fn phase(&self) -> Phase
        ensures { result ≡ phase_in self.now }
    {
        match self {
            Progress::Idle => Phase::Idle,
            Progress::Marking(_) => Phase::Marking,
            Progress::Sweeping(_) => Phase::Sweeping,
        }
    }

    /// Whether a cycle is marking.
    pub fn is_marking(&self) -> bool
        ensures { result ≡ is_marking_in self.now }
    {
        match self {
            Progress::Marking(_) => true,
            Progress::Idle | Progress::Sweeping(_) => false,
        }
    }

    /// Whether the collector has work beside the mutators. A cycle that marks has work if an object waits to be scanned, and
    /// a cycle that sweeps if the number of segments to sweep, `waiting`, isn't 0. No clause constrains the answer, since
    /// `work` is soon done if nothing is left. Takes no memory.
    pub fn has_work(&self, waiting: u32) -> bool {
        match self {
            Progress::Idle => false,
            Progress::Marking(marking) => !marking.marker.is_empty(),
            Progress::Sweeping(_) => waiting > 0,
        }
    }

    /// Does the collector's part of a round. If a cycle is in progress, it scans objects or sweeps segments, up to the
    /// configured quota, and fewer only if no more are left. Before each object it polls the ring of each mutator. The marker's
    /// answer is kept for the stop. Takes no memory. It waits for the gate, and for a sweep's second thread, which waits for
    /// the gate alone.
    pub fn work<R: Threads + Sync, G: Gate>(
        &mut self,
        inputs: &RoundInputs<R, G>,
        seat: &mut CollectorSeat,
        segments: &mut Segments,
        names: &NameTable,
        inbox: &mut Inbox,
    )
        requires help { CanHelp inputs.now.round.now seat.old segments.old names.now self.old }
        requires inbox { segments.old.layout.mutators ≤ length inbox.old }
        ensures helped { HasHelped inputs.now.round.now inputs.now.config.now.quota seat.old seat.new segments.old segments.new names.now self.old
            self.new }
        ensures polled { HavePolled inbox.old inbox.new }
    {
        let quota = inputs.config.quota;
        match self {
            Progress::Idle => {}
            Progress::Marking(marking) => {
                marking.last = marking
                    .marker
                    .work(inputs.round, seat, segments, inbox, quota, inputs.gate);
            }
            Progress::Sweeping(sweeping) => {
                let _ = sweeping
                    .sweeper
                    .work(inputs.rt, segments, names, quota, inputs.gate);
            }
        }
    }
}
