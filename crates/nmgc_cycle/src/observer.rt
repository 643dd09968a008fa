//! Observers of runs: each is given the rows of a run as they come.
//!
//! An observer is given each stop's row with the rows of the cycles that ended at this stop, and each round's replies. Its own
//! contract has the effect of one event (`steps`). The effect of a run is the chain of these steps (`Observed` in
//! `specs/Observed.antt`). `KeptRows` keeps the rows for a report, and `Forgetful` forgets them.
//!
//! Easy to get wrong: an observer that fails may have taken a part of its last event (`fails`). The run ends there.
ghost use Rattle.std.specs.Prelude.{◌≡◌, [], OnOk, OnErr};
ghost use Rattle.nmgc_cycle.specs.{declared.observer.Event.Event as EventSeen, Observed.KeepsEvent};

use crate::ended_cycles::EndedCycles;
use nmgc_journal::{RoundRows, StopRow};
use nmgc_lists::{List, NoMemory};
use std::alloc::Global;

/// An event of a run.
#[derive(Drop)]
pub enum Event {
    /// A stop was done: its row, and the rows of the cycles that ended there.
    Stop { row: StopRow, cycles: EndedCycles },
    /// A round was done, with these replies.
    Round(RoundRows),
}

/// The reason why a run was given up.
#[derive(Clone, Copy, Debug, PartialEq, Eq)]
pub enum RunFault {
    /// Memory was refused.
    NoMemory,
    /// The observer failed.
    Observer,
}

impl From<NoMemory> for RunFault {
    fn from(_: NoMemory) -> Self {
        RunFault::NoMemory
    }
}

/// An observer of a run.
pub trait Observer {
    /// The states to which an event may lead.
    ghost steps: { Self → EventSeen → Self → Type 0 };
    /// The states to which an event may lead if the observer fails at it.
    ghost fails: { Self → EventSeen → Self → Type 0 };

    /// Takes an event.
    fn observe(&mut self, event: Event) -> Result<(), RunFault>
        ensures ok { OnOk result (steps self.old event self.new) }
        ensures err { OnErr result (fails self.old event self.new) };
}

/// All rows of a run, kept for its report.
#[derive(Drop)]
pub struct KeptRows {
    pub rounds: List<RoundRows>,
    pub stops: List<StopRow>,
    /// The cycles that ended.
    pub cycles: EndedCycles,
}

impl KeptRows {
    /// Returns no rows. Takes no memory.
    pub fn new(alloc: Global) -> KeptRows
        ensures { (result.rounds ≡ []) × (result.stops ≡ []) × (result.cycles ≡ []) }
    {
        KeptRows {
            rounds: List::new(alloc),
            stops: List::new(alloc),
            cycles: EndedCycles::none(alloc),
        }
    }
}

impl Observer for KeptRows {
    ghost steps = { λ before event after. KeepsEvent before event after };

    ghost fails = { λ before event after. Unit {0} };

    fn observe(&mut self, event: Event) -> Result<(), RunFault> {
        match event {
            Event::Stop { row, cycles } => {
                self.stops.push(row)?;
                self.cycles.append(cycles)?;
            }
            Event::Round(rows) => self.rounds.push(rows)?,
        }
        Ok(())
    }
}

/// An observer that forgets each event. So a run that it observes takes memory for the heap and for one round.
#[derive(Drop)]
pub struct Forgetful;

impl Observer for Forgetful {
    ghost steps = { λ before event after. after ≡ before };

    ghost fails = { λ before event after. ⊥ };

    fn observe(&mut self, event: Event) -> Result<(), RunFault> {
        drop(event);
        Ok(())
    }
}
