//! The figures of a run that ended, from sums over its events, its collector and the clock.
//!
//! Figures depend on the schedule and the machine, so they are printed beside a program's output and not in it. The sums are
//! taken as the events come, so no row is kept and a run of any length takes no more memory.
ghost use Rattle.std.specs.Prelude.{OnOk};

use nmgc_cycle::{Collector, Event, Observer, RunFault};
use std::time::{Clock, Instant};

/// The beginning of a run. It has no time if the clock failed.
#[derive(Clone, Copy)]
pub struct Figures {
    began: Option<Instant>,
}

/// Sums over the events of a run so far: an observer that never fails. A sum stays at 2^64 - 1.
#[derive(Clone, Copy, Debug, PartialEq, Eq)]
pub struct Sums {
    /// The commands that were answered.
    pub commands: u64,
    pub rounds: u64,
    /// The cycles that ended.
    pub cycles: u64,
    /// The objects that these cycles freed.
    pub freed: u64,
    /// The weak pointers that died at their closings.
    pub dead: u64,
    /// The microseconds of the longest stop after a round (`TimedSums`). `Sums` alone has no clock, and leaves it at 0.
    pub longest_stop: u64,
}

impl Sums {
    /// The sums before the first event.
    pub const NONE: Sums = Sums {
        commands: 0,
        rounds: 0,
        cycles: 0,
        freed: 0,
        dead: 0,
        longest_stop: 0,
    };
}

impl Observer for Sums {
    ghost steps = { λ before event after. Unit {0} };

    ghost fails = { λ before event after. ⊥ };

    fn observe(&mut self, event: Event) -> Result<(), RunFault> {
        match event {
            Event::Stop { row: _, cycles } => {
                for cycle in cycles.in_any_order() {
                    self.cycles = self.cycles.saturating_add(1);
                    self.freed = self.freed.saturating_add(cycle.freed.len() as u64);
                    self.dead = self.dead.saturating_add(cycle.dead.items().len() as u64);
                }
            }
            Event::Round(rows) => {
                self.rounds = self.rounds.saturating_add(1);
                for replies in rows.replies.items() {
                    self.commands = self.commands.saturating_add(replies.len() as u64);
                }
            }
        }
        Ok(())
    }
}

/// Sums over the events of a run so far, with its longest stop: an observer that never fails. It reads the clock when it gets the
/// event of a round, and again at the event of the next stop. So stop 0 is left out, and a stop at which the clock fails.
#[derive(Drop)]
pub struct TimedSums<'a, R> {
    pub sums: Sums,
    rt: &'a R,
    // The time of the last round's event.
    round_ended: Option<Instant>,
}

impl<'a, R: Clock> TimedSums<'a, R> {
    /// Makes the sums before the first event, with this clock.
    pub fn new(rt: &'a R) -> Self {
        TimedSums {
            sums: Sums::NONE,
            rt,
            round_ended: None,
        }
    }
}

impl<'a, R: Clock> Observer for TimedSums<'a, R> {
    ghost steps = { λ before event after. Unit {0} };

    ghost fails = { λ before event after. ⊥ };

    fn observe(&mut self, event: Event) -> Result<(), RunFault> {
        let is_round = matches!(&event, Event::Round(_));
        if !is_round {
            let stop = microseconds_since(self.rt, self.round_ended).unwrap_or(0);
            self.sums.longest_stop = self.sums.longest_stop.max(stop);
        }
        self.sums.observe(event)?;
        if is_round {
            self.round_ended = Instant::now(self.rt).ok();
        }
        Ok(())
    }
}

// Returns the microseconds since a time, or `None` if there is no time or the clock failed.
fn microseconds_since<R: Clock>(rt: &R, began: Option<Instant>) -> Option<u64> {
    let passed = began?.elapsed(rt).ok()?;
    Some(passed.as_micros().min(u128::from(u64::MAX)) as u64)
}

impl Figures {
    /// Begins a run.
    pub fn begin<R: Clock>(rt: &R) -> Self {
        Figures {
            began: Instant::now(rt).ok(),
        }
    }
}

// Returns the number of objects that all mutators made.
fn objects_of(collector: &Collector) -> u64 {
    let mut objects = 0u64;
    for mutator in collector.mutators() {
        objects = objects.saturating_add(u64::from(mutator.serial));
    }
    objects
}

/// Prints a line with the figures of a run on the log: commands, objects, rounds, cycles, objects freed by cycles, dead weak
/// pointers, and the longest stop in microseconds. Then the line has the milliseconds since the run began, or `no time` if the
/// clock failed. If the log fails, the line is lost.
pub fn print_figures<R: Clock, L: Print>(
    rt: &R,
    log: &L,
    name: &str,
    figures: Figures,
    sums: &Sums,
    collector: &Collector,
) {
    let objects = objects_of(collector);
    drop(print!(log;
        "{name}: {} commands, {objects} objects, {} rounds, {} cycles, {} objects freed by cycles, {} weak pointers dead, longest stop {} us, ",
        sums.commands, sums.rounds, sums.cycles, sums.freed, sums.dead, sums.longest_stop
    ));
    drop(match microseconds_since(rt, figures.began) {
        Some(passed) => println!(log; "{} ms", passed / 1000),
        None => println!(log; "no time"),
    });
}
