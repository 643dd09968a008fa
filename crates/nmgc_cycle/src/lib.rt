//! The collector: a run of a script, from its first stop to its report.
//!
//! A run is a stop, and then rounds, each with a stop after it. In a round each mutator does a slice of its program in a
//! thread of its own, and the collector works beside them. One table of words lasts for the whole run. At a stop no mutator
//! runs: objects are promoted into segments, the cycle advances, and the stop's row is written (Note [The steps of a stop] in
//! stop.rt). `Collector::run` does a whole run; `new`, `stop`, `round` and `into_report` are its parts. `run_programs` does a
//! run of programs that decide (`programs`), and `ProgramRun` does it stop by stop, with programs that may be replaced
//! (`program_run`). A script's programs are lists. Rows are handed on as they come (`past_rows`): `run_observed` gives them to
//! an observer (`observer`), and `run` keeps them.
//!
//! The invariant of a collector between calls is in `specs/Keeps.antt`. The collector's rows describe one run of the script,
//! as `nmgc_run_spec` defines runs, and its words, segments, mutators, marker and sweeper represent the last state of this
//! run. A new collector is the beginning of such a run. A round leads from a stop to the end of a round, with one legal order
//! of all its commands. A stop leads from there to the next stop of the run, and changes the world only if weak pointers die.
//! So the report of a run is lawful, whatever the schedule was.
//!
//! A cycle begins at a stop, marks in rounds beside the mutators, is closed at a stop, sweeps beside the mutators, and ends
//! at a stop (`progress`, `cycle`). `specs/Cycles.antt` defines the effect of each of these calls, and `specs/Steps.antt` its
//! meaning in the run. A full cycle is done at one stop (`full`, `specs/Full.antt`, `specs/FullLaws.antt`). Each stop notes
//! the names of moved objects for the sweeper (`name_notes`). `nmgc_script`'s `specs/Spelling.antt` says which scripts may run.
//!
//! Easy to get wrong: in a round the seats have the words, and an error would lose them. So all that can fail comes before
//! the words are taken, or after they are back. After `NoMemory` no clause describes the collector, and no call may follow.
#![tactic(auto)]

mod asking;
mod collector;
mod command_queue;
mod cycle;
mod ended_cycles;
mod event_laws;
mod full;
mod name_notes;
mod observer;
mod past_rows;
mod program_laws;
mod program_run;
mod programs;
mod progress;
mod round;
mod round_laws;
mod session;
mod stop;
mod stop_laws;
mod weaks;
mod worker;

pub use collector::Collector;
pub use command_queue::CommandQueue;
pub use ended_cycles::EndedCycles;
pub use event_laws::events_are_the_report;
pub use observer::{Event, Forgetful, KeptRows, Observer, RunFault};
pub use program_laws::lists_run_as_scripts;
pub use program_run::{Bounded, MOST_COMMANDS, Parks, ProgramRun};
pub use session::Session;
pub use stop::{StopEnd, StopRows};
