//! A round: mutators and the collector step on one table that has every word of the heap.
//!
//! No thread takes a lock. A step reads or writes one word, and each command has exactly one step as its position in the
//! order. All knowledge of the words is in the rule of the table, which holds between any two steps of any threads
//! (`specs/Rule.antt`). It says: the table is stopped, or there is a list of events of the marking machine, each possible at
//! its position. With a list the words represent the world after the events, and all views agree. A step leaves the list, or
//! adds an event at its end. So in each schedule a round's words represent the world after one order of its commands.
//!
//! The table lasts for the run (`words`). At a stop there is a single seat, and it knows all words, as a list. One step opens
//! a round and another ends it (`round`), and neither copies a word. In between each mutator has a seat of its own, and so
//! has the collector (`seats`). Each steps with its own seat (`steps`). `compare`, `results`, `slots` and `weaks` have the
//! steps on words that several threads change, or that only their maker writes. At a `gate` a test can hold a worker back.
//!
//! `laws` has laws for all openings, words and views: each kind of step keeps the rule, words that represent a world open a
//! round, and a round leaves such words. In `specs`, `View.antt` defines a seat's view; `Objects.antt` says when words
//! represent a world in a round. `Ready.antt` and `Known.antt` have the conditions of steps, `Starting.antt` and
//! `Finishing.antt` of a round's two ends. `nmgc_mutator` makes commands of these steps; `nmgc_mark` makes scans.
//!
//! Easy to get wrong: a row has its answer as a word and never changes. If this word is a pointer, the seat's fixed words
//! name the object, once the seat has loaded the name at that address.
#![tactic(auto)]

pub mod compare;
pub mod gate;
pub mod laws;
mod plays;
pub mod results;
mod round;
mod seats;
pub mod slots;
mod steps;
pub mod table;
pub mod view;
pub mod weaks;
pub mod witness;
pub mod words;

pub use compare::Exchanged;
pub use gate::{Gate, OpenGate};
pub use table::{CollectorSeat, Finished, MutatorSeat, Round, Started};
pub use view::Opened;
pub use witness::Witness;
pub use words::Words;
