//! The invariant of a running collector, and why a round and its stop keep it. Nothing here runs: a contract is a law.
//!
//! Here the parts meet: the definition of a lawful run (`nmgc_run_spec`), the code below (mutators, marker, sweeper, weak
//! pointers), and the ties between them. `specs/Seen.antt` is the view of a collector in contracts. `specs/Collector.antt` is
//! the invariant between calls: the report so far describes one run, and the collector's state represents the last state of
//! that run. `specs/Blocks.antt` and `specs/Marker.antt` tie the marker to the marking machine by blocks, as a run does.
//! `specs/CycleCloses.antt` says that a closing by the marker is a closing of the run.
//!
//! - `idle`: a round, from the stop before it to the promotion of the stop after it, while no cycle marks. At a stop words,
//!   blocks and mutators represent a world (`specs/Rest.antt`), so a round may open. The mutators do their slices, and each
//!   promises its work by its own rows alone (`specs/Worked.antt`). Once the round is finished all their commands have a
//!   legal order, and the mutators' notes are all that a promotion needs (`specs/Turn.antt`).
//! - `marking`: a round and its stop beside a marking cycle. In a heap at rest the collector may then use the snapshot
//!   (`specs/RestMarking.antt`). The marking machine goes through the round's commands and the collector's scans
//!   (`specs/Owed.antt`), and marks and queue of the marker are the machine's (`specs/Tie.antt`, `specs/Calls.antt`).
//!   `Prepares`, `Stays`, `Keeps`, `Closes`, `Resolves`, `Joins`, `Sweeps` and `Drops` in `specs` follow the cycle to its
//!   end.
//! - `ties`: the marker's tie by places is its tie by blocks, and a closing with weak pointers is a closing of the run.
//! - `leaving`: the results of a round for its promotion, and the worlds that the collector may use afterwards.
//! - `samples`: a whole run, which shows that the definitions can be met.
//!
//! Easy to get wrong: a mutator decides by its own registers alone whether to record a field, while other mutators go on.
//! Nothing is missed, because the round has one order. So the laws on the notes go through the events of the round, and not
//! through the rows of one mutator. And the machine owes names, while a mutator remembers addresses. An owed name may be g,
//! or a new object of the round. Such a name has no block, and no mutator remembers it. The machine pushes only names of the
//! snapshot. An object that was promoted since then has a block, so a mutator may remember it. So the pushed names are
//! exactly the remembered entries of the snapshot (`AreRemembered`).
#![tactic(auto)]

pub mod idle;
pub mod leaving;
pub mod marking;
pub mod samples;
pub mod ties;
