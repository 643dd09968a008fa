//! The events of a trace, and the reasons why an event can't have happened.
use crate::hand::Hand;
use crate::rows::Task;
use nmgc_barrier_laws::Debt;
use nmgc_lists::List;
use nmgc_world_spec::{Command, Name, Reply};

/// A step of a runtime. The marker's reads and their times aren't watched, so there is no event for a read.
#[derive(Drop)]
pub enum Event {
    /// A mutator gave a command, with this answer.
    Given {
        mutator: u8,
        command: Command,
        answer: Reply,
    },
    /// A mutator did these tasks, one after the other (`rows`). Then the borrowed registers got back the values that they had
    /// before. So a register of the trace may be used for a value that no register of the runtime holds.
    Rows {
        mutator: u8,
        borrowed: List<u8>,
        tasks: List<Task>,
    },
    /// A value went from mutator to mutator, with this answer. The heap answers `Fine`.
    Hand {
        hand: Hand,
        answer: Reply,
    },
    /// Marking begins: the world is the snapshot.
    Mark,
    /// Marking begins with the shared array and the finaliser queues as its only roots. Registers are read at scans.
    MarkShared,
    /// The registers of a mutator are read, once in a cycle that began with `MarkShared`.
    Scan {
        mutator: u8,
    },
    /// A barrier, or the collector itself, remembered the name.
    Push {
        name: Name,
    },
    /// A mutator ends: its registers are nil, and it counts as scanned.
    Exit {
        mutator: u8,
    },
    /// All names that the mutator's commands made due so far are remembered.
    Settle {
        mutator: u8,
    },
    /// The marker took a pushed name. A cycle with such an event needs one for each pushed name of the snapshot, except g.
    Take {
        name: Name,
    },
    /// Marking ends, with all mutators scanned. A weak pointer dies if neither the commands nor the pushes keep its key.
    Close,
    /// Marking ends, and exactly these weak pointers die, in the order of their names. If there are no names, none dies.
    CloseWith {
        dead: List<Name>,
    },
    /// In the last cycle the runtime marked exactly these names of the snapshot.
    Marked {
        names: List<Name>,
    },
    /// In the last cycle the runtime marked exactly these names, those made since it began left out.
    Black {
        names: List<Name>,
    },
    /// After the last cycle the runtime freed these names of its snapshot.
    Freed {
        names: List<Name>,
    },
    /// The trace ends.
    Stop,
}

/// The reason why an event can't have happened. Each reason is a fact about the cycle and the event.
#[derive(Clone, Copy, Debug, PartialEq, Eq)]
pub enum Why {
    /// No event of this kind can happen here: in a cycle, between cycles, or after the stop. Or a mutator is scanned already.
    Misplaced,
    /// There is no such mutator (also for a settle, or for zero tasks in a line) or register, or there is no serial left.
    CannotApply,
    /// The heap gives this answer. It isn't the event's, or doesn't suit the task in a line of several (`rows`).
    Answer(Reply),
    /// The heap has no such name.
    NoSuchName(Name),
    /// The name of this debt is due since the debt's line, and wasn't pushed.
    Due(Debt),
    /// The name wasn't pushed, or it isn't in the snapshot.
    NotPushed(Name),
    /// Takes are reported, and this name was pushed and isn't among them.
    Untaken(Name),
    /// The registers of this mutator weren't read in the cycle.
    Unscanned(u8),
    /// The weak pointer isn't dead: the commands or a weak pointer that lives on keep its key, or the key is no object. Or it
    /// wasn't alive at the snapshot, or was finalised since.
    NotDead(Name),
    /// The name has to be marked, and isn't reported.
    NotListed(Name),
    /// The name is reported as marked, but the cycle didn't keep it: it isn't kept from the snapshot, or was made since.
    NotMarked(Name),
    /// The name is reported as freed, and was made since the cycle began.
    NotOld(Name),
    /// The name is reported as freed, and the commands or a weak pointer that lives on need it.
    Needed(Name),
}
