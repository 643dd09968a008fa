//! Events, and entries of the mark queue.
use nmgc_world_spec::{Command, Name, Reply};

/// A single step of a mutator or the collector while marking runs. Events come in any order.
pub enum Event {
    /// A mutator gave a command, and this was the answer. From then on the mutator owes the names in `owed_by`, such as the
    /// old target of a field that was overwritten.
    Command {
        mutator: u8,
        command: Command,
        answer: Reply,
    },
    /// The first name that a mutator owes goes into its remembered set. A name outside the snapshot, or g, is dropped.
    Push {
        mutator: u8,
    },
    /// The collector reads one position of the first object in its queue.
    Scan,
    /// The collector takes the first name of a mutator's remembered set.
    Take {
        mutator: u8,
    },
    /// Marking ends.
    Close,
}

// Written by hand, so that each drop of an event calls this. A derived drop is written out, and proved, at each drop.
impl Drop for Event {
    fn drop(self) {
        match self {
            Event::Command {
                mutator: _,
                command,
                answer: _,
            } => drop(command),
            Event::Push { mutator: _ } => {}
            Event::Scan => {}
            Event::Take { mutator: _ } => {}
            Event::Close => {}
        }
    }
}

/// An entry of the mark queue: a marked name, and the position that is read next. Position 0 is the header, and position i +
/// 1 is field i. A thunk's result is its field 0, and its free variables follow.
#[derive(Clone, Copy, Debug, PartialEq, Eq)]
pub struct Entry {
    pub name: Name,
    pub position: usize,
}
