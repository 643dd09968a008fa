//! The events of a trace without registers, and the reasons why an event can't have happened.
use nmgc_lists::List;

/// The actor of a line, by its number. The runtime itself has the number 0, and mutator M of a trace has M + 1.
#[derive(Clone, Copy, Debug, PartialEq, Eq)]
pub struct Actor {
    pub number: u64,
}

/// A step of a runtime. An object is named by its number, and a field has an object's number or none. A field without an
/// object holds something that is no reference.
#[derive(Drop)]
pub enum FieldEvent {
    /// A mutator is there, without roots.
    Began {
        mutator: Actor,
    },
    /// A mutator is gone.
    Ended {
        mutator: Actor,
    },
    /// An actor made the next object, of `count` fields, or more if there are more values. The first fields have these values,
    /// and each further field has no value. `taken` is the object that has its name already, if there is one.
    Made {
        actor: Actor,
        taken: Option<u32>,
        count: u32,
        fields: List<Option<u32>>,
    },
    /// An actor stored these values into an object's fields, from the field `place` on.
    Written {
        actor: Actor,
        object: u32,
        place: u32,
        fields: List<Option<u32>>,
    },
    /// A mutator gave an object to another mutator past all fields.
    Handed {
        giver: Actor,
        object: u32,
        taker: Actor,
    },
    /// An actor got an object out of a weak pointer, or out of a table of the runtime.
    Owed {
        actor: Actor,
        object: u32,
    },
    /// Marking begins: the heap is the snapshot, and these objects were read as roots.
    Mark {
        roots: List<u32>,
    },
    /// The roots of a mutator were read, and these objects are all of them.
    Scan {
        mutator: Actor,
        roots: List<u32>,
    },
    /// An actor's barrier remembered the object.
    Push {
        actor: Actor,
        object: u32,
    },
    /// All objects that the actor's lines made due so far are remembered.
    Settle {
        mutator: Actor,
    },
    /// Marking ends.
    Close,
    /// In the last cycle the runtime marked exactly these objects of the snapshot.
    Marked {
        objects: List<u32>,
    },
    /// In the last cycle the runtime marked exactly these objects, those made since it began left out.
    Black {
        objects: List<u32>,
    },
    /// After the last cycle the runtime freed these objects of its snapshot.
    Freed {
        objects: List<u32>,
    },
    /// The trace ends.
    Stop,
}

/// An object that is due, the line that made it due, and the number of that line's actor. The caller counts lines from 1.
#[derive(Clone, Copy, Debug, PartialEq, Eq)]
pub struct FieldDebt {
    pub object: u32,
    pub line: usize,
    pub number: u64,
}

/// An object of the snapshot that is stored, and the line that stored it.
#[derive(Clone, Copy, Debug, PartialEq, Eq)]
pub struct FieldStore {
    pub object: u32,
    pub line: usize,
}

/// The reason why an event can't have happened. Each reason is a fact about the state and the event.
#[derive(Clone, Copy, Debug, PartialEq, Eq)]
pub enum FieldWhy {
    /// No event of this kind can happen here: in a cycle, between cycles, or after the stop. Or a mutator is scanned already.
    Misplaced,
    /// The mutator didn't begin, or it ended.
    NotThere(Actor),
    /// The mutator is there already.
    There(Actor),
    /// The heap has no such object.
    NoObject(u32),
    /// The heap has an object of this name already.
    Made(u32),
    /// No number is left for a new object.
    Full,
    /// The object has no field with this number. Its fields before that number exist.
    NoField { object: u32, place: usize },
    /// The roots of this mutator weren't read in the cycle. It is the first such mutator.
    Unscanned(Actor),
    /// The object of this debt is due since the debt's line, and the collector doesn't have it.
    Due(FieldDebt),
    /// The cycle doesn't keep the object of this store.
    Unkept(FieldStore),
    /// The object has to be marked, and isn't reported.
    NotListed(u32),
    /// The object is reported as marked, but the cycle didn't keep it: it isn't kept from the snapshot, or was made since.
    NotMarked(u32),
    /// The object is reported as freed, and was made since the cycle began.
    NotOld(u32),
    /// The object is reported as freed, and roots or objects that were handed out need it.
    Needed(u32),
}
