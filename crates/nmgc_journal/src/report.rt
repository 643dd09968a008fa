//! The report of a run.
//!
//! A run goes from stop to stop: stop 0 is the opening one, and stop n follows round n. So there is one more row of stops
//! than of rounds, and a row's position is its number. A cycle's row is written at the stop at which the cycle ends, so the
//! rows of the cycles are in the order of the stops at which they ended. Easy to get wrong: one stop may end two cycles, the
//! one in progress and a full one.
//!
//! Beside the rows a report has the heap as the last stop left it: its words, its segments, the mutators' registers and
//! queues, and the weak pointers. The text has nothing of the heap. The heap is in the report so that a contract can say of a
//! whole run: at its end, the words still represent the world that the replies made.
use crate::final_words::FinalWords;
use crate::replies::Replies;
use nmgc_alloc::Segments;
use nmgc_lists::List;
use nmgc_name_lists::NameList;
use nmgc_world_spec::Name;

/// The replies of one round: a list for each mutator, in the mutator's own order.
#[derive(Drop)]
pub struct RoundRows {
    pub replies: List<Replies>,
}

/// The work of the collector beside the mutators, from one stop to the next.
#[derive(Clone, Copy, Debug, PartialEq, Eq)]
pub enum Phase {
    /// The collector does nothing.
    Idle,
    /// The collector marks the objects that are reachable in the snapshot.
    Marking,
    /// The collector sweeps the segments that were filled at the snapshot.
    Sweeping,
}

/// One stop, and the state that it left.
#[derive(Clone, Copy, Debug, PartialEq, Eq)]
pub struct StopRow {
    /// Its number, from 0.
    pub number: u32,
    /// The phase of the round that follows.
    pub phase: Phase,
    /// The number of free segments.
    pub free: u32,
    /// The number of segments that are filled and don't wait to be swept.
    pub filled: u32,
    /// The number of segments that wait to be swept.
    pub sweep: u32,
    /// The number of objects promoted at this stop.
    pub promoted: u32,
}

/// One cycle, from its snapshot to the end of its sweep. Lists are in order: segments by number, names by maker and serial.
#[derive(Drop)]
pub struct CycleRow {
    /// Its number, from 1.
    pub number: u32,
    /// The stop of its snapshot.
    pub from: u32,
    /// The stop at which its marking was closed.
    pub closed: u32,
    /// The stop at which it ended.
    pub ended: u32,
    /// The segments that were filled at the snapshot, and swept.
    pub swept: List<u32>,
    /// The names that were in the blocks of these segments at the snapshot.
    pub had: NameList,
    /// The names in `had` whose blocks the sweep freed.
    pub freed: NameList,
    /// The names of the weak pointers that died at the closing, in order. They are a plain list, since few weak pointers die.
    pub dead: List<Name>,
    /// The number of blocks that were marked when the closing was done.
    pub kept: u32,
}

/// A mutator's registers and queue as the run ends. They are field words: each is the word of a number, of nil, or of a
/// pointer to the first word of an object.
#[derive(Drop)]
pub struct MutatorEnd {
    /// Its registers, in the order of their numbers.
    pub registers: List<u64>,
    /// Its finaliser queue, beginning with the first finaliser.
    pub queue: List<u64>,
    /// The number of objects that it made, which is the serial of its next one.
    pub serial: u32,
}

/// The end of a run.
#[derive(Clone, Copy, Debug, PartialEq, Eq)]
pub enum End {
    /// Every command was answered.
    Done,
    /// A command wasn't answered, and fewer segments are free than the reserve.
    HeapFull { free: u32, reserve: u32 },
}

/// The events of a run, and the heap that it left.
pub struct Report {
    /// The replies of each round, from round 1 on.
    pub rounds: List<RoundRows>,
    /// The stops, from stop 0 on.
    pub stops: List<StopRow>,
    /// The cycles, in the order of their numbers.
    pub cycles: List<CycleRow>,
    /// All words of the heap, from word 0 on.
    pub words: FinalWords,
    /// The segments of the heap.
    pub segments: Segments,
    /// The mutators, in the order of their numbers.
    pub mutators: List<MutatorEnd>,
    /// The names of the weak pointers that are alive and have a block, in order of names.
    pub weaks: List<Name>,
    /// The end of the run.
    pub end: End,
}

// Written by hand, so that each drop of a report calls this function. A derived drop is written out and proved at each call.
impl Drop for Report {
    fn drop(self) {
        let Report {
            rounds,
            stops,
            cycles,
            words,
            segments,
            mutators,
            weaks,
            end: _,
        } = self;
        drop(rounds);
        drop(stops);
        drop(cycles);
        drop(words);
        drop(segments);
        drop(mutators);
        drop(weaks);
    }
}
