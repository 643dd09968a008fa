//! A collector: the beginning of a run, its progress, and its report in the end.
//!
//! Most memory that grows with the heap is taken at the beginning (`Collector::new`). The table of words is copied from a
//! list of the same length. This list is freed at once, and its pages, already touched, serve later lists. So room that may
//! never be filled is taken before it, and gets none of them. A cycle takes the sweeper's lists. The first cycle also takes
//! the marker's list, whose memory each later marker takes over.
//!
//! A run keeps no row: an observer is given the rows as they come (`run_observed`). `run` is a run of programs: of the script's
//! lists (`lists_run_as_scripts`). It has an observer that keeps the rows.
//!
//! The report is made when nothing may fail any more. So it takes over the table of words, without a copy. The final
//! registers, queues and serials go into a list that is empty until then, with room from the beginning (`IsWellFormed`).
//!
//! Every run ends. While commands are left, each round answers at least one, since a slice has room for one command and a
//! nursery for the largest object. If none are left, each round advances the cycle in progress, and at most one more cycle
//! begins. `specs/Bound.antt` bounds the rounds that may follow, so a stop's number has 32 bits.
//!
//! Easy to get wrong: a command that waits for room in the nursery wasn't answered, so its program still has it left.
ghost use Rattle.std.specs.Prelude.{◌≡◌, ℕ, ◌+◌, ◌<◌, ◌≤◌, ◌⊎◌, [], length, map, slice_get, slice_index, vec_len, vec_capacity, Some, false, IfOk, OnErr, OnOk, All};
ghost use Rattle.nmgc_limits.specs.declared.mutators.TheConstants.{SHARED_SLOTS};
ghost use Rattle.nmgc_object.specs.{declared.layout.TheConstants.SHARED_PLACE, declared.size.TheConstants.HEADER_WORDS, Layouts.IsLayout};
ghost use Rattle.nmgc_round.specs.Empty.{IsEmptyHeap};
ghost use Rattle.nmgc_mutator.specs.{declared.mutator.Mutator.Mutator as MutatorShown, Ready.IsNew};
ghost use Rattle.nmgc_script.specs.{declared.script.Script.Script as ScriptSeen, Spelling.FitsScript, Spelling.IsInLimits};
ghost use Rattle.nmgc_run_laws.specs.Limits.{FitsRun};
ghost use Rattle.nmgc_run_spec.specs.{Run.plan_of, Run.layout_of as planned_layout, Lawful.IsRunOf, AtStop.IsLawfulAtStop};
ghost use Rattle.nmgc_collector_laws.specs.{Seen.end_of as reported_end, Heaps.seen_mutator};
ghost use Rattle.nmgc_cycle.specs.{Shown.report_of, Shown.report_row, Shown.report_cycles, Shown.HasNamesOnce, Observed.FailedStop, Observed.ObservedPart, Observed.ObservedRun, Observed.ObservedStop, Shown.turns_of, Shown.upper_turns_of, Lined.IsLined, Keeps.IsFresh, Keeps.HasEnded};

use crate::ended_cycles::EndedCycles;
use crate::observer::{Event, KeptRows, Observer, RunFault};
use crate::past_rows::PastRows;
use crate::progress::Progress;
use crate::round::listed;
use crate::stop::{StopEnd, StopRows};
use crate::worker::WorkerRoom;
use nmgc_alloc::Segments;
use nmgc_journal::{CycleRow, End, FinalWords, MutatorEnd, Report, RoundRows, StopRow};
use nmgc_limits::SHARED_SLOTS;
use nmgc_lists::{List, ListMemory, NoMemory, VecList};
use nmgc_mark::MarkerMemory;
use nmgc_minor::Promotion;
use nmgc_mutator::mutator::{MOST_PUSHED, Mutator};
use nmgc_object::layout::SHARED_PLACE;
use nmgc_object::size::{HEADER_WORDS, NAME_OFFSET};
use nmgc_object::words::{NIL_WORD, encode_header, encode_name};
use nmgc_object::{Header, Layout};
use nmgc_round::laws::empty_heap_opens;
use nmgc_round::{Gate, Words};
use nmgc_script::Script;
use nmgc_sweep::NameTable;
use nmgc_updrem::{BLOCK_ENTRIES, Inbox, link};
use nmgc_weak::Weaks;
use nmgc_world_spec::{Kind, Name};
use std::alloc::Global;
use std::thread::Threads;

/// The state of a run: its heap, its mutators, and the number of its rows so far.
#[derive(Drop)]
pub struct Collector {
    pub(crate) alloc: Global,
    pub(crate) heap: Heap,
    // In the order of their numbers.
    pub(crate) mutators: Vec<Mutator>,
    // Room for the workers of a round, one for each mutator.
    pub(crate) workers: WorkerRoom,
    // The other ends of the mutators' rings, and the entries taken out of each ring since the last stop.
    pub(crate) inbox: Inbox,
    // For each program, the number of its commands that were answered.
    pub(crate) positions: Vec<u32>,
    pub(crate) rows: Rows,
    pub(crate) cycle: CycleState,
    // The end of the run, if the last stop answered an end.
    pub(crate) answered: Option<End>,
    pub(crate) report: ReportMemory,
    // The memory of the last cycle's marker. While a cycle marks, its marker has the memory.
    pub(crate) marker_memory: MarkerMemory,
}

// The heap: its words, its segments with the names of objects in them, the lists of a promotion, and the weak pointers.
#[derive(Drop)]
pub(crate) struct Heap {
    // The words of the heap. They are absent only within a round.
    pub(crate) words: Option<Words>,
    pub(crate) segments: Segments,
    pub(crate) promotion: Promotion,
    // The name of each object in a segment, by its address.
    pub(crate) names: NameTable,
    // The weak pointers that are alive and have a block.
    pub(crate) weaks: Weaks,
}

// The cycle in progress, if there is one, and the state that lasts from one cycle to the next.
#[derive(Drop)]
pub(crate) struct CycleState {
    pub(crate) progress: Progress,
    // The number of cycles begun.
    pub(crate) begun: u32,
    // Whether a cycle was asked for since the last one began.
    pub(crate) collect: bool,
    // Whether a full cycle was asked for since the last one was done.
    pub(crate) full: bool,
    // How often the collector passed the gate in the run. While a cycle is in progress, its marker or sweeper has the count.
    pub(crate) turns: u64,
    // How often the upper halves of its sweeps passed the gate. While a cycle is in progress, its sweeper has the count.
    pub(crate) upper_turns: u64,
}

// The rows of the rounds, the stops and the cycles so far, as contracts see them.
#[derive(Drop)]
pub(crate) struct Rows {
    pub(crate) rounds: PastRows<RoundRows>,
    pub(crate) stops: PastRows<StopRow>,
    // The cycles that ended.
    pub(crate) cycles: PastRows<CycleRow>,
}

// Memory that the report takes as the run ends, when no other memory may be taken.
#[derive(Drop)]
pub(crate) struct ReportMemory {
    // Empty, with room for the final registers, queue and serial of each mutator.
    pub(crate) ends: Vec<MutatorEnd>,
    // The memory in which the lists of mutators and of weak pointers will lie.
    mutators: ListMemory<MutatorEnd>,
    weaks: ListMemory<Name>,
}

impl ReportMemory {
    // Takes the memory that the report needs as the run ends, with room for `count` mutators, and returns it.
    fn new(alloc: Global, count: usize) -> Result<ReportMemory, NoMemory>
        ensures empty { IfOk result (λ report. report.ends.items ≡ []) }
        ensures room { IfOk result (λ report. count ≤ vec_capacity report.ends) }
    {
        Ok(ReportMemory {
            ends: Vec::with_capacity(alloc, count)?,
            mutators: ListMemory::new(alloc)?,
            weaks: ListMemory::new(alloc)?,
        })
    }
}

// Returns the layout of a script's heap.
fn layout_of(script: &Script) -> Layout
    requires { FitsScript script.now }
    ensures value { result ≡ planned_layout (plan_of script.now) }
    ensures lawful { IsLayout result }
{
    Layout {
        segments: script.config.segments,
        words: script.config.words,
        nursery: script.config.nursery,
        mutators: script.threads.items().len() as u8,
    }
}

// Returns the words of a heap whose only object is g, with nil in all its slots. All words outside g are 0.
fn empty_words(alloc: Global, layout: Layout) -> Result<Vec<u64>, NoMemory>
    requires { IsLayout layout }
    ensures heap { IfOk result (λ words. IsEmptyHeap layout words.items) }
    ensures zeros { IfOk result (λ words. (at : ℕ) → (at < SHARED_PLACE) ⊎ (SHARED_PLACE + HEADER_WORDS + SHARED_SLOTS ≤ at) → slice_index words.items at ≡ 0) }
{
    let mut words = vec![in alloc; 0u64; layout.total() as usize]?;
    let place = SHARED_PLACE as usize;
    words[place] = encode_header(Header {
        kind: Kind::Arr,
        tag: 0,
        fields: u32::from(SHARED_SLOTS),
    });
    words[place + NAME_OFFSET as usize] = encode_name(Name::SHARED);
    let first = place + HEADER_WORDS as usize;
    for slot in 0..SHARED_SLOTS as usize {
        words[first + slot] = NIL_WORD;
    }
    Ok(words)
}

// Returns the number of commands in the first slice of each program of a script, at most. No clause constrains the answer.
fn first_slices(alloc: Global, script: &Script) -> Result<Vec<u32>, NoMemory> {
    let mut slices = Vec::with_capacity(alloc, script.threads.items().len())?;
    for program in script.threads.items() {
        slices.push(program.items().len().min(script.config.slice as usize) as u32)?;
    }
    Ok(slices)
}

// Returns the number in a list, and 0 past its end.
fn slice_at(slices: &[u32], number: u8) -> u32 {
    match slices.get(usize::from(number)) {
        Some(commands) => *commands,
        None => 0,
    }
}

// Returns an upper bound on the entries that `commands` commands send in whole blocks. No clause constrains the answer.
fn most_entries(commands: u32) -> u32 {
    commands
        .saturating_mul(MOST_PUSHED)
        .saturating_add(BLOCK_ENTRIES as u32)
}

// Makes the layout's mutators, which have done nothing yet, in the order of their numbers. Returns them with the other ends
// of their rings. Mutators and ends have room for the notes and entries of the first slice.
fn new_mutators(
    alloc: Global,
    layout: Layout,
    slices: &[u32],
) -> Result<(Vec<Mutator>, Inbox), NoMemory>
    requires { IsLayout layout }
    ensures count { IfOk result (λ made. (length made.0.items ≡ layout.mutators) × (length made.1 ≡ layout.mutators)) }
    ensures new { IfOk result (λ made. (k : ℕ) (m : MutatorShown) → slice_get made.0.items k ≡ Some m → IsNew k layout m) }
    ensures lines { IfOk result (λ made. (k : ℕ) (m : MutatorShown) → slice_get made.0.items k ≡ Some m → IsLined made.1 k m.sender) }
    ensures unsent { IfOk result (λ made. (k : ℕ) (m : MutatorShown) → slice_get made.0.items k ≡ Some m → m.sender.since ≡ []) }
{
    let mut mutators = Vec::with_capacity(alloc, layout.mutators as usize)?;
    let place = ListMemory::new(alloc)?;
    let mut receivers = Vec::with_capacity(alloc, layout.mutators as usize)?;
    for number in 0..layout.mutators {
        let commands = slice_at(slices, number);
        let (sender, mut receiver) = link(alloc)?;
        receiver.reserve(most_entries(commands))?;
        let mut mutator = Mutator::new(alloc, number, layout, sender)?;
        mutator.reserve(commands)?;
        mutators.push(mutator)?;
        receivers.push(receiver)?;
    }
    Ok((mutators, Inbox::new(VecList::from_vec(receivers, place))))
}

// The words of the largest block that the C library may keep: 32 MiB without a page for its own fields.
const KEPT_WORDS: usize = 4_193_792;

// Takes memory for a heap of `count` words, or for `KEPT_WORDS` if the heap has more, and gives it back untouched. This changes
// only the time of the run. The C library returns a large block to the system when it is freed, and from then on keeps blocks
// up to that size, at most 32 MiB. So the list from which the words are copied leaves its touched pages to the run. In a larger
// heap it doesn't, but the lists of a cycle do, and no stop returns their pages.
fn keep_freed_pages(alloc: Global, count: usize) -> Result<(), NoMemory> {
    drop(Vec::<u64>::with_capacity(alloc, count.min(KEPT_WORDS))?);
    Ok(())
}

// Returns the words of a new run, in their table. The list from which they are copied is freed.
fn new_words(alloc: Global, layout: Layout) -> Result<Words, NoMemory>
    requires { IsLayout layout }
    ensures { IfOk result (IsEmptyHeap layout) }
{
    keep_freed_pages(alloc, layout.total() as usize)?;
    let list = empty_words(alloc, layout)?;
    Words::new(alloc, list.as_slice())
}

impl Collector {
    /// Makes the collector of a script's run, as it is before the first stop: it has no rows, and no command was answered.
    /// Each register and each slot of g is nil, every segment is free, the gate wasn't passed, and each mutator's ring is
    /// empty. Requires a script within the limits, with at most 2^31 commands in all (`FitsRun`). Takes memory for the table of
    /// words and, until it is made, for a list of the same length. Segments with marks and names take memory, and so does the
    /// promotion of full nurseries. So do the workers, the notes of first slices, and a ring of `RING_BLOCKS` blocks for each
    /// mutator. A cycle takes its own memory.
    pub fn new(alloc: Global, script: &Script) -> Result<Collector, NoMemory>
        requires { FitsRun script.now }
        ensures fresh { IfOk result (λ collector. IsFresh script.now collector) }
        ensures mutator_turns { IfOk result (λ collector. (k : ℕ) (m : MutatorShown) → slice_get collector.mutators.items k ≡ Some m → m.turns ≡ 0) }
        ensures turns { IfOk result (λ collector. turns_of collector ≡ 0) }
        ensures upper_turns { IfOk result (λ collector. upper_turns_of collector ≡ 0) }
    {
        let slices = first_slices(alloc, script)?;
        Collector::with_slices(alloc, script, slices.as_slice())
    }

    /// Makes the collector of a script's run as `new` does, with room for a first slice of `slices[k]` commands of mutator k, and
    /// of none past the end. No clause depends on the room. It is taken before the list of words, as the note above says.
    pub(crate) fn with_slices(
        alloc: Global,
        script: &Script,
        slices: &[u32],
    ) -> Result<Collector, NoMemory>
        requires { FitsRun script.now }
        ensures fresh { IfOk result (λ collector. IsFresh script.now collector) }
        ensures mutator_turns { IfOk result (λ collector. (k : ℕ) (m : MutatorShown) → slice_get collector.mutators.items k ≡ Some m → m.turns ≡ 0) }
        ensures turns { IfOk result (λ collector. turns_of collector ≡ 0) }
        ensures upper_turns { IfOk result (λ collector. upper_turns_of collector ≡ 0) }
    {
        empty_heap_opens();
        let layout = layout_of(script);
        let promotion = Promotion::reserve(alloc, layout)?;
        let (mutators, inbox) = new_mutators(alloc, layout, slices)?;
        let words = new_words(alloc, layout)?;
        let segments = Segments::new(alloc, layout)?;
        let names = NameTable::new(alloc, layout)?;
        let workers = WorkerRoom::reserve(alloc, layout.mutators as usize)?;
        let positions = vec![in alloc; 0u32; layout.mutators as usize]?;
        let report = ReportMemory::new(alloc, layout.mutators as usize)?;
        Ok(Collector {
            alloc,
            heap: Heap {
                words: Some(words),
                segments,
                promotion,
                names,
                weaks: Weaks::new(alloc),
            },
            mutators,
            workers,
            inbox,
            positions,
            rows: Rows {
                rounds: PastRows::new(),
                stops: PastRows::new(),
                cycles: PastRows::new(),
            },
            cycle: CycleState {
                progress: Progress::Idle,
                begun: 0,
                collect: false,
                full: false,
                turns: 0,
                upper_turns: 0,
            },
            answered: None,
            report,
            marker_memory: MarkerMemory::new(alloc),
        })
    }

    /// Does a whole run of a script, and returns its report. A run is a stop, and then rounds, each with a stop after it,
    /// until a stop answers an end. In a round each mutator with commands left works in a thread of its own, and passes
    /// `gate` before each command that it tries. The collector passes it before each object that it scans and each segment
    /// that it sweeps. If a thread can't be started, the caller's thread does its work.
    ///
    /// The report is lawful: it reports one run of the script, to its end. Its words represent the last world, and word 0 and
    /// the words between g and the first segment are 0. It ends with `Done` if every command was answered. It ends with
    /// `HeapFull` exactly if a full cycle at the last stop left fewer segments free than the reserve, and commands are left.
    /// Then the last cycle kept more objects than there are segments above the reserve, and the world with which that full
    /// cycle began has more kept objects than that. Requires a script within the limits. After `NoMemory` the run is gone.
    pub fn run<R: Threads + Sync, G: Gate>(
        alloc: Global,
        rt: &R,
        script: &Script,
        gate: &G,
    ) -> Result<Report, NoMemory>
        requires { IsInLimits script.now }
        ensures { IfOk result (λ report. IsRunOf script.now report) }
    {
        let beginnings = vec![in alloc; 0u32; script.threads.items().len()]?;
        let mut programs = listed(alloc, script, beginnings.as_slice())?;
        Collector::run_programs(alloc, rt, &script.config, programs.as_mut_slice(), gate)
    }

    /// Does a whole run of a script as `run` does, and gives `observer` each event as it comes. A stop's event has its row and
    /// the rows of the cycles that ended at it, with their names in order. A round's event has its replies. Returns the
    /// collector and the run's end. No row is kept here, so a long run takes memory for the heap and for one round.
    ///
    /// The observer was given exactly the events of the run, in order. A run whose observer fails is given up, and so is one
    /// that needs memory and gets none. Then the observer was given the events of a lawful run so far. If it failed itself, it
    /// did at the last of them (clause `err`). Requires a script with at most 2^31 commands in all (`FitsRun`).
    pub fn run_observed<R: Threads + Sync, G: Gate, J: Observer>(
        alloc: Global,
        rt: &R,
        script: &Script,
        gate: &G,
        observer: &mut J,
    ) -> Result<(Collector, End), RunFault>
        requires { FitsRun script.now }
        ensures ok { IfOk result (λ ran. HasEnded script.now ran.0 ran.1 × ObservedRun J.steps observer.old ran.0 false observer.new) }
        ensures err { OnErr result (ObservedPart J.steps J.fails script.now observer.old observer.new) }
    {
        let mut collector = Collector::new(alloc, script)?;
        'stops: loop {
            let mut handed = StopRows::new(alloc);
            let answer = collector.stop(rt, script, &mut handed)?;
            observe_stop(observer, handed)?;
            match answer {
                StopEnd::GoOn => {
                    let rows = collector.round(rt, script, gate)?;
                    observer.observe(Event::Round(rows))?;
                }
                StopEnd::Done => return Ok((collector, End::Done)),
                StopEnd::HeapFull { free, reserve } => {
                    return Ok((collector, End::HeapFull { free, reserve }));
                }
            }
        }
    }

    /// Returns the mutators by number. After a round each has the remembered entries that it didn't send. Takes no memory.
    pub fn mutators(&self) -> &[Mutator]
        ensures { result.now ≡ self.now.mutators.items }
    {
        self.mutators.as_slice()
    }

    /// Returns the other ends of the mutators' rings, with the entries taken out of each since the last stop. Like `mutators`
    /// it serves callers that do rounds and stops: the clause `remembered` of `round` uses both. Takes no memory.
    pub fn inbox(&self) -> &Inbox
        ensures { result.now ≡ self.now.inbox }
    {
        &self.inbox
    }

    /// Returns the number of listed weak pointers: at a stop, of those that are alive and have a block. Takes memory and time for
    /// the list.
    pub fn count_weaks(&self) -> Result<usize, NoMemory>
        ensures { IfOk result (λ count. count ≡ length self.now.heap.weaks.list) }
    {
        let mut all = Vec::with_capacity(self.alloc, self.heap.weaks.length_bound())?;
        self.heap.weaks.list_into(&mut all);
        Ok(all.len())
    }

    /// Turns the collector into the report of its run, which is lawful. Requires that the last stop ended the run with `end`,
    /// and that `kept` has the run's rows. The report has these rows, the collector's words and segments, and each mutator's
    /// registers, queue and serial as they are. Puts the names in the cycles' rows in order. Takes no memory, and copies no word
    /// of the heap.
    pub fn into_report(self, kept: KeptRows, end: End) -> Report
        requires ended { (script : ScriptSeen) × HasEnded script self end }
        requires kept { (kept.rounds ≡ self.rows.rounds) × (kept.stops ≡ self.rows.stops) × (kept.cycles ≡ report_cycles self) }
        ensures parts { result ≡ report_of self end }
        ensures reported { (script : ScriptSeen) → HasEnded script self end → IsLawfulAtStop (plan_of script) result }
    {
        let Collector {
            alloc: _,
            heap,
            mutators,
            workers: _,
            inbox: _,
            positions: _,
            rows: _,
            cycle: _,
            answered: _,
            report,
            marker_memory: _,
        } = self;
        let Heap {
            words,
            segments,
            promotion: _,
            names: _,
            weaks,
        } = heap;
        let KeptRows {
            rounds,
            stops,
            cycles,
        } = kept;
        let cycles = cycles.into_rows();
        let words = words.unwrap().close();
        let ends = all_ends(mutators, report.ends);
        Report {
            rounds,
            stops,
            cycles,
            words: FinalWords::of_table(words),
            segments,
            mutators: List::from_vec_in(ends, report.mutators),
            weaks: weaks.into_names(report.weaks),
            end,
        }
    }
}

/// Gives an observer the rows of a stop. Requires that no row has a name twice. Takes no memory of its own.
pub(crate) fn observe_stop<J: Observer>(observer: &mut J, rows: StopRows) -> Result<(), RunFault>
    requires { All HasNamesOnce rows.cycles }
    ensures ok { OnOk result (ObservedStop J.steps observer.old rows.stop (map report_row rows.cycles) observer.new) }
    ensures err { OnErr result (FailedStop J.fails observer.old rows.stop (map report_row rows.cycles) observer.new) }
{
    let StopRows { stop, cycles } = rows;
    if let Some(row) = stop {
        let cycles = EndedCycles::of(cycles);
        observer.observe(Event::Stop { row, cycles })?;
    }
    Ok(())
}

// Returns `ends`, filled with the final registers, queue and serial of each mutator. `ends` has to be empty, with room.
fn all_ends(mutators: Vec<Mutator>, ends: Vec<MutatorEnd>) -> Vec<MutatorEnd>
    requires empty { ends.items ≡ [] }
    requires room { vec_len mutators ≤ vec_capacity ends }
    ensures { result.items ≡ map reported_end (map seen_mutator mutators.items) }
{
    let mut ends = ends;
    for mutator in mutators {
        ends.push_reserved(end_of(mutator));
    }
    ends
}

// Returns the final registers, queue and serial of a mutator.
fn end_of(mutator: Mutator) -> MutatorEnd
    ensures { result ≡ reported_end (seen_mutator mutator) }
{
    let Mutator {
        number: _,
        layout: _,
        registers,
        queue,
        queue_place,
        nursery: _,
        serial,
        turns: _,
        replies: _,
        recorded: _,
        young_weaks: _,
        updrem: _,
        ..
    } = mutator;
    MutatorEnd {
        registers: registers.into_list(),
        queue: queue.into_list(queue_place),
        serial,
    }
}
