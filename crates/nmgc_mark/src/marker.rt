//! The marker of one cycle: its beginning, and the effect of one mark. All marked addresses are in one list in the order of
//! marking. The queue is a stack: the object found last is scanned first, so a list of objects is followed to its end. An
//! address is queued at most once in a cycle, so neither the list nor the stack needs more room than there are blocks.
//!
//! Easy to get wrong: a pointer may lead to g or to a new object, and no block begins there. So each mark is a try, and a
//! single look-up finds whether a block begins at the address, and which block.
ghost use Rattle.std.specs.Prelude.{ℕ, ◌≡◌, ◌+◌, ◌-◌, ◌*◌, ◌^◌, ◌<◌, ◌≤◌, [], ◌∷◌, ◌↔◌, length, map, Contains, IsTrue, IfSome, IfNone, IfOk, OnErr};
ghost use Rattle.std.specs.List.{flat_map};
ghost use Rattle.nmgc_segment.specs.Marks.{IsEpoch};
ghost use Rattle.nmgc_alloc.specs.Segments.{IsBlockAt};
ghost use Rattle.nmgc_object.specs.{declared.layout.TheConstants.FIRST_PLACE, Layouts.IsLayout};
ghost use Rattle.nmgc_snapshot_laws.specs.State.{newest_first, opening_in};
ghost use Rattle.nmgc_round.specs.{View.Opening, Marking.Marks, Marking.marks_of, Marking.with_name, Marking.name_at, Marking.name_meant, Seat.IsAt, Seat.Knows, Seat.seen};
ghost use Rattle.nmgc_mark.specs.{Marker.HasRoomToMark, Marker.MarksAt, Marker.HasMarked, Marker.places, Marker.blank, Beginning.IsBeginning, Beginning.slots_of, Beginning.queue_words, Beginning.most_blocks, Tie.IsTied, Tie.with_places, Tie.with_words, Tie.with_queues};

use nmgc_alloc::Segments;
use nmgc_heap_spec::{HeapWords, MutatorRoots};
use nmgc_limits::SHARED_SLOTS;
use nmgc_lists::{NoMemory, Room};
use nmgc_object::{Address, FieldWord, HEADER_WORDS, Layout, MIN_BLOCK_WORDS, SHARED_PLACE};
use nmgc_round::{CollectorSeat, Round};
use std::alloc::Global;
use std::marker::Model;
use std::mem;

// The number of headers that the marker looks at before it scans their objects.
const AHEAD: u32 = 8;

/// The marker's work in a round: the number of objects it scanned, and whether the queue is empty.
#[derive(Clone, Copy, Debug, PartialEq, Eq)]
pub struct Work {
    pub scanned: u32,
    pub empty: bool,
}

/// The marker of a cycle. Contracts see its epoch, its queue of addresses, its room for further addresses, and the numbers of
/// blocks that it marked and of passes of the gate.
#[derive(Drop)]
pub struct Marker {
    /// The number of the collector's passes of the gate in the whole run. Once it is 2^64 - 1, it stays so.
    pub turns: u64,
    epoch: u8,
    found: Room<Address>,
    stack: Room<Address>,
    limit: u32,
}

impl Model for Marker {
    ghost use Rattle.std.specs.Prelude.{◌-◌, ◌+◌, ◌≤◌, reverse, length};
    ghost use Rattle.nmgc_segment.specs.Marks.{IsEpoch};
    ghost use Rattle.nmgc_mark.specs.{Seen.MarkerSeen, Marker.places};

    ghost Value = { MarkerSeen };

    ghost view = { λ m. record {
      epoch = m.epoch;
      queue = places (reverse m.stack.items);
      spare = m.limit - length m.found.items;
      marked = length m.found.items;
      turns = m.turns;
    } };

    ghost invariant = { λ m. IsEpoch m.epoch × (length m.stack.items ≤ length m.found.items) × (length m.found.items ≤ m.limit) × (m.limit ≤ length m.found.items + m.found.spare) × (m.limit ≤ length m.stack.items + m.stack.spare) };
}

/// The memory of the last cycle's marker, for the next marker. Contracts see nothing of it.
///
/// The C library gives a large list back to the system when it is freed. That would take time at each closing, for 4
/// bytes a mark, and the next marker would touch new pages. So both lists stay until the run ends, but their addresses don't.
#[derive(Drop)]
pub struct MarkerMemory {
    found: Room<Address>,
    stack: Room<Address>,
}

impl Model for MarkerMemory {
    ghost Value = { Unit {0} };

    ghost view = { λ _. tt };
}

impl MarkerMemory {
    /// Makes memory without room for any address. Takes no memory.
    pub fn new(alloc: Global) -> MarkerMemory {
        MarkerMemory {
            found: Room::new(alloc),
            stack: Room::new(alloc),
        }
    }

    /// Keeps the memory of a marker whose cycle was closed. Takes no memory.
    pub fn keep(&mut self, marker: Marker)
        ensures { self.new ≡ self.old }
    {
        let Marker {
            turns: _,
            epoch: _,
            found,
            stack,
            limit: _,
        } = marker;
        self.found = found;
        self.stack = stack;
    }
}

// Lends a list's memory, as an empty list, and leaves a list without memory. Takes no memory.
fn lend(list: &mut Room<Address>, alloc: Global) -> Room<Address>
    ensures { result.items ≡ [] }
{
    let mut lent = mem::replace(list, Room::new(alloc));
    lent.clear();
    lent
}

/// Returns the greatest number of blocks that can be in use in a heap of this layout. Takes no memory.
pub fn most_blocks(layout: Layout) -> u32
    requires { IsLayout layout }
    ensures { result ≡ most_blocks layout }
{
    layout.segments * layout.words / MIN_BLOCK_WORDS
}

impl Marker {
    /// Makes a marker that has marked nothing, with room for `blocks` blocks, and takes no other memory. Its `turns` is 0.
    pub fn blank(alloc: Global, epoch: u8, blocks: u32) -> Result<Marker, NoMemory>
        requires { IsEpoch epoch }
        ensures { IfOk result (λ marker. marker ≡ blank epoch blocks) }
    {
        Marker::over(Room::new(alloc), Room::new(alloc), epoch, blocks)
    }

    // The same in empty lists, which take memory only if they have room for fewer blocks.
    fn over(
        found: Room<Address>,
        stack: Room<Address>,
        epoch: u8,
        blocks: u32,
    ) -> Result<Marker, NoMemory>
        requires epoch { IsEpoch epoch }
        requires found { found.items ≡ [] }
        requires stack { stack.items ≡ [] }
        ensures { IfOk result (λ marker. marker ≡ blank epoch blocks) }
    {
        let mut found = found;
        found.reserve(blocks)?;
        let mut stack = stack;
        stack.reserve(blocks)?;
        Ok(Marker {
            turns: 0,
            epoch,
            found,
            stack,
            limit: blocks,
        })
    }

    /// Makes the marker of a cycle that begins. The marker has marked and queued the targets of registers, finaliser queues
    /// and slots of g, in this order. The marking machine opens with these marks and this queue. Requires that marking may
    /// begin (`IsBeginning`): no mark byte is the epoch, and blocks and roots are the snapshot's. The marker has room for
    /// every block. This room is the last marker's memory, which `memory` gives away, or else new memory. Takes no other
    /// memory. The marker's `turns` is 0. After `NoMemory` no block was marked.
    pub fn snapshot<W: HeapWords, M: MutatorRoots>(
        alloc: Global,
        memory: &mut MarkerMemory,
        words: &mut W,
        segments: &mut Segments,
        mutators: &[M],
        epoch: u8,
    ) -> Result<Marker, NoMemory>
        requires epoch { IsEpoch epoch }
        requires inside { FIRST_PLACE ≤ length (W.words words.old) }
        requires begins { (o : Opening) × IsBeginning o segments.old epoch (W.words words.old) (flat_map M.registers mutators.now) (map M.queue mutators.now) }
        ensures memory { memory.new ≡ memory.old }
        ensures words { W.words words.new ≡ W.words words.old }
        ensures marked { IfOk result (λ marker. HasMarked segments.old segments.new (blank epoch (most_blocks segments.old.layout)) marker 0) }
        ensures turns { IfOk result (λ marker. marker.turns ≡ 0) }
        ensures err { OnErr result (segments.new ≡ segments.old) }
        ensures tied { IfOk result (λ marker. (o : Opening) →
            IsBeginning o segments.old epoch (W.words words.old) (flat_map M.registers mutators.now) (map M.queue mutators.now) →
            IsTied o (marks_of (opening_in newest_first o.core.snapshot)) segments.new marker) }
    {
        let blocks = most_blocks(segments.layout());
        let found = lend(&mut memory.found, alloc);
        let stack = lend(&mut memory.stack, alloc);
        let mut marker = Marker::over(found, stack, epoch, blocks)?;
        marker.mark_registers(segments, mutators);
        marker.mark_queues(segments, mutators);
        marker.mark_shared(words, segments);
        Ok(marker)
    }

    // Marks and queues the target of each word, in order, if the target is a block of the snapshot that isn't marked yet.
    fn mark_all(&mut self, segments: &mut Segments, words: &[u64])
        requires room { HasRoomToMark segments.old self.old }
        requires small { (w at : ℕ) → Contains words.now w → w ≡ 2 * at → at < 2 ^ 32 }
        ensures marked { HasMarked segments.old segments.new self.old self.new 0 }
        ensures turns { self.new.turns ≡ self.old.turns }
        ensures tied { (o : Opening) (m : Marks) → IsTied o m segments.old self.old → IsTied o (with_words o m words.now) segments.new self.new }
    {
        for word in words {
            self.mark_word(segments, *word);
        }
    }

    // Marks and queues the targets of the mutators' registers, as `mark_all` does.
    fn mark_registers<M: MutatorRoots>(&mut self, segments: &mut Segments, mutators: &[M])
        requires room { HasRoomToMark segments.old self.old }
        requires small { (w at : ℕ) → Contains (flat_map M.registers mutators.now) w → w ≡ 2 * at → at < 2 ^ 32 }
        ensures marked { HasMarked segments.old segments.new self.old self.new 0 }
        ensures turns { self.new.turns ≡ self.old.turns }
        ensures tied { (o : Opening) (m : Marks) → IsTied o m segments.old self.old →
            IsTied o (with_words o m (flat_map M.registers mutators.now)) segments.new self.new }
    {
        for mutator in mutators {
            self.mark_all(segments, mutator.registers());
        }
    }

    // Marks and queues the targets of the mutators' finaliser queues, as `mark_all` does.
    fn mark_queues<M: MutatorRoots>(&mut self, segments: &mut Segments, mutators: &[M])
        requires room { HasRoomToMark segments.old self.old }
        requires small { (w at : ℕ) → Contains (queue_words (map M.queue mutators.now)) w → w ≡ 2 * at → at < 2 ^ 32 }
        ensures marked { HasMarked segments.old segments.new self.old self.new 0 }
        ensures turns { self.new.turns ≡ self.old.turns }
        ensures tied { (o : Opening) (m : Marks) → IsTied o m segments.old self.old →
            IsTied o (with_queues o m (map M.queue mutators.now)) segments.new self.new }
    {
        for mutator in mutators {
            self.mark_all(segments, mutator.queue().words());
        }
    }

    // Marks and queues the targets of the slots of g, as `mark_all` does.
    fn mark_shared<W: HeapWords>(&mut self, words: &mut W, segments: &mut Segments)
        requires room { HasRoomToMark segments.old self.old }
        requires inside { FIRST_PLACE ≤ length (W.words words.old) }
        requires small { (w at : ℕ) → Contains (slots_of (W.words words.old)) w → w ≡ 2 * at → at < 2 ^ 32 }
        ensures words { W.words words.new ≡ W.words words.old }
        ensures marked { HasMarked segments.old segments.new self.old self.new 0 }
        ensures turns { self.new.turns ≡ self.old.turns }
        ensures tied { (o : Opening) (m : Marks) → IsTied o m segments.old self.old →
            IsTied o (with_words o m (slots_of (W.words words.old))) segments.new self.new }
    {
        let first = (SHARED_PLACE + HEADER_WORDS) as usize;
        for slot in 0..usize::from(SHARED_SLOTS) {
            let word = words.load(first + slot);
            self.mark_word(segments, word);
        }
    }

    /// Marks and queues the block at each of the remembered addresses `entries`, in order, if it is in the snapshot and not
    /// marked yet. In the marking machine this marks the names at these addresses. An address without a block is passed over.
    /// The count of the gate's passes stays.
    pub fn add(&mut self, segments: &mut Segments, entries: &[Address])
        requires { HasRoomToMark segments.old self.old }
        ensures marked { HasMarked segments.old segments.new self.old self.new 0 }
        ensures turns { self.new.turns ≡ self.old.turns }
        ensures tied { (o : Opening) (m : Marks) → IsTied o m segments.old self.old → IsTied o (with_places o m (places entries.now)) segments.new self.new }
    {
        for at in entries {
            self.mark_at(segments, *at);
        }
    }

    /// Marks and queues block `block` of segment `number`, which begins at the address `at`, if it is in the snapshot and not
    /// marked yet. A caller that has found the block needs no second look-up. The count of the gate's passes stays.
    pub fn mark_block(&mut self, segments: &mut Segments, at: Address, number: u32, block: u32)
        requires room { HasRoomToMark segments.old self.old }
        requires begins { IsBlockAt segments.old number block at.0 }
        ensures marked { HasMarked segments.old segments.new self.old self.new 0 }
        ensures turns { self.new.turns ≡ self.old.turns }
        ensures tied { (o : Opening) (m : Marks) → IsTied o m segments.old self.old →
            IsTied o (with_name o.core.snapshot m (name_at o.places at.0)) segments.new self.new }
    {
        let epoch = self.epoch();
        let _ = segments.layout();
        if segments.try_mark(number, block, epoch) {
            self.queue(at);
        }
    }

    /// Returns the epoch with which blocks are marked. Takes no memory, like every call except `blank` and `snapshot`.
    pub fn epoch(&self) -> u8
        ensures epoch { result ≡ self.now.epoch }
        ensures sound { IsEpoch self.now.epoch }
    {
        // Note [Lines that do nothing] in `nmgc_alloc`: this gives the prover that the epoch is valid.
        let _ = &self.found;
        self.epoch
    }

    /// Returns the number of blocks that this marker marked, including the blocks of the snapshot's roots.
    pub fn marked(&self) -> u32
        ensures { result ≡ self.now.marked }
    {
        let _limit = self.limit;
        self.found.items().len() as u32
    }

    /// Returns the address of the block that this marker marked after `number` other blocks, and `None` exactly if it marked
    /// at most `number` blocks. So asking for 0, 1, 2 and so on gives each block once. No clause says which address it is: it
    /// is a hint where to look, and the segments say which blocks are marked. Takes no memory, and constant time.
    pub fn nth_marked(&self, number: u32) -> Option<Address>
        ensures some { IfSome result (λ at. number < self.now.marked) }
        ensures none { IfNone result (self.now.marked ≤ number) }
        ensures few { self.now.marked < 2 ^ 32 }
    {
        let _limit = self.limit;
        self.found.items().get(number as usize).copied()
    }

    /// Whether the queue is empty, so that no object waits to be scanned.
    pub fn is_empty(&self) -> bool
        ensures { IsTrue result ↔ (self.now.queue ≡ []) }
    {
        self.stack.items().is_empty()
    }

    /// Takes the first address off the queue and returns it, or returns `None` exactly if the queue is empty. The block at
    /// the address stays marked, and the caller has to scan it. Takes no memory.
    pub fn take_first(&mut self) -> Option<Address>
        ensures some { IfSome result (λ at. (self.old.queue ≡ at.0 ∷ self.new.queue) × (self.new ≡ record self.old { queue = self.new.queue })) }
        ensures none { IfNone result ((self.old.queue ≡ []) × (self.new ≡ self.old)) }
    {
        self.stack.take_last()
    }

    // If `scanned` is a multiple of `AHEAD`, looks at the headers of the first `AHEAD` objects in the queue, or of all if
    // there are fewer. Headers lie far apart, so the waits for memory overlap. The seat's view stays.
    pub(crate) fn look_ahead(&self, round: &Round, seat: &mut CollectorSeat, scanned: u32)
        requires { IsAt round.now seat.old }
        ensures { Knows round.now seat.old seat.new (seen seat.old) }
    {
        if scanned % AHEAD != 0 {
            return;
        }
        let waiting = self.stack.items();
        let end = waiting.len();
        for index in end.saturating_sub(AHEAD as usize)..end {
            round.look_ahead(seat, waiting[index]);
        }
    }

    // Puts the address of a block that was just marked in front of the queue, and counts the block. Requires room for it.
    fn queue(&mut self, at: Address)
        requires { 0 < self.old.spare }
        ensures { self.new ≡ record self.old { queue = at.0 ∷ self.old.queue; spare = self.old.spare - 1; marked = self.old.marked + 1 } }
    {
        self.found.add(at);
        self.stack.add(at);
    }

    // Marks and queues the block that begins at an address, if a block of the snapshot begins there and isn't marked yet.
    fn mark_at(&mut self, segments: &mut Segments, at: Address)
        requires { HasRoomToMark segments.old self.old }
        ensures { MarksAt segments.old segments.new self.old self.new at.0 }
    {
        let epoch = self.epoch();
        let _ = segments.layout();
        if segments.try_mark_at(at, epoch) {
            self.queue(at);
        }
    }

    /// Marks and queues the target of a field's word, if the target is an unmarked block of the snapshot. `turns` stays.
    pub fn mark_word(&mut self, segments: &mut Segments, word: u64)
        requires room { HasRoomToMark segments.old self.old }
        requires small { (at : ℕ) → word ≡ 2 * at → at < 2 ^ 32 }
        ensures marked { HasMarked segments.old segments.new self.old self.new 0 }
        ensures turns { self.new.turns ≡ self.old.turns }
        ensures tied { (o : Opening) (m : Marks) → IsTied o m segments.old self.old →
            IsTied o (with_name o.core.snapshot m (name_meant o.places word)) segments.new self.new }
    {
        let Some(at) = FieldWord(word).place() else {
            return;
        };
        if at == 0 {
            return;
        }
        self.mark_at(segments, Address(at as u32));
    }
}
