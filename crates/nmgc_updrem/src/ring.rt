//! A ring of blocks from a mutator to the collector, and its two ends.
//!
//! The mutator puts full blocks in while the collector takes them out; neither waits for the other. Each end knows its own
//! calls. No clause says that an end looks at the other's progress; tests check it. At a stop one thread has both ends: the
//! blocks received and the blocks in the ring are exactly the blocks sent, in order. The thread empties the ring: then the
//! ends are *level*. In clauses `since` has the entries sent since both ends were last found level (`level`).
//!
//! Before each object that it scans, the marker polls every ring, and nearly always finds nothing. So a call asks first
//! whether there is a block, or a slot, and only then has a block among its locals.
//!
//! Easy to get wrong: a sender that finds no slot keeps its block. An object whose address is lost is never marked.
ghost use Rattle.std.specs.Prelude.{◌≡◌, ◌+◌, ◌<◌, ◌≤◌, ◌↔◌, List, [], ◌∷◌, ◌++◌, length, take, IsTrue, IsNone, IfOk, IfSome, IfNone, OnOk, OnErr, vec_len, vec_capacity};
ghost use Rattle.rtrb.specs.Ring.{received, known_items, SameConsumer};
ghost use Rattle.nmgc_object.specs.declared.words.Address.{Address};
ghost use Rattle.nmgc_updrem.specs.{declared.block.TheConstants.BLOCK_ENTRIES, declared.poll.Poll.TheVariants.NoRoom, declared.ring.TheConstants.RING_BLOCKS};
ghost use Rattle.nmgc_updrem.specs.Rings.{IsPair, AreNew, HasSent, HasLooked, HasReceived, KnowsNone, Polls, HasMet, TakesRest, IsLevel};

use crate::block::{BLOCK_ENTRIES, UpdBlock};
use crate::level::Level;
use crate::poll::Poll;
use nmgc_lists::NoMemory;
use nmgc_object::Address;
use rtrb::{Consumer, Producer, RingBuffer};
use std::alloc::Global;
use std::marker::Model;

/// The number of blocks for which a ring has room.
pub const RING_BLOCKS: usize = 64;

/// A mutator's end of a ring, which puts blocks into the ring. It may move to another thread.
#[derive(Drop)]
pub struct UpdSender {
    producer: Producer<UpdBlock>,
    // The producer when both ends were last found level. It has no bytes.
    level: Level<Producer<UpdBlock>>,
}

impl Model for UpdSender {
    ghost use Rattle.std.specs.Prelude.{◌≤◌, take, drop, length};
    ghost use Rattle.rtrb.specs.Ring.{sent, known_free};
    ghost use Rattle.nmgc_updrem.specs.Rings.{Sender, entries_of};

    ghost Value = { Sender };

    ghost view = { λ s. record {
      ring = record { words = s.producer.end.words; slots = s.producer.end.slots; names = s.producer.end.names; heap = s.producer.end.heap };
      before = entries_of (take (length (sent s.level.value)) (sent s.producer));
      since = entries_of (drop (length (sent s.level.value)) (sent s.producer));
      free = known_free s.producer;
    } };

    ghost invariant = { λ s. length (sent s.level.value) ≤ length (sent s.producer) };
}

/// The collector's end of a ring, which takes blocks out of the ring, with a list of entries. It may move to another thread.
#[derive(Drop)]
pub struct UpdReceiver {
    consumer: Consumer<UpdBlock>,
    entries: Vec<Address>,
}

impl Model for UpdReceiver {
    ghost use Rattle.std.specs.Prelude.{◌-◌, vec_len, vec_capacity};
    ghost use Rattle.rtrb.specs.Ring.{received, known_items};
    ghost use Rattle.nmgc_updrem.specs.Rings.{Receiver, entries_of};

    ghost Value = { Receiver };

    ghost view = { λ r. record {
      ring = record { words = r.consumer.end.words; slots = r.consumer.end.slots; names = r.consumer.end.names; heap = r.consumer.end.heap };
      received = entries_of (received r.consumer);
      known = entries_of (known_items r.consumer);
      taken = record { items = r.entries.items; spare = vec_capacity r.entries - vec_len r.entries };
    } };
}

/// Makes an empty ring with room for `RING_BLOCKS` blocks, and returns its two ends. Later only `reserve` takes memory.
pub fn link(alloc: Global) -> Result<(UpdSender, UpdReceiver), NoMemory>
    ensures { IfOk result (λ ends. AreNew RING_BLOCKS ends.0 ends.1) }
{
    let (producer, consumer) = RingBuffer::new(alloc, RING_BLOCKS)?;
    let level = Level::of(&producer);
    let receiver = UpdReceiver {
        consumer,
        entries: Vec::new(alloc),
    };
    Ok((UpdSender { producer, level }, receiver))
}

impl UpdSender {
    // Returns whether this end knows of no free slot. It may look at the receiver first. Known free slots stay known.
    pub(crate) fn is_full(&mut self) -> bool
        ensures looked { HasLooked self.old self.new }
        ensures value { IsTrue result ↔ (self.new.free ≡ 0) }
        ensures kept { self.old.free ≤ self.new.free }
    {
        self.producer.is_full()
    }

    // Puts the first `BLOCK_ENTRIES` addresses of a list into the ring as a block. The list has to have that many, and this
    // end has to know of a free slot. The call isn't inlined, so that memory for a block is cleared only if a block is sent.
    #[inline(never)]
    pub(crate) fn send(&mut self, places: &[Address])
        requires full { BLOCK_ENTRIES ≤ length places.now }
        requires free { 0 < self.old.free }
        ensures { HasSent self.old self.new (take BLOCK_ENTRIES places.now) }
    {
        self.producer.push_reserved(UpdBlock::of(places));
    }
}

impl UpdReceiver {
    /// Takes the oldest block out of the ring and returns it. The list of entries stays. Returns `None` only if this end knew
    /// of no block when it looked. Takes no memory, constant time, and never waits.
    pub fn take(&mut self) -> Option<UpdBlock>
        ensures some { IfSome result (λ block. HasReceived self.old self.new block × (self.new.taken ≡ self.old.taken)) }
        ensures none { IfNone result (KnowsNone self.old self.new) }
    {
        if self.consumer.is_empty() {
            return None;
        }
        Some(self.consumer.pop_known())
    }

    /// Makes room for at least `entries` more entries in the list. Its entries stay. After `NoMemory` nothing changed.
    pub fn reserve(&mut self, entries: u32) -> Result<(), NoMemory>
        ensures rest { self.new ≡ record self.old { taken = self.new.taken } }
        ensures items { self.new.taken.items ≡ self.old.taken.items }
        ensures ok { OnOk result (entries ≤ self.new.taken.spare) }
        ensures kept { self.old.taken.spare ≤ self.new.taken.spare }
        ensures err { OnErr result (self.new ≡ self.old) }
    {
        self.entries.reserve(entries as usize)?;
        Ok(())
    }

    /// Takes the oldest block out of the ring, appends its entries to the list, and returns `Took`. Returns `NoRoom`, without
    /// a look into the ring, exactly if the list has room for fewer than `BLOCK_ENTRIES` entries. Returns `Nothing` if this
    /// end knew of no block when it looked. Takes no memory, and never waits.
    pub fn poll(&mut self) -> Poll
        ensures polls { Polls self.old self.new result }
        ensures room { (result ≡ NoRoom) ↔ (self.old.taken.spare < BLOCK_ENTRIES) }
    {
        if self.entries.capacity() - self.entries.len() < BLOCK_ENTRIES {
            return Poll::NoRoom;
        }
        if self.consumer.slots() == 0 {
            return Poll::Nothing;
        }
        receive(&mut self.consumer, &mut self.entries);
        Poll::Took
    }

    /// Returns the entries that polls took since the last `clear`, from the oldest on.
    pub fn entries(&self) -> &[Address]
        ensures { result.now ≡ self.now.taken.items }
    {
        self.entries.as_slice()
    }

    /// Empties the list of entries. The list keeps its room.
    pub fn clear(&mut self)
        ensures rest { self.new ≡ record self.old { taken = self.new.taken } }
        ensures items { self.new.taken.items ≡ [] }
        ensures kept { self.new.taken.spare ≡ self.old.taken.spare + length self.old.taken.items }
    {
        self.entries.clear();
    }

    // Looks into the ring, in a thread that has both of its ends, and moves no entry. Afterwards clauses know that the
    // entries received, then those in the ring, are all entries sent.
    pub(crate) fn meet(&mut self, sender: &mut UpdSender)
        requires { IsPair sender.old self.old }
        ensures { HasMet self.old self.new sender.old sender.new }
    {
        self.consumer.slots_beside(&mut sender.producer);
    }

    /// Takes the oldest block out of the ring and returns it, in a thread that has both of its ends. Returns `None` exactly
    /// if the ring is empty, so a loop takes all the rest. After `None` both ends are level: the sender's `before` has all
    /// entries sent, and `since` has none. Takes no memory.
    pub fn take_rest(&mut self, sender: &mut UpdSender) -> Option<UpdBlock>
        requires { IsPair sender.old self.old }
        ensures some { IfSome result (λ block. TakesRest self.old self.new sender.old sender.new block) }
        ensures none { IfNone result (IsLevel self.old self.new sender.old sender.new) }
    {
        if self.consumer.slots_beside(&mut sender.producer) == 0 {
            sender.level = Level::of(&sender.producer);
            return None;
        }
        Some(self.consumer.pop_known())
    }
}

// Takes the oldest block out of a ring, and appends its entries to a list that has room for them. `consumer` has to know of a
// block. The call isn't inlined, so that a poll that finds nothing clears no memory for a block.
#[inline(never)]
fn receive(consumer: &mut Consumer<UpdBlock>, entries: &mut Vec<Address>)
    requires known { 0 < length (known_items consumer.old) }
    requires room { vec_len entries.old + BLOCK_ENTRIES ≤ vec_capacity entries.old }
    ensures ring { SameConsumer consumer.old consumer.new }
    ensures taken { (block : List Address) × (length block ≡ BLOCK_ENTRIES) × (received consumer.new ≡ received consumer.old ++ block ∷ []) ×
        (entries.new.items ≡ entries.old.items ++ block) }
    ensures capacity { vec_capacity entries.old ≤ vec_capacity entries.new }
{
    let block = consumer.pop_known();
    append(entries, &block);
}

// Appends the entries of a block to a list that has room for them.
fn append(entries: &mut Vec<Address>, block: &UpdBlock)
    requires { vec_len entries.old + BLOCK_ENTRIES ≤ vec_capacity entries.old }
    ensures items { entries.new.items ≡ entries.old.items ++ block.now }
    ensures len { vec_len entries.new ≡ vec_len entries.old + BLOCK_ENTRIES }
    ensures capacity { vec_capacity entries.old ≤ vec_capacity entries.new }
{
    if entries.extend_from_slice(block.entries()).is_err() {
        unreachable!()
    }
}
