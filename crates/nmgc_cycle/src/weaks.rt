//! Weak pointers at a stop: which leave the list, which join it, and how finalisers get into the queues.
//!
//! The list has the weak pointers that are alive and have a block, in a row for each maker (`nmgc_weak`). A round leaves it
//! as it is. At the stop after it, weak pointers that were finalised leave, and those that were promoted alive join. A
//! closing may not run out of memory half way, so from the snapshot on the queues have room for all its finalisers.
//!
//! Mutators note the weak pointers that they finalise, so a stop looks at these notes, and not through the list. New weak
//! pointers join at the end of their maker's row. So a stop takes time for the changes of the round, except when more than
//! half of a row has left (`Weaks::remove_if_dead`).
//!
//! Easy to get wrong: after the promotion no fact describes a weak pointer that was finalised in the round, and its words
//! mean nothing. So these weak pointers leave before the promotion, while contracts still describe the world at the round's
//! beginning. New weak pointers join after it, at their new addresses.
ghost use Rattle.std.specs.Prelude.{ℕ, ◌≡◌, ◌≢◌, ◌+◌, ◌<◌, ◌≤◌, ◌^◌, length, Contains, IfOk, OnOk, IsSome, IsTrue};
ghost use Rattle.nmgc_world_spec.specs.Reach.{IsInOrder};
ghost use Rattle.nmgc_object.specs.{declared.size.TheConstants.HEADER_WORDS, declared.words.Address.Address as Place};
ghost use Rattle.nmgc_weak.specs.{Queues.HaveRoom, Rows.IsNamedAt, Rows.left_of, Weaks.alive_of, Weaks.names_of, Weaks.value_place, declared.weaks.OldWeak.OldWeak as Old};
ghost use Rattle.nmgc_mutator.specs.Records.{numbers};
ghost use Rattle.nmgc_collector_laws.specs.Worked.{finalised_of};
ghost use Rattle.nmgc_cycle.specs.{Roots.queues_in, Shown.died, Shown.words_in};
ghost use Rattle.nmgc_cycle.specs.Listed.{is_alive_at, moved_weaks, AreMovedInside, CanJoin, IsMergeOf, FinalisedAreListed, FinalisedLeft, MovedJoined, count_made_by, HasQueueRoom, HaveQueueRoom, FinalisersQueued};

use crate::Collector;
use nmgc_heap_spec::HeapWords;
use nmgc_lists::{List, NoMemory};
use nmgc_minor::Move;
use nmgc_mutator::Mutator;
use nmgc_object::words::{WEAK_FIELDS, encode_header};
use nmgc_object::{Address, HEADER_WORDS, Header};
use nmgc_weak::{Death, OldWeak, Weaks, queue_finalisers};
use nmgc_world_spec::{Kind, Name};
use std::alloc::Global;

// Whether the object at an address is a weak pointer that is alive.
fn is_alive<W: HeapWords>(words: &mut W, at: Address) -> bool
    requires { at.0 + (HEADER_WORDS + 1) < length (W.words words.old) }
    ensures words { W.words words.new ≡ W.words words.old }
    ensures alive { result ≡ is_alive_at (W.words words.old) at.0 }
{
    let header = encode_header(Header {
        kind: Kind::Weak,
        tag: 0,
        fields: WEAK_FIELDS,
    });
    words.load(at.0 as usize) == header
        && words.load(at.0 as usize + HEADER_WORDS as usize + 1) != 0
}

// Returns the moved objects that are weak pointers and alive, at their new addresses, in the order of `moves`.
fn gather_moved<W: HeapWords>(
    alloc: Global,
    moves: &[Move],
    words: &mut W,
) -> Result<Vec<OldWeak>, NoMemory>
    requires { AreMovedInside (W.words words.old) moves.now }
    ensures words { OnOk result (W.words words.new ≡ W.words words.old) }
    ensures gathered { IfOk result (λ fresh. fresh.items ≡ moved_weaks (W.words words.old) moves.now) }
{
    let mut fresh = Vec::new(alloc);
    for moved in moves {
        if is_alive(words, moved.to) {
            fresh.push(OldWeak {
                weak: moved.name,
                at: moved.to,
            })?;
        }
    }
    Ok(fresh)
}

// Adds weak pointers in order of names to the list. Requires that the list has room and none of their names.
fn join_all(weaks: &mut Weaks, fresh: &[OldWeak])
    requires room { length fresh.now ≤ weaks.old.spare }
    requires ordered { IsInOrder (names_of fresh.now) }
    requires new { (one other : Old) → Contains fresh.now one → Contains weaks.old.list other → other.weak ≢ one.weak }
    ensures joins { IsMergeOf weaks.old.list fresh.now weaks.new.list }
    ensures deaths { weaks.new.deaths ≡ weaks.old.deaths }
{
    weaks.add_all(fresh);
}

// Takes each weak pointer at one of the addresses `finalised` off the list, if its value word is 0. The deaths stay.
fn remove_each<W: HeapWords>(weaks: &mut Weaks, words: &mut W, finalised: &[Address])
    requires inside { (at : Place) → Contains finalised.now at → value_place at.0 < length (W.words words.old) }
    requires named { (at : ℕ) → IsNamedAt (W.words words.old) at weaks.old.list }
    ensures words { W.words words.new ≡ W.words words.old }
    ensures list { weaks.new.list ≡ left_of (W.words words.old) (numbers finalised.now) weaks.old.list }
    ensures deaths { weaks.new.deaths ≡ weaks.old.deaths }
{
    for at in finalised {
        weaks.remove_if_dead(words, *at);
    }
}

// Takes all dead weak pointers off the list. Requires that the mutators noted each of them as finalised.
fn remove_noted<W: HeapWords>(weaks: &mut Weaks, words: &mut W, mutators: &[Mutator])
    requires { FinalisedAreListed (W.words words.old) weaks.old.list (finalised_of mutators.now) }
    ensures words { W.words words.new ≡ W.words words.old }
    ensures list { weaks.new.list ≡ alive_of (W.words words.old) weaks.old.list }
    ensures deaths { weaks.new.deaths ≡ weaks.old.deaths }
{
    for mutator in mutators {
        remove_each(weaks, words, mutator.finalised());
    }
}

impl Collector {
    // Takes all dead weak pointers off the heap's list. Requires that the mutators noted each of them as finalised.
    pub(crate) fn remove_finalised(&mut self)
        requires words { IsSome self.old.heap.words }
        requires reported { FinalisedAreListed (words_in self.old.heap.words) self.old.heap.weaks.list (finalised_of self.old.mutators.items) }
        ensures { FinalisedLeft self.old self.new }
    {
        let Some(words) = &mut self.heap.words else {
            unreachable!()
        };
        remove_noted(&mut self.heap.weaks, words, self.mutators.as_slice());
    }

    // Adds the weak pointers that were promoted and are alive to the heap's list, which may have none of their names yet.
    pub(crate) fn add_moved(&mut self) -> Result<(), NoMemory>
        requires words { IsSome self.old.heap.words }
        requires can { CanJoin (words_in self.old.heap.words) self.old.heap.weaks.list self.old.heap.promotion.moves }
        ensures { OnOk result (MovedJoined self.old self.new) }
    {
        let Some(words) = &mut self.heap.words else {
            unreachable!()
        };
        let fresh = gather_moved(self.alloc, self.heap.promotion.moves(), words)?;
        self.heap.weaks.reserve(fresh.len() as u32)?;
        join_all(&mut self.heap.weaks, fresh.as_slice());
        Ok(())
    }
}

// Makes room in a mutator's queue for a finaliser of each listed weak pointer that the mutator made.
fn reserve_queue(mutator: &mut Mutator, weaks: &Weaks) -> Result<(), NoMemory>
    ensures { OnOk result (HasQueueRoom (count_made_by mutator.old.number weaks.now.list) mutator.old mutator.new) }
{
    // The count of a heap's weak pointers always fits.
    let Ok(own) = u32::try_from(weaks.count_bound(mutator.number)) else {
        return Err(NoMemory);
    };
    mutator.queue.reserve(own)
}

/// Makes room in each mutator's queue for a finaliser of each listed weak pointer that the mutator made.
pub fn reserve_queues(mutators: &mut [Mutator], weaks: &Weaks) -> Result<(), NoMemory>
    ensures { OnOk result (HaveQueueRoom weaks.now.list mutators.old mutators.new) }
{
    for mutator in mutators {
        reserve_queue(mutator, weaks)?;
    }
    Ok(())
}

/// Adds each death's finaliser, unless it is nil, to the queue of the weak pointer's maker. Requires room. Takes no memory.
pub fn queue_all(deaths: &[Death], mutators: &mut [Mutator])
    requires { HaveRoom deaths.now (queues_in mutators.old) }
    ensures { FinalisersQueued deaths.now mutators.old mutators.new }
{
    queue_finalisers(deaths, mutators);
}

/// Returns the names of the weak pointers that died, in the order of the deaths.
pub fn dead_names(alloc: Global, deaths: &[Death]) -> Result<List<Name>, NoMemory>
    ensures { IfOk result (λ names. names ≡ died deaths.now) }
{
    List::from_vec(collect_dead(alloc, deaths)?)
}

// Returns the names of the weak pointers that died, in the order of the deaths, as a vector.
fn collect_dead(alloc: Global, deaths: &[Death]) -> Result<Vec<Name>, NoMemory>
    ensures { IfOk result (λ names. names.items ≡ died deaths.now) }
{
    Ok(deaths.iter().map(|death| death.weak).collect(alloc)?)
}
