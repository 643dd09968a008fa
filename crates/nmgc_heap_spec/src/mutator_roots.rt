//! The state of a mutator outside the heap's words, read and changed in place.
//!
//! At a stop registers and finaliser queues are roots, for promotion and for the snapshot of a cycle, and a closing adds to
//! the queues. The stop also needs the nursery, and the lists that the round left. All of this lies in the mutators, which
//! are defined above this crate. So a stop's code goes over the mutators by this trait, and takes nothing out of them.
//!
//! Easy to get wrong: a change of the registers leaves the queue, a change of the queue leaves the registers, and neither
//! changes nursery or lists. The trait's laws say so. Without them a generic caller would know nothing of the other parts.
ghost use Rattle.std.specs.{Prelude.◌≡◌, Prelude.ℕ, Prelude.List, Prelude.[], Prelude.length, Borrow.sem, Borrow.Lends, Borrow.Array, Borrow.u64};
ghost use Rattle.nmgc_object.specs.{FinQueue.FinQueue as Queue, declared.layout.Nursery.Nursery as NurserySeen, declared.words.Address.Address as Place};
ghost use Rattle.nmgc_object.specs.contracts.fin_queue.FinQueue as queues;
ghost use Rattle.nmgc_heap_spec.specs.Emptied.{emptied};

use nmgc_object::{Address, FinQueue, Nursery};

/// A mutator at a stop, as far as the collector reads and changes it. No call takes memory.
pub trait MutatorRoots {
    // The results of the calls below.
    ghost registers: { Self → List ℕ };

    ghost queue: { Self → Queue };

    ghost nursery: { Self → NurserySeen };

    ghost recorded: { Self → List Place };

    ghost young_weaks: { Self → List Place };

    // The mutator with `words` in its registers.
    ghost with_registers: { Self → List ℕ → Self };

    // The mutator with another queue.
    ghost with_queue: { Self → Queue → Self };

    // The mutator with an empty nursery, and without fields recorded and weak pointers made or finalised in the round.
    ghost after_stop: { Self → Self };

    /// Returns the field words of the mutator's registers.
    fn registers(&self) -> &[u64]
        ensures { result.now ≡ registers self.now };

    /// Lends the field words of the mutator's registers, to be changed.
    fn registers_mut(&mut self) -> &mut [u64]
        ensures* writes_back { sem 𝓛 (Lends Self.row (Array u64 0) self.entry result (with_registers self.entry.now)) }
        ensures value { result.now ≡ registers self.old };

    /// Returns the queue of the mutator's finalisers.
    fn queue(&self) -> &FinQueue
        ensures { result.now ≡ queue self.now };

    /// Lends the queue of the mutator's finalisers, to be changed.
    fn queue_mut(&mut self) -> &mut FinQueue
        ensures* writes_back { sem 𝓛 (Lends Self.row queues.the_row self.entry result (with_queue self.entry.now)) }
        ensures value { result.now ≡ queue self.old };

    /// Returns the mutator's nursery.
    fn nursery(&self) -> Nursery
        ensures { result ≡ nursery self.now };

    /// Returns the addresses of the fields that the mutator recorded in the round.
    fn recorded(&self) -> &[Address]
        ensures { result.now ≡ recorded self.now };

    /// Returns the addresses of the weak pointers that the mutator made in the round.
    fn young_weaks(&self) -> &[Address]
        ensures { result.now ≡ young_weaks self.now };

    /// Empties the mutator's nursery, its list of recorded fields, and its lists of weak pointers made or finalised in the
    /// round. Registers, queue and remembered entries stay. No law is about these entries or the finalised weak pointers.
    fn forget_round(&mut self)
        ensures { self.new ≡ after_stop self.old };

    ghost own_registers: { (m : Self) (words : List ℕ) → length words ≡ length (registers m) → registers (with_registers m words) ≡ words };

    ghost own_queue: { (m : Self) (q : Queue) → queue (with_queue m q) ≡ q };

    ghost same_queue: { (m : Self) → with_queue m (queue m) ≡ m };

    ghost last_queue: { (m : Self) (first last : Queue) → with_queue (with_queue m first) last ≡ with_queue m last };

    ghost registers_apart: { (m : Self) (words : List ℕ) → queue (with_registers m words) ≡ queue m };

    ghost queue_apart: { (m : Self) (q : Queue) → registers (with_queue m q) ≡ registers m };

    ghost registers_nursery: { (m : Self) (words : List ℕ) → nursery (with_registers m words) ≡ nursery m };

    ghost queue_nursery: { (m : Self) (q : Queue) → nursery (with_queue m q) ≡ nursery m };

    ghost registers_recorded: { (m : Self) (words : List ℕ) → recorded (with_registers m words) ≡ recorded m };

    ghost registers_young: { (m : Self) (words : List ℕ) → young_weaks (with_registers m words) ≡ young_weaks m };

    ghost queue_recorded: { (m : Self) (q : Queue) → recorded (with_queue m q) ≡ recorded m };

    ghost queue_young: { (m : Self) (q : Queue) → young_weaks (with_queue m q) ≡ young_weaks m };

    ghost registers_stay: { (m : Self) → registers (after_stop m) ≡ registers m };

    ghost queue_stays: { (m : Self) → queue (after_stop m) ≡ queue m };

    ghost nursery_empties: { (m : Self) → nursery (after_stop m) ≡ emptied (nursery m) };

    ghost none_recorded: { (m : Self) → recorded (after_stop m) ≡ [] };

    ghost none_young: { (m : Self) → young_weaks (after_stop m) ≡ [] };
}
