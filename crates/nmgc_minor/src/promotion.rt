//! Promotion as a whole: its inputs, and its promise about the world.
ghost use Rattle.std.specs.Prelude.{ℕ, ◌≡◌, ◌+◌, ◌*◌, ◌<◌, ◌≤◌, length, map, IfOk};
ghost use Rattle.std.specs.List.{flat_map};
ghost use Rattle.nmgc_alloc.specs.{AllocState.AllocState, AllocState.StandsFor, Segments.IsSegments};
ghost use Rattle.nmgc_stop_spec.specs.{Occupied.KeepsMarks, Cycle.PlacesEach, Stopped.Stopped, Stopped.IsSettled, Stopped.young_base};
ghost use Rattle.nmgc_minor.specs.{Placing.moved_of, Promotes.Changes, Promotes.IsStoppedBy, Promotes.promoted, Start.words_of, Start.places_of};
ghost use Rattle.nmgc_heap_spec.specs.Emptied.{emptied};

use crate::passes::run_passes;
use crate::placing::Move;
use crate::young::Young;
use nmgc_alloc::Segments;
use nmgc_heap_spec::{HeapWords, MutatorRoots};
use nmgc_lists::{NoMemory, Room};
use nmgc_object::Layout;
use nmgc_object::laws::words_differ;
use std::alloc::Global;
use std::marker::Model;

/// The working lists of promotion, and the moves of the last promotion.
#[derive(Drop)]
pub struct Promotion {
    young: Young,
    moves: Room<Move>,
}

impl Model for Promotion {
    ghost use Rattle.std.specs.Prelude.{length};
    ghost use Rattle.nmgc_minor.specs.{Promotion.Promotion as Shown, Resting.IsResting};

    ghost Value = { Shown };

    ghost view = { λ p. record {
      base = p.young.base;
      size = length p.young.table.items;
      moves = p.moves.items;
    } };

    ghost invariant = { λ p. IsResting p.young p.moves };
}

impl Promotion {
    ghost use Rattle.nmgc_object.specs.Layouts.{IsLayout};
    ghost use Rattle.nmgc_minor.specs.Promotion.{IsFor};

    /// Makes the working lists of promotion, with all the memory that promotions in this layout need.
    pub fn reserve(alloc: Global, layout: Layout) -> Result<Self, NoMemory>
        requires { IsLayout layout }
        ensures { IfOk result (IsFor layout) }
    {
        let count = u32::from(layout.mutators) * layout.nursery;
        let base = layout.nursery_base(0);
        let table = vec![in alloc; 0u32; count as usize]?;
        let mut found = Room::new(alloc);
        found.reserve(count)?;
        let mut moves = Room::new(alloc);
        moves.reserve(count)?;
        Ok(Promotion {
            young: Young { base, table, found },
            moves,
        })
    }

    /// Returns the moves of the last promotion, in order of names.
    pub fn moves(&self) -> &[Move]
        ensures { result.now ≡ self.now.moves }
    {
        self.moves.items()
    }

    /// Moves the promoted objects from the nurseries into segments, each once, in order of names. Each object goes into the
    /// block that Note [The placing rule] in `nmgc_alloc` gives for its maker and its class. Every pointer to a moved object
    /// is changed, in the roots, the slots of g, the recorded fields and the moved objects, so the words represent the same
    /// world. No mark and no snapshot index changes. No more objects move than the nurseries have words. Takes no memory.
    ///
    /// Requires that words, segments and mutators represent a heap at a stop (`IsStopped`). In particular, either at least
    /// the layout's reserve of segments is free, or no nursery has an object. A mutator's `recorded` has the addresses of the
    /// fields of older objects in which it stored a new object in the round. Its `young_weaks` has the weak pointers that it
    /// made in the round. Afterwards nurseries and lists of the round are empty, and queues keep their room.
    ///
    /// The time is proportional to the objects that this and the last promotion move, the fields of this promotion's objects,
    /// the roots, `recorded`, `young_weaks` and the nurseries' used words. Apart from placing it doesn't grow with heap or
    /// unused words: the table is read only for used words, without a found object's later words. Placing adds searches: in a
    /// segment for the next unused block, and for the next segment if one was filled.
    pub fn promote<W: HeapWords, M: MutatorRoots>(
        &mut self,
        words: &mut W,
        segments: &mut Segments,
        mutators: &mut [M],
    )
        requires layout { IsFor segments.old.layout self.old }
        requires stopped { (t : Stopped) × IsStoppedBy M.nursery M.registers M.queue M.recorded M.young_weaks t segments.old (W.words words.old) mutators.old }

        // Words, roots and blocks represent the settled heap. Exactly the promoted objects moved, and the segments represent
        // the state after their placing.
        ensures settled { (t : Stopped) → IsStoppedBy M.nursery M.registers M.queue M.recorded M.young_weaks t segments.old (W.words words.old) mutators.old →
            IsSettled t segments.new (W.words words.new) (flat_map M.registers mutators.new) (words_of (map M.queue mutators.new))
            (map moved_of self.new.moves) }
        ensures places { (t : Stopped) → IsStoppedBy M.nursery M.registers M.queue M.recorded M.young_weaks t segments.old (W.words words.old) mutators.old →
            (a : AllocState) → StandsFor segments.old (W.words words.old) a → (b : AllocState) ×
            PlacesEach segments.old.layout t.world a (map (λ m. m.name) (map moved_of self.new.moves)) b × StandsFor segments.new (W.words words.new) b }

        // The changes of the words, and of the mutators.
        ensures changes { (forward : ℕ → ℕ) × Changes (young_base segments.old) (places_of (flat_map M.recorded mutators.old)) (map moved_of self.new.moves)
            forward (W.words words.old) (W.words words.new) (flat_map M.registers mutators.old) (flat_map M.registers mutators.new)
            (words_of (map M.queue mutators.old)) (words_of (map M.queue mutators.new)) ×
            (mutators.new ≡ map (promoted M.registers M.with_registers M.queue M.with_queue M.after_stop forward) mutators.old) }
        ensures room { map (λ queue. queue.spare) (map M.queue mutators.new) ≡ map (λ queue. queue.spare) (map M.queue mutators.old) }
        ensures emptied { map M.nursery mutators.new ≡ map emptied (map M.nursery mutators.old) }
        ensures sound { IsSegments segments.new }
        ensures marks { KeepsMarks segments.old segments.new }
        ensures layout { segments.new.layout ≡ segments.old.layout }
        ensures lists { IsFor segments.old.layout self.new }
        ensures few { length self.new.moves ≤ segments.old.layout.mutators * segments.old.layout.nursery }
    {
        words_differ();
        run_passes(&mut self.young, &mut self.moves, words, segments, mutators);
    }
}
