//! A promotion at a stop, as the run does it: a law says which world the words represent, without a walk.
ghost use Rattle.std.specs.Prelude.{◌≡◌, ◌≤◌, [], ◌∷◌, IfOk, IsTrue, length};
ghost use Rattle.nmgc_object.specs.Layouts.{IsLayout};
ghost use Rattle.nmgc_mutator.specs.declared.mutator.Mutator.{Mutator as MutatorSeen};
ghost use Rattle.nmgc_alloc.specs.Segments.{all_free};
ghost use Rattle.nmgc_heap_spec.specs.{Objects.HasZeros, Samples.small_layout};
ghost use Rattle.nmgc_stop_spec.specs.Samples.{HoldsYoung};
ghost use Rattle.nmgc_minor.specs.Promotion.{IsFor};
ghost use Rattle.nmgc_heap_tests.specs.Checked.{IsYoungMutator};

use super::heap::NIL;
use nmgc_alloc::Segments;
use nmgc_limits::REGISTERS;
use nmgc_lists::{List, ListMemory, VecList};
use nmgc_minor::{Move, Promotion};
use nmgc_mutator::Mutator;
use nmgc_object::{Address, FinQueue, Layout, Nursery};
use nmgc_stop_spec::laws::a_stop_may_have_a_new_object;
use nmgc_updrem::link;
use nmgc_world_spec::Name;
use std::alloc::Global;
use std::process::Abort;
use std::test::Fail;

// Whether the unused words are 0.
fn are_zeros(words: &[u64]) -> bool
    requires { 32 ≤ length words.now }
    ensures { IsTrue result → HasZeros words.now }
{
    if words[0] != 0 {
        return false;
    }
    for at in 19..32usize {
        if words[at] != 0 {
            return false;
        }
    }
    true
}

// Checks that the heap is the heap after the round that made one object.
fn check_young(rt: &impl Abort, words: &[u64])
    ensures { HoldsYoung words.now }
{
    assert!(rt; words.len() == 2144);
    assert!(rt; words[1] == 32771);
    assert!(rt; words[2] == 32);
    for i in 0..16usize {
        assert!(rt; words[3 + i] == 1);
    }
    assert!(rt; are_zeros(words));
    assert!(rt; words[2080] == 2105);
    assert!(rt; words[2081] == 0);
    assert!(rt; words[2082] == 13);
}

// Promotes that object: the nursery is empty afterwards.
fn promote_young(
    rt: &impl Abort,
    promotion: &mut Promotion,
    words: &mut List<u64>,
    segments: &mut Segments,
    mutators: &mut [Mutator],
)
    requires lists { IsFor small_layout promotion.old }
    requires words { HoldsYoung words.old }
    requires free { segments.old ≡ all_free small_layout }
    requires one { (m : MutatorSeen) × (mutators.old ≡ m ∷ []) × IsYoungMutator m }
{
    let _ = segments.layout();
    a_stop_may_have_a_new_object();
    promotion.promote(words, segments, mutators);
    assert!(rt; mutators.len() == 1);
    assert!(rt; mutators[0].nursery.top == 2080);
}

// The one mutator: it holds the object in register 0, the number 5 in register 1, and nil in the rest.
fn young_mutator(alloc: Global, small: Layout) -> Result<Mutator, Fail>
    requires layout { IsLayout small }
    requires some { 1 ≤ small.mutators }
    ensures { IfOk result IsYoungMutator }
{
    let (sender, _receiver) = link(alloc)?;
    let mut mutator = Mutator::new(alloc, 0, small, sender)?;
    let mut registers = Vec::from_elem(alloc, NIL, REGISTERS as usize)?;
    registers[0] = 4160;
    registers[1] = 13;
    mutator.registers = VecList::from_vec(registers, ListMemory::new(alloc)?);
    mutator.queue = FinQueue::new(alloc);
    mutator.nursery = Nursery {
        base: 2080,
        top: 2083,
        end: 2144,
    };
    mutator.recorded.clear();
    mutator.young_weaks.clear();
    Ok(mutator)
}

// Checks that exactly one object moved, to the first block.
fn compare_move(rt: &impl Abort, moves: &[Move]) {
    assert!(rt; moves.len() == 1);
    assert!(rt;
        moves[0].name
            == Name {
                maker: 0,
                serial: 0
            }
    );
    assert!(rt; moves[0].from == Address(2080));
    assert!(rt; moves[0].to == Address(32));
}

// Compares the words from an address on with the expected words.
fn compare_front(rt: &impl Abort, words: &[u64], from: usize, wanted: &[u64]) {
    assert!(rt; from <= words.len() && wanted.len() <= words.len() - from);
    for i in 0..wanted.len() {
        assert!(rt; words[from + i] == wanted[i]);
    }
}

// Sets the unused words to 0.
fn clear_nobody(rt: &impl Abort, words: &mut [u64]) {
    assert!(rt; words.len() == 2144);
    words[0] = 0;
    for at in 19..32usize {
        words[at] = 0;
    }
}

// A round made a constructor of tag 7 with the number 5. It moves from the nursery's beginning to the first segment's first
// block.
#[test]
fn one_object(rt: HostRuntime) -> Result<(), Fail> {
    let small = layout!(segments: 32, words: 64, nursery: 64, mutators: 1);
    let mut words = vec![in rt.alloc(); NIL; 2144]?;
    words[1] = 32771;
    words[2] = 32;
    words[2080] = 2105;
    words[2081] = 0;
    words[2082] = 13;
    clear_nobody(&rt, words.as_mut_slice());
    check_young(&rt, words.as_slice());
    let mut words = List::from_vec(words)?;
    let mut segments = Segments::new(rt.alloc(), small)?;
    let mut promotion = Promotion::reserve(rt.alloc(), small)?;
    let mut mutators = [young_mutator(rt.alloc(), small)?];
    promote_young(
        &rt,
        &mut promotion,
        &mut words,
        &mut segments,
        &mut mutators,
    );
    compare_move(&rt, promotion.moves());
    compare_front(&rt, words.items(), 32, &[2105, 0, 13]);
    compare_front(&rt, mutators[0].registers.items(), 0, &[64, 13]);
    Ok(())
}
