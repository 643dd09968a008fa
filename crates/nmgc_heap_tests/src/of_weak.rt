//! The list of weak pointers as it is filled, and finalisers that join queues. The expected values follow from the order of
//! names, by maker and then by serial, and from the field words: 1 is nil, and 0 is the value of a dead weak pointer.
ghost use Rattle.std.specs.Prelude.{ℕ, ◌≡◌, ◌<◌, ◌≤◌, [], length, map, slice_get, Some, IfOk};
ghost use Rattle.nmgc_mutator.specs.declared.mutator.Mutator.{Mutator as MutatorSeen};
ghost use Rattle.nmgc_object.specs.FinQueue.{FinQueue as Shown};

use nmgc_lists::{List, NoMemory};
use nmgc_mutator::Mutator;
use nmgc_object::words::encode_name;
use nmgc_object::{Address, Layout};
use nmgc_updrem::link;
use nmgc_weak::{Death, OldWeak, Weaks, laws, queue_finalisers};
use nmgc_world_spec::Name;
use std::alloc::Global;
use std::test::Fail;

const A: Name = name!(0, 7);

const B: Name = name!(1, 2);

const FIRST: OldWeak = OldWeak {
    weak: A,
    at: Address(40),
};

const SECOND: OldWeak = OldWeak {
    weak: B,
    at: Address(32),
};

// The list, in a vector with room for it.
fn listed(alloc: Global, weaks: &Weaks) -> Result<Vec<OldWeak>, NoMemory>
    ensures { IfOk result (λ all. all.items ≡ weaks.now.list) }
{
    let mut all = Vec::with_capacity(alloc, weaks.length_bound())?;
    weaks.list_into(&mut all);
    Ok(all)
}

#[test]
fn list_in_order(rt: HostRuntime) -> Result<(), Fail> {
    let mut weaks = Weaks::new(rt.alloc());
    assert!(rt; listed(rt.alloc(), &weaks)?.is_empty());
    weaks.reserve(2)?;
    weaks.add(B, Address(32));
    weaks.add(A, Address(40));
    assert!(rt; listed(rt.alloc(), &weaks)?.as_slice() == [FIRST, SECOND].as_slice());
    assert!(rt; weaks.deaths().is_empty());

    // The words of the heap. The value of the second weak pointer was taken.
    let mut words = vec![in rt.alloc(); 1u64; 48]?;
    words[35] = 0;
    weaks.leave(&mut words);
    assert!(rt; listed(rt.alloc(), &weaks)?.as_slice() == [FIRST].as_slice());
    Ok(())
}

// Two weak pointers have a value word of 0. The one that is given leaves, and its name may join again.
#[test]
fn listed_weaks_leave(rt: HostRuntime) -> Result<(), Fail> {
    let mut weaks = Weaks::new(rt.alloc());
    weaks.reserve(3)?;
    weaks.add_all([FIRST, SECOND].as_slice());
    let mut words = vec![in rt.alloc(); 0u64; 48]?;
    words[33] = encode_name(B);
    words[41] = encode_name(A);
    weaks.remove_if_dead(&mut words, Address(40));
    assert!(rt; listed(rt.alloc(), &weaks)?.as_slice() == [SECOND].as_slice());
    weaks.add(A, Address(44));
    assert_eq!(rt; listed(rt.alloc(), &weaks)?.len(), 2);
    assert!(rt; weaks.count_bound(0) >= 1);
    Ok(())
}

const THIRD: OldWeak = OldWeak {
    weak: name!(1, 5),
    at: Address(48),
};

// Two weak pointers join a list of one: by their names, the first comes before it, and the second after it.
#[test]
fn joiners_in_order(rt: HostRuntime) -> Result<(), Fail> {
    let mut weaks = Weaks::new(rt.alloc());
    weaks.reserve(3)?;
    weaks.add(B, Address(32));
    weaks.add_all([FIRST, THIRD].as_slice());
    assert!(rt; listed(rt.alloc(), &weaks)?.as_slice() == [FIRST, SECOND, THIRD].as_slice());
    Ok(())
}

const DEATHS: [Death; 3] = [
    Death {
        weak: A,
        finaliser: 13,
    },
    Death {
        weak: B,
        finaliser: 1,
    },
    Death {
        weak: B,
        finaliser: 21,
    },
];

// The layout of a heap of two mutators.
const TWO: Layout = Layout {
    segments: 32,
    words: 64,
    nursery: 64,
    mutators: 2,
};

// A mutator of that layout, whose queue has room for `room` words.
fn mutator(alloc: Global, number: u8, room: u32) -> Result<Mutator, NoMemory>
    requires { number < 2 }
    ensures { IfOk result (λ mutator. room ≤ mutator.queue.spare) }
{
    let (sender, _receiver) = link(alloc)?;
    let mut mutator = Mutator::new(alloc, number, TWO, sender)?;
    mutator.queue.reserve(room)?;
    Ok(mutator)
}

// Both mutators.
fn mutators(alloc: Global, room: u32) -> Result<List<Mutator>, NoMemory>
    ensures { IfOk result (λ mutators. (length (map (λ (m : MutatorSeen). m.queue) mutators) ≡ 2) ×
        ((maker : ℕ) (queue : Shown) → slice_get (map (λ (m : MutatorSeen). m.queue) mutators) maker ≡ Some queue → room ≤ queue.spare)) }
{
    let first = mutator(alloc, 0, room)?;
    let second = mutator(alloc, 1, room)?;
    let mut mutators = List::new(alloc);
    mutators.push(first)?;
    mutators.push(second)?;
    Ok(mutators)
}

// Each finaliser goes to the queue of its weak pointer's maker, but nil to no queue.
#[test]
fn finalisers_join(rt: HostRuntime) -> Result<(), Fail> {
    let mut mutators = mutators(rt.alloc(), 3)?;
    queue_finalisers(DEATHS.as_slice(), mutators.items_mut());
    let words: [&[u64]; 2] = [[13].as_slice(), [21].as_slice()];
    for (mutator, expected) in mutators.items().iter().zip(words.iter()) {
        assert!(rt; mutator.queue.words() == *expected);
    }
    Ok(())
}

// Each law asks nothing.
#[test]
fn laws_ask_nothing(rt: HostRuntime) {
    let _ = &rt;
    laws::queues_close();
    laws::weaks_without_value_leave_the_list();
}
