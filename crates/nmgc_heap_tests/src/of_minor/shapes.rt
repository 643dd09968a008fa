//! Heaps of every shape: objects that are shared, cyclic, dead, waiting, or held in one way alone.
//!
//! There are 64 segments of 256 words, from word 32 on, and nurseries of the same size, from word `YOUNG` on. A pointer is
//! twice its word. Nursery objects lie in the order of the tables, so each address is a sum of sizes: two words, plus one a
//! field.
use super::heap::{
    ARR, CON, Heap, NIL, STACK, THUNK, VAR, WEAK, create, held, hold, layout, make_heap, promote,
    store, to, word,
};
use nmgc_limits::REGISTERS;
use nmgc_object::Address;
use std::alloc::Global;
use std::process::Abort;
use std::test::Fail;

// The bases of the nurseries of mutators 0 and 1.
const YOUNG: u64 = 16416;

const SECOND_YOUNG: u64 = 16672;

// The number of the second mutator's first register, counted through all mutators.
const SECOND_REGISTER: usize = REGISTERS as usize;

// The word of the number 5.
const FIVE: u64 = 13;

// A new object: its maker, the number of its kind, and its field words.
type Birth = (u8, u64, &'static [u64]);

// An object that moves: its maker, its serial, its address in the nursery, and its new address.
type Moved = (u8, u32, u32, u32);

// A round and its stop. First the new objects, then the words stored below the nurseries, the words that registers hold, and
// the words that join the first queue. Then the recorded fields, and the weak pointers that the round made. Last the expected
// moves, words of the heap, registers and the first queue.
#[derive(Clone, Copy)]
struct Round {
    births: &'static [Birth],
    stores: &'static [(u32, u64)],
    holds: &'static [(usize, u64)],
    joins: &'static [u64],
    recorded: &'static [Address],
    weaks: &'static [Address],
    moves: &'static [Moved],
    words: &'static [(u32, u64)],
    registers: &'static [(usize, u64)],
    queue: &'static [u64],
}

// Nothing happens, and nothing moves.
const QUIET: Round = Round {
    births: &[],
    stores: &[],
    holds: &[],
    joins: &[],
    recorded: &[],
    weaks: &[],
    moves: &[],
    words: &[],
    registers: &[],
    queue: &[],
};

// A constructor that refers to itself, two that refer to each other, an array that shares one with a variable, and a
// constructor to which nothing refers.
const SHARED_AND_CYCLIC: [Round; 1] = [Round {
    births: &[
        (0, CON, &[2 * YOUNG]),
        (0, CON, &[2 * (YOUNG + 7), NIL]),
        (0, CON, &[2 * (YOUNG + 3)]),
        (0, CON, &[]),
        (
            0,
            ARR,
            &[2 * (YOUNG + 10), 2 * (YOUNG + 10), 2 * (YOUNG + 10)],
        ),
        (0, CON, &[2 * (YOUNG + 10)]),
        (0, VAR, &[2 * (YOUNG + 10)]),
    ],
    holds: &[
        (0, 2 * YOUNG),
        (1, 2 * (YOUNG + 3)),
        (2, 2 * (YOUNG + 12)),
        (3, 2 * (YOUNG + 20)),
    ],
    moves: &[
        (0, 0, 16416, 32),
        (0, 1, 16419, 36),
        (0, 2, 16423, 40),
        (0, 3, 16426, 44),
        (0, 4, 16428, 288),
        (0, 6, 16436, 48),
    ],
    words: &[
        (34, 64),
        (38, 80),
        (39, NIL),
        (42, 72),
        (50, 88),
        (290, 88),
        (291, 88),
        (292, 88),
    ],
    registers: &[(0, 64), (1, 72), (2, 576), (3, 96)],
    ..QUIET
}];

// An alive weak pointer to which nothing refers, with its key and its finaliser. Two dead weak pointers, with one of them
// held, and an object to which only they refer. A thunk with its result, which no longer holds its free variable, and a thunk
// that waits. A stack with two slots left, in a slot of g.
const WEAK_AND_LAZY: [Round; 1] = [Round {
    births: &[
        (0, CON, &[]),
        (0, CON, &[]),
        (0, WEAK, &[2 * YOUNG, FIVE, 2 * (YOUNG + 2)]),
        (0, CON, &[]),
        (0, WEAK, &[2 * (YOUNG + 9), 0, NIL]),
        (0, WEAK, &[2 * (YOUNG + 9), 0, 2 * (YOUNG + 9)]),
        (0, CON, &[]),
        (0, THUNK, &[2 * YOUNG, 2 * (YOUNG + 21)]),
        (0, CON, &[]),
        (0, THUNK, &[0, 2 * (YOUNG + 27)]),
        (0, STACK, &[2 * (YOUNG + 27), FIVE, 0, 0]),
    ],
    stores: &[(3, 2 * (YOUNG + 33))],
    holds: &[
        (0, 2 * (YOUNG + 16)),
        (1, 2 * (YOUNG + 23)),
        (2, 2 * (YOUNG + 29)),
    ],
    weaks: &[Address(16420), Address(16427), Address(16432)],
    moves: &[
        (0, 0, 16416, 32),
        (0, 1, 16418, 36),
        (0, 2, 16420, 288),
        (0, 5, 16432, 293),
        (0, 7, 16439, 40),
        (0, 8, 16443, 44),
        (0, 9, 16445, 48),
        (0, 10, 16449, 544),
    ],
    words: &[
        (3, 1088),
        (42, 64),
        (50, 0),
        (51, 88),
        (290, 64),
        (291, FIVE),
        (292, 72),
        (296, 0),
        (546, 88),
        (547, FIVE),
        (548, 0),
        (549, 0),
    ],
    registers: &[(0, 586), (1, 80), (2, 96)],
    ..QUIET
}];

// A variable is promoted, and then is held no more. One of its fields is recorded twice, and refers to a nursery object.
// Another nursery object waits in a queue, and a third is held nowhere.
const RECORDED_AND_QUEUED: [Round; 2] = [
    Round {
        births: &[(0, VAR, &[NIL])],
        holds: &[(0, 2 * YOUNG)],
        moves: &[(0, 0, 16416, 32)],
        words: &[(34, NIL)],
        registers: &[(0, 64)],
        ..QUIET
    },
    Round {
        births: &[(0, CON, &[]), (0, CON, &[]), (0, CON, &[])],
        stores: &[(34, 2 * YOUNG)],
        holds: &[(0, NIL)],
        joins: &[2 * (YOUNG + 4)],
        recorded: &[Address(34), Address(34)],
        moves: &[(0, 1, 16416, 36), (0, 3, 16420, 40)],
        words: &[(34, 72)],
        registers: &[(0, NIL)],
        queue: &[80],
        ..QUIET
    },
];

// A promoted object waits in a queue while a nursery object moves: none of the queue's words points to a nursery, and the
// queue stays as it is. Then a nursery object waits in the same queue, and one word of the two changes.
const QUEUED_BEFORE: [Round; 3] = [
    Round {
        births: &[(0, CON, &[])],
        holds: &[(0, 2 * YOUNG)],
        moves: &[(0, 0, 16416, 32)],
        registers: &[(0, 64)],
        ..QUIET
    },
    Round {
        births: &[(0, CON, &[])],
        holds: &[(0, 2 * YOUNG)],
        joins: &[64],
        moves: &[(0, 1, 16416, 36)],
        registers: &[(0, 72)],
        queue: &[64],
        ..QUIET
    },
    Round {
        births: &[(0, CON, &[])],
        joins: &[2 * YOUNG],
        moves: &[(0, 2, 16416, 40)],
        registers: &[(0, 72)],
        queue: &[64, 80],
        ..QUIET
    },
];

// Two mutators, whose objects refer to each other's objects. Mutator 0's object moves first, though it was made last but one.
// Nothing is left to move at the next stop.
const TWO_MUTATORS: [Round; 2] = [
    Round {
        births: &[
            (1, CON, &[]),
            (0, CON, &[2 * SECOND_YOUNG]),
            (1, CON, &[2 * YOUNG]),
        ],
        holds: &[(SECOND_REGISTER, 2 * (SECOND_YOUNG + 2))],
        moves: &[(0, 1, 16416, 32), (1, 0, 16672, 288), (1, 2, 16674, 292)],
        words: &[(34, 576), (294, 64)],
        registers: &[(SECOND_REGISTER, 584)],
        ..QUIET
    },
    Round {
        words: &[(34, 576), (294, 64)],
        registers: &[(SECOND_REGISTER, 584)],
        ..QUIET
    },
];

// Makes the objects of a round.
fn bear_all(rt: &impl Abort, heap: &mut Heap, births: &[Birth]) {
    for (maker, kind, fields) in births {
        create(rt, heap, *maker, *kind, fields);
    }
}

// Adds words to the first queue.
fn join_all(rt: &impl Abort, heap: &mut Heap, joins: &[u64]) -> Result<(), Fail> {
    let mutators = heap.mutators.items_mut();
    assert!(rt; !mutators.is_empty());
    for word in joins {
        mutators[0].queue.reserve(1)?;
        mutators[0].queue.add(*word);
    }
    Ok(())
}

// Does the steps of a round.
fn play(rt: &impl Abort, heap: &mut Heap, round: &Round) -> Result<(), Fail> {
    bear_all(rt, heap, round.births);
    for (at, word) in round.stores {
        store(rt, &mut heap.words, *at, *word);
    }
    for (register, word) in round.holds {
        hold(rt, heap, *register, *word);
    }
    join_all(rt, heap, round.joins)
}

// Compares the moves with the expected moves.
fn compare_moves(rt: &impl Abort, heap: &Heap, wanted: &[Moved]) {
    let moves = heap.lists.moves();
    assert!(rt; moves.len() == wanted.len());
    for (moved, (maker, serial, from, to)) in moves.iter().zip(wanted) {
        assert!(rt; moved.name.maker == *maker);
        assert!(rt; moved.name.serial == *serial);
        assert!(rt; moved.from.0 == *from);
        assert!(rt; moved.to.0 == *to);
    }
}

// Compares words, registers and the first queue with a round's expected values.
fn compare(rt: &impl Abort, heap: &Heap, round: &Round) {
    for (at, wanted) in round.words {
        assert!(rt; word(rt, heap, *at) == *wanted);
    }
    for (register, wanted) in round.registers {
        assert!(rt; held(rt, heap, *register) == *wanted);
    }
    let mutators = heap.mutators.items();
    assert!(rt; !mutators.is_empty());
    assert!(rt; mutators[0].queue.words() == round.queue);
}

// Runs rounds of `mutators` mutators from an empty heap.
fn run_rounds(rt: &impl Abort, alloc: Global, mutators: u8, rounds: &[Round]) -> Result<(), Fail> {
    let mut heap = make_heap(rt, alloc, layout(256, 256, mutators))?;
    for round in rounds {
        play(rt, &mut heap, round)?;
        promote(rt, &mut heap, round.recorded, round.weaks)?;
        compare_moves(rt, &heap, round.moves);
        compare(rt, &heap, round);
    }
    Ok(())
}

#[test]
fn heaps_of_every_shape(rt: HostRuntime) -> Result<(), Fail> {
    run_rounds(&rt, rt.alloc(), 1, &SHARED_AND_CYCLIC)?;
    run_rounds(&rt, rt.alloc(), 1, &WEAK_AND_LAZY)?;
    run_rounds(&rt, rt.alloc(), 1, &RECORDED_AND_QUEUED)?;
    run_rounds(&rt, rt.alloc(), 1, &QUEUED_BEFORE)?;
    run_rounds(&rt, rt.alloc(), 2, &TWO_MUTATORS)
}

// Makes an array of each of the sizes in words, holds it, promotes, and compares the new addresses.
fn move_sizes(rt: &impl Abort, heap: &mut Heap, sizes: &[(usize, u32)]) -> Result<(), Fail> {
    let nils = [NIL; 4094];
    for (index, (size, _)) in sizes.iter().enumerate() {
        assert!(rt; 2 <= *size && *size <= 4096);
        let at = create(rt, heap, 0, ARR, &nils[..*size - 2]);
        hold(rt, heap, index, to(at));
    }
    promote(rt, heap, &[], &[])?;
    let moves = heap.lists.moves();
    assert!(rt; moves.len() == sizes.len());
    for (moved, (_, place)) in moves.iter().zip(sizes) {
        assert!(rt; moved.to.0 == *place);
    }
    Ok(())
}

// Arrays that fill a block, of some dense classes and of each class above, and then the smallest of these classes. A segment
// has 4,096 words, the first begins at word 32, and each class takes the next segment. Only the largest block fills one at
// once.
#[test]
fn every_size(rt: HostRuntime) -> Result<(), Fail> {
    let mut heap = make_heap(&rt, rt.alloc(), layout(4096, 8192, 1))?;
    let largest = [
        (4, 32),
        (5, 4128),
        (6, 8224),
        (16, 12320),
        (32, 16416),
        (64, 20512),
        (128, 24608),
        (256, 28704),
        (512, 32800),
        (1024, 36896),
        (2048, 40992),
        (4096, 45088),
    ];
    move_sizes(&rt, &mut heap, &largest)?;
    let smallest = [
        (2, 36),
        (5, 4133),
        (6, 8230),
        (16, 12336),
        (17, 16448),
        (33, 20576),
        (65, 24736),
        (129, 28960),
        (257, 33312),
        (513, 37920),
        (1025, 43040),
        (2049, 49184),
    ];
    move_sizes(&rt, &mut heap, &smallest)?;
    Ok(())
}
