//! The promotions of three runs that were worked out by hand: a nursery that is exactly filled, a segment's
//! last block, and three segments filled at one stop.
use super::heap::{CON, Heap, VAR, create, held, hold, layout, make_heap, promote, to, word};
use std::alloc::Global;
use std::process::Abort;
use std::test::Fail;

// A command that makes an object of a register's word or of two registers' words, and holds it in a register; and the number
// of times that it is given.
#[derive(Clone, Copy)]
struct Make {
    times: u32,
    kind: u64,
    dest: usize,
    first: usize,
    second: Option<usize>,
}

// A command in a constant.
macro_rules! make {
    ($times:literal, $kind:ident, $dest:literal, $first:literal, $second:expr) => {
        Make { times: $times, kind: $kind, dest: $dest, first: $first, second: $second }
    };
}

// A round's commands and its stop: the free and the filled segments, and the number of promoted objects. Each has a block of
// 4 words. Their serials follow the first serial, and their addresses follow the first address. Then words of the heap and
// registers after the stop.
#[derive(Clone, Copy)]
struct Round {
    commands: &'static [Make],
    free: u32,
    filled: u32,
    promoted: u32,
    serial: u32,
    place: u32,
    words: &'static [(u32, u64)],
    registers: &'static [(usize, u64)],
}

// 16 constructors fill a nursery, and only the last is held. Then a variable refers to it.
const NURSERY_FILLED: [Round; 2] = [
    Round {
        commands: &[make!(16, CON, 0, 1, Some(1))],
        free: 63,
        filled: 0,
        promoted: 1,
        serial: 15,
        place: 32,
        words: &[(34, 1), (35, 1)],
        registers: &[(0, 64), (1, 1)],
    },
    Round {
        commands: &[make!(1, VAR, 2, 0, None)],
        free: 63,
        filled: 0,
        promoted: 1,
        serial: 16,
        place: 36,
        words: &[(38, 64)],
        registers: &[(0, 64), (2, 72)],
    },
];

// A list of 15 cells, whose sixteenth takes the last block of the segment.
const SIXTEENTH_BLOCK: [Round; 2] = [
    Round {
        commands: &[make!(15, CON, 0, 0, Some(1))],
        free: 63,
        filled: 0,
        promoted: 15,
        serial: 0,
        place: 32,
        words: &[(34, 1), (38, 64), (90, 168)],
        registers: &[(0, 176)],
    },
    Round {
        commands: &[make!(1, CON, 0, 0, Some(1))],
        free: 63,
        filled: 1,
        promoted: 1,
        serial: 15,
        place: 92,
        words: &[(94, 176)],
        registers: &[(0, 184)],
    },
];

// Three lists of 16 cells fill three segments. Then a round makes nothing, and nothing moves.
const THREE_FILLED: [Round; 2] = [
    Round {
        commands: &[
            make!(16, CON, 0, 0, Some(1)),
            make!(16, CON, 2, 2, Some(1)),
            make!(16, CON, 3, 3, Some(1)),
        ],
        free: 61,
        filled: 3,
        promoted: 48,
        serial: 0,
        place: 32,
        words: &[(34, 1), (98, 1), (162, 1), (222, 432)],
        registers: &[(0, 184), (2, 312), (3, 440)],
    },
    Round {
        commands: &[],
        free: 61,
        filled: 3,
        promoted: 0,
        serial: 0,
        place: 0,
        words: &[(34, 1), (98, 1), (162, 1), (222, 432)],
        registers: &[(0, 184), (2, 312), (3, 440)],
    },
];

// Gives a command `times` times.
fn give(rt: &impl Abort, heap: &mut Heap, command: Make) {
    for _ in 0..command.times {
        let first = held(rt, heap, command.first);
        let at = match command.second {
            Some(second) => {
                let second = held(rt, heap, second);
                create(rt, heap, 0, command.kind, &[first, second])
            }
            None => create(rt, heap, 0, command.kind, &[first]),
        };
        hold(rt, heap, command.dest, to(at));
    }
}

// Compares the moves with a round's.
fn compare_moves(rt: &impl Abort, heap: &Heap, round: &Round) {
    let moves = heap.lists.moves();
    assert!(rt; moves.len() == round.promoted as usize);
    for i in 0..moves.len() {
        assert!(rt; i < 4096);
        assert!(rt; moves[i].name.maker == 0);
        assert!(rt; u64::from(moves[i].name.serial) == u64::from(round.serial) + i as u64);
        assert!(rt; u64::from(moves[i].to.0) == u64::from(round.place) + 4 * i as u64);
    }
}

// Compares segments, words and registers with a round's.
fn compare(rt: &impl Abort, heap: &Heap, round: &Round) {
    assert!(rt; heap.segments.free_count() == round.free);
    assert!(rt; heap.segments.filled_count() == round.filled);
    for (at, wanted) in round.words {
        assert!(rt; word(rt, heap, *at) == *wanted);
    }
    for (register, wanted) in round.registers {
        assert!(rt; held(rt, heap, *register) == *wanted);
    }
}

// Gives a round's commands, promotes, and compares.
fn run_round(rt: &impl Abort, heap: &mut Heap, round: &Round) -> Result<(), Fail> {
    for command in round.commands {
        give(rt, heap, *command);
    }
    promote(rt, heap, &[], &[])?;
    compare_moves(rt, heap, round);
    compare(rt, heap, round);
    Ok(())
}

// Runs rounds from an empty heap with a nursery of `nursery` words.
fn run_rounds(rt: &impl Abort, alloc: Global, nursery: u32, rounds: &[Round]) -> Result<(), Fail> {
    let mut heap = make_heap(rt, alloc, layout(64, nursery, 1))?;
    for round in rounds {
        run_round(rt, &mut heap, round)?;
    }
    Ok(())
}

#[test]
fn worked_rounds(rt: HostRuntime) -> Result<(), Fail> {
    run_rounds(&rt, rt.alloc(), 64, &NURSERY_FILLED)?;
    run_rounds(&rt, rt.alloc(), 64, &SIXTEENTH_BLOCK)?;
    run_rounds(&rt, rt.alloc(), 256, &THREE_FILLED)
}
