//! Two hundred overwrites in one round while a cycle marks, without a reader at the other end of the ring.
ghost use Rattle.std.specs.Prelude.{◌≡◌, ◌≤◌, [], vec_capacity};
ghost use Rattle.nmgc_round.specs.{Seat.IsAt, Seat.seen, Seating.alone};
ghost use Rattle.nmgc_heap_tests.specs.Sample.{snapshot_opening, IsSnapshotHeap, IsSnapshotMutator};

use super::laws::a_marking_round_opens;
use super::marking_tests::{Begun, begin, mutator_with, snapshot_heap};
use nmgc_commands::{Form, PackedCommand};
use nmgc_lists::ListMemory;
use nmgc_mutator::{Mutator, Step, laws};
use nmgc_object::Address;
use nmgc_round::{MutatorSeat, Round, Words};
use nmgc_updrem::link;
use nmgc_world_spec::{Operand, Reply};
use std::test::Fail;

// The number of overwrites of the variable.
const TIMES: u32 = 200;

// The variable gets the last object and itself in turn. Returns whether each store was done.
fn overwrite_often(round: &Round, seat: &mut MutatorSeat, mutator: &mut Mutator) -> bool
    requires seat { IsAt round.now seat.old × (seen seat.old ≡ alone snapshot_opening 0) }
    requires mutator { IsSnapshotMutator mutator.old }
    requires room { (TIMES ≤ mutator.old.replies.spare) × (TIMES ≤ mutator.old.recorded.spare) × (TIMES ≤ mutator.old.updrem.spare) ×
        (TIMES ≤ mutator.old.finalised.spare) }
{
    laws::a_round_finds_mutators_ready();
    a_marking_round_opens();
    for number in 0..TIMES {
        let command = PackedCommand {
            form: Form::Set {
                object: Operand::Register(0),
                index: 0,
                value: Operand::Register(if number % 2 == 0 { 3 } else { 0 }),
            },
        };
        match mutator.step(round, seat, &command) {
            Step::Replied(Reply::Fine) => {}
            Step::Replied(_) | Step::NurseryFull { .. } => return false,
        }
    }
    true
}

// The same in a round that begins for it.
fn overwritten(
    words: Words,
    mutator: &mut Mutator,
    room: Vec<MutatorSeat>,
    place: ListMemory<MutatorSeat>,
) -> bool
    requires heap { IsSnapshotHeap words }
    requires mutator { IsSnapshotMutator mutator.old }
    requires lists { (TIMES ≤ mutator.old.replies.spare) × (TIMES ≤ mutator.old.recorded.spare) × (TIMES ≤ mutator.old.updrem.spare) ×
        (TIMES ≤ mutator.old.finalised.spare) }
    requires room { (room.items ≡ []) × (1 ≤ vec_capacity room) }
{
    let Some(
        Begun {
            round,
            mut seat,
            collector: _,
        },
    ) = begin(words, room, place)
    else {
        return false;
    };
    overwrite_often(&round, &mut seat, mutator)
}

// Each store owes the reference that it overwrote: first the object at word 32, then the last object and the variable in
// turn. Three full blocks of them are in the ring, and the rest is kept.
#[test]
fn full_blocks_wait_in_the_ring(rt: HostRuntime) -> Result<(), Fail> {
    let alloc = rt.alloc();
    let words = snapshot_heap(alloc)?;
    let room = Vec::with_capacity(alloc, 1)?;
    let place = ListMemory::new(alloc)?;
    let (sender, mut receiver) = link(alloc)?;
    let mut mutator = mutator_with(alloc, TIMES, sender)?;
    assert!(rt; overwritten(words, &mut mutator, room, place));
    let (last, variable) = (Address(92), Address(36));
    for first in [Address(32), variable, variable] {
        let Some(block) = receiver.take() else {
            panic!(rt; "no block");
        };
        assert!(rt; block.entries().len() == 64);
        assert!(rt; block.entries()[..3] == [first, last, variable]);
    }
    assert!(rt; receiver.take().is_none());
    let kept = mutator.updrem.entries();
    assert!(rt;
        kept == [
            variable, last, variable, last, variable, last, variable, last
        ]
        .as_slice()
    );
    Ok(())
}
