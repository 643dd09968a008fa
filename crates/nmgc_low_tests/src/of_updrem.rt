//! Entries come out in the order of their pushes, and blocks go through a ring.
ghost use Rattle.std.specs.Prelude.{◌≡◌, ◌+◌, ◌<◌, ◌≤◌, length, IfOk};
ghost use Rattle.nmgc_updrem.specs.Rings.{IsPair};

use nmgc_lists::{ListMemory, NoMemory, VecList};
use nmgc_object::Address;
use nmgc_updrem::*;
use std::alloc::Global;
use std::test::Fail;
use std::thread;
use std::thread::Threads;

#[test]
fn pushes_come_out_in_order(rt: HostRuntime) -> Result<(), Fail> {
    let mut entries = UpdRem::new(rt.alloc());
    assert!(rt; entries.entries() == [].as_slice());
    entries.reserve(3)?;
    entries.push(Address(36));
    entries.push(Address(32));
    entries.push(Address(36));
    assert!(rt; entries.entries() == [Address(36), Address(32), Address(36)].as_slice());
    entries.clear();
    assert!(rt; entries.entries() == [].as_slice());
    entries.push(Address(40));
    assert!(rt; entries.entries() == [Address(40)].as_slice());
    Ok(())
}

// Pushes `count` addresses from the number `from` on, and tries a flush at each full block.
fn push_all(kept: &mut UpdRem, sender: &mut UpdSender, from: u32, count: u32)
    requires room { count ≤ kept.old.spare }
    requires fits { from + count < 4294967296 }
    ensures { sender.new.ring ≡ sender.old.ring }
{
    for number in from..from + count {
        kept.push(Address(number));
        if kept.has_block() {
            let _ = kept.flush(sender);
        }
    }
}

// The number after these addresses, which have to be the numbers from `from` on, or else 0.
fn counted(places: &[Address], from: u32) -> u32 {
    let mut next = from;
    for place in places {
        if place.0 != next {
            return 0;
        }
        next = next.wrapping_add(1);
    }
    next
}

// The number after the addresses in the ring, which have to be the numbers from `from` on.
fn rest(receiver: &mut UpdReceiver, sender: &mut UpdSender, from: u32) -> u32
    requires { IsPair sender.old receiver.old }
    ensures { IsPair sender.new receiver.new }
{
    let mut next = from;
    for _turn in 0..100u32 {
        match receiver.take_rest(sender) {
            Some(block) => next = counted(block.entries(), next),
            None => return next,
        }
    }
    next
}

#[test]
fn a_full_ring_keeps_what_is_pushed(rt: HostRuntime) -> Result<(), Fail> {
    let (mut sender, mut receiver) = link(rt.alloc())?;
    let mut kept = UpdRem::new(rt.alloc());
    kept.reserve(4200)?;
    push_all(&mut kept, &mut sender, 0, 4200);
    assert!(rt; counted(kept.entries(), 4096) == 4200);
    assert!(rt; receiver.poll() == Poll::NoRoom);
    receiver.reserve(64)?;
    assert!(rt; receiver.poll() == Poll::Took);
    assert!(rt; counted(receiver.entries(), 0) == 64);
    assert!(rt; receiver.poll() == Poll::NoRoom);
    assert!(rt; kept.has_block());
    if kept.has_block() {
        assert!(rt; kept.flush(&mut sender));
    }
    assert!(rt; counted(kept.entries(), 4160) == 4200);
    assert!(rt; rest(&mut receiver, &mut sender, 64) == 4160);
    receiver.clear();
    assert!(rt; receiver.poll() == Poll::Nothing);
    assert!(rt; receiver.entries() == [].as_slice());
    Ok(())
}

// Polls often.
fn poll_all(receiver: &mut UpdReceiver)
    ensures { receiver.new.ring ≡ receiver.old.ring }
{
    for _turn in 0..100_000u32 {
        let _ = receiver.poll();
    }
}

// The collector takes beside a mutator that pushes. The addresses are then in order: taken, in the ring, kept.
fn beside<R: Threads + Sync>(rt: &R, alloc: Global) -> Result<u32, NoMemory> {
    let (sender, mut receiver) = link(alloc)?;
    let mut kept = UpdRem::new(alloc);
    kept.reserve(20_000)?;
    receiver.reserve(20_032)?;
    let ((kept, mut sender), mut receiver) = thread::join(
        rt,
        move || -> (UpdRem, UpdSender)
            requires { 20000 ≤ kept.spare }
            ensures { result.1.ring ≡ sender.ring }
        {
            let mut kept = kept;
            let mut sender = sender;
            push_all(&mut kept, &mut sender, 0, 20_000);
            (kept, sender)
        },
        move || -> UpdReceiver
            ensures { result.ring ≡ receiver.ring }
        {
            let mut receiver = receiver;
            poll_all(&mut receiver);
            receiver
        },
    );
    let taken = counted(receiver.entries(), 0);
    let sent = rest(&mut receiver, &mut sender, taken);
    Ok(counted(kept.entries(), sent))
}

#[test]
fn nothing_is_lost_beside_a_mutator(rt: HostRuntime) -> Result<(), Fail> {
    for _turn in 0..20u32 {
        assert!(rt; beside(&rt, rt.alloc())? == 20_000);
    }
    Ok(())
}

// An inbox for two mutators.
fn inbox_of(alloc: Global, first: UpdReceiver, second: UpdReceiver) -> Result<Inbox, NoMemory>
    ensures { IfOk result (λ inbox. length inbox ≡ 2) }
{
    let mut receivers = Vec::new(alloc);
    receivers.push(first)?;
    receivers.push(second)?;
    let place = ListMemory::new(alloc)?;
    Ok(Inbox::new(VecList::from_vec(receivers, place)))
}

// Polls a mutator's ring.
#[tactic(auto, using(crate::proofs::Lines::same_count))]
fn poll_one(inbox: &mut Inbox, mutator: u8) -> Poll
    requires { mutator < length inbox.old }
    ensures { length inbox.new ≡ length inbox.old }
{
    inbox.poll(mutator)
}

// Reserves room for more entries of a mutator.
#[tactic(auto, using(crate::proofs::Lines::same_count))]
fn reserve_one(inbox: &mut Inbox, mutator: u8, entries: u32) -> Result<(), NoMemory>
    requires { mutator < length inbox.old }
    ensures { length inbox.new ≡ length inbox.old }
{
    inbox.reserve(mutator, entries)
}

// Empties a mutator's list.
#[tactic(auto, using(crate::proofs::Lines::same_count))]
fn clear_one(inbox: &mut Inbox, mutator: u8)
    requires { mutator < length inbox.old }
    ensures { length inbox.new ≡ length inbox.old }
{
    inbox.clear(mutator);
}

#[test]
fn an_inbox_has_a_list_for_each_mutator(rt: HostRuntime) -> Result<(), Fail> {
    let (mut sender, receiver) = link(rt.alloc())?;
    let (_other, quiet) = link(rt.alloc())?;
    let mut kept = UpdRem::new(rt.alloc());
    kept.reserve(192)?;
    push_all(&mut kept, &mut sender, 0, 192);
    assert!(rt; kept.entries() == [].as_slice());
    let mut inbox = inbox_of(rt.alloc(), receiver, quiet)?;
    assert!(rt; poll_one(&mut inbox, 0) == Poll::NoRoom);
    reserve_one(&mut inbox, 0, 64)?;
    assert!(rt; poll_one(&mut inbox, 0) == Poll::Took);
    assert!(rt; poll_one(&mut inbox, 0) == Poll::NoRoom);
    assert!(rt; counted(inbox.entries(0), 0) == 64);
    reserve_one(&mut inbox, 0, 64)?;
    reserve_one(&mut inbox, 1, 64)?;
    inbox.poll_each(2);
    assert!(rt; counted(inbox.entries(0), 0) == 128);
    assert!(rt; inbox.entries(1) == [].as_slice());
    assert!(rt; poll_one(&mut inbox, 1) == Poll::Nothing);
    clear_one(&mut inbox, 0);
    assert!(rt; poll_one(&mut inbox, 0) == Poll::Took);
    assert!(rt; counted(inbox.entries(0), 128) == 192);
    Ok(())
}

// Each law asks nothing.
#[test]
fn laws_ask_nothing(rt: HostRuntime) {
    let _ = &rt;
    laws::new_ends_are_a_line();
    laws::a_line_stays_a_line();
    laws::list_and_ring_are_what_was_sent();
    laws::level_ends_are_a_line();
    laws::new_ends_are_in_order();
    laws::level_ends_are_in_order();
}
