//! Lists and queues on their happy paths.
use nmgc_lists::*;
use std::test::Fail;

// A queue gives its first item, a list its last, and a copy has the same items.
#[test]
fn queues_and_lists(rt: HostRuntime) -> Result<(), Fail> {
    let mut queue = Queue::new(rt.alloc());
    queue.push(3)?;
    queue.push(4)?;
    assert!(rt; queue.take_first() == Some(3));
    assert!(rt; queue.items() == [4].as_slice());
    assert!(rt; queue.take_first() == Some(4));
    assert!(rt; queue.take_first() == None);
    let mut list = List::new(rt.alloc());
    list.push(1)?;
    list.push(2)?;
    if let Some(first) = list.items_mut().first_mut() {
        *first = 7;
    }
    let copy = list.copy(rt.alloc())?;
    assert!(rt; copy.items() == [7, 2].as_slice());
    assert!(rt; list.pop() == Some(2));
    assert!(rt; list.items() == [7].as_slice());
    Ok(())
}

#[test]
fn a_pair_is_a_list(rt: HostRuntime) -> Result<(), Fail> {
    let mut list = List::pair(rt.alloc(), 1, 2);
    if let Some(first) = list.items_mut().first_mut() {
        *first = 7;
    }
    assert!(rt; list.items() == [7, 2].as_slice());
    list.push(3)?;
    assert!(rt; list.items() == [7, 2, 3].as_slice());
    assert!(rt; list.take_first() == Some(7));
    let mut list = List::pair(rt.alloc(), 4, 5);
    assert!(rt; list.pop() == Some(5));
    assert!(rt; list.items() == [4].as_slice());
    list.push(6)?;
    assert!(rt; list.take_first() == Some(4));
    assert!(rt; list.items() == [6].as_slice());
    let mut list = List::pair(rt.alloc(), 8, 9);
    assert!(rt; list.take_first() == Some(8));
    assert!(rt; list.take_first() == Some(9));
    assert!(rt; list.take_first() == None);
    Ok(())
}

#[test]
fn a_queue_changes_in_place(rt: HostRuntime) -> Result<(), Fail> {
    let mut queue = Queue::new(rt.alloc());
    assert!(rt; queue.is_empty());
    queue.extend([3, 4, 5].as_slice())?;
    assert!(rt; queue.items().len() == 3);
    queue.truncate(2);
    assert!(rt; queue.items() == [3, 4].as_slice());
    queue.replace_first(7);
    assert!(rt; queue.first() == Some(7));
    assert!(rt; !queue.is_empty());
    Ok(())
}

// A room takes the reserved number of items, and is emptied.
#[test]
fn a_room(rt: HostRuntime) -> Result<(), Fail> {
    let mut room = Room::new(rt.alloc());
    room.reserve(2)?;
    room.add(4);
    room.add(5);
    assert!(rt; room.items() == [4, 5].as_slice());
    room.clear();
    assert!(rt; room.items().len() == 0);
    Ok(())
}
