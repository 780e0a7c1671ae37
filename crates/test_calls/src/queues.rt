//! Queues, alone and in states.

use crate::compare::same;
use dv_bag::limits::test_room;
use dv_bag::{Bag, Change, Collection, Datum, DatumView, Fault, Held, Queue, Variables};
use std::process::Abort;

fn queue_of<R: Abort + AllocGlobal>(rt: &R, values: &[i64]) -> Queue {
    let mut queue = Queue::new(rt.alloc());
    for value in values {
        queue.push(*value).expect(rt, "memory");
    }
    queue
}

#[test]
fn values_come_last_and_the_first_one_goes(rt: HostRuntime) {
    let mut queue = queue_of(&rt, &[7, 5, 7]);
    same!(rt; queue.len(), 3);
    same!(rt; queue.get(0), Some(7));
    same!(rt; queue.get(1), Some(5));
    same!(rt; queue.get(3), None);
    queue.pop();
    same!(rt; queue == queue_of(&rt, &[5, 7]), true);
    same!(rt; queue == queue_of(&rt, &[7, 5]), false);
    queue.pop();
    queue.pop();
    queue.pop();
    same!(rt; queue.get(0), None);
}

#[test]
fn a_copy_of_a_queue_stays_as_it_was(rt: HostRuntime) {
    let mut queue = queue_of(&rt, &[7, 5]);
    let copy = queue.clone().expect(&rt, "memory");
    queue.pop();
    queue.push(1).expect(&rt, "memory");
    same!(rt; copy == queue_of(&rt, &[7, 5]), true);
    let pairs = copy.singles(rt.alloc()).expect(&rt, "memory");
    same!(rt; pairs.as_slice(), [(7, 1), (5, 1)].as_slice());
}

#[test]
fn a_queue_becomes_a_copy(rt: HostRuntime) {
    let mut queue = queue_of(&rt, &[7, 5, 3, 9]);
    queue.pop();
    queue.push(1).expect(&rt, "memory");
    let mut other = queue_of(&rt, &[2]);
    other.copy_from(&queue).expect(&rt, "memory");
    same!(rt; other == queue_of(&rt, &[5, 3, 9, 1]), true);
    let bag = Collection::Bag(Bag::new(rt.alloc()));
    let mut held = Collection::Queue(other);
    held.copy_from(&bag).expect(&rt, "memory");
    same!(rt; held == bag, true);
}

#[test]
fn collections_of_two_disciplines_differ(rt: HostRuntime) {
    let queue = Collection::Queue(queue_of(&rt, &[]));
    same!(rt; queue == Collection::Queue(queue_of(&rt, &[])), true);
    same!(rt; queue == Collection::Bag(Bag::new(rt.alloc())), false);
}

// The variables of a state with a queue alone, which is empty.
fn state_of_queue<R: Abort + AllocGlobal>(rt: &R) -> Variables {
    let queue = Collection::Queue(Queue::new(rt.alloc()));
    let held = Held::new(rt.alloc(), queue).expect(rt, "memory");
    let mut variables = Variables::new(rt.alloc());
    variables.push(Datum::Held(held)).expect(rt, "memory");
    variables
}

// One value more in the first collection of a state, which may hold so many.
fn push(
    rt: &impl Abort,
    variables: &mut Variables,
    capacity: u64,
    value: i64,
) -> Result<(), Fault> {
    let Some(DatumView::Held(held)) = variables.get(0) else {
        return Err(Fault::Empty);
    };
    test_room(held.count(), capacity)?;
    variables.make_room(0, capacity).expect(rt, "memory");
    variables.edit(Change::Push, 0, value).expect(rt, "memory");
    Ok(())
}

#[test]
fn a_queue_takes_4096_values_whatever_its_capacity(rt: HostRuntime) {
    let mut variables = state_of_queue(&rt);
    for value in 0..4096 {
        same!(rt; push(&rt, &mut variables, 4097, value), Ok(()));
    }
    same!(rt; push(&rt, &mut variables, 4097, 1), Err(Fault::Full));
    let mut small = state_of_queue(&rt);
    same!(rt; push(&rt, &mut small, 1, 7), Ok(()));
    same!(rt; push(&rt, &mut small, 1, 7), Err(Fault::Full));
}
