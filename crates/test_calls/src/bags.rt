//! What is not proved: that the calls succeed, and that the definitions say what is meant.

use crate::compare::same;
use dv_bag::{
    Bag, Bags, Collection, Datum, DatumView, Entry, Held, KeptVariables, Kind, Outer, Part, Sent,
    State, Variables, What,
};
use dv_time::Time;
use std::process::Abort;

fn bag_of<R: Abort + AllocGlobal>(rt: &R, values: &[i64]) -> Bag {
    let mut bag = Bag::new(rt.alloc());
    for value in values {
        bag.insert(*value).expect(rt, "memory");
    }
    bag
}

#[test]
fn a_count_stands_at_its_greatest(rt: HostRuntime) {
    let mut bag = bag_of(&rt, &[6]);
    bag.insert_copies(5, 18_446_744_073_709_551_614)
        .expect(&rt, "memory");
    bag.insert(5).expect(&rt, "memory");
    bag.insert(5).expect(&rt, "memory");
    same!(rt; bag.times(5), 18_446_744_073_709_551_615);
    same!(rt; bag.size(), 18_446_744_073_709_551_615);
}

#[test]
fn bags_unite_and_are_copied(rt: HostRuntime) {
    let mut bag = bag_of(&rt, &[1, 2]);
    let copy = bag.clone().expect(&rt, "memory");
    same!(rt; copy == bag, true);
    same!(rt; copy == bag_of(&rt, &[1, 3]), false);
    let mut other = bag_of(&rt, &[1, 3]);
    other.copy_from(&bag).expect(&rt, "memory");
    same!(rt; other == bag, true);
    bag.union(&bag_of(&rt, &[3, 2, 0])).expect(&rt, "memory");
    same!(rt; bag.pairs(), [(0, 1), (1, 1), (2, 2), (3, 1)].as_slice());
}

// Adds a value at a port that is there.
fn put(rt: &impl Abort, bags: &mut Bags, port: usize, value: i64) {
    assert!(rt; port < bags.len());
    bags.insert(port, value).expect(rt, "memory");
}

// Adds a bag at a port that is there.
fn unite(rt: &impl Abort, bags: &mut Bags, port: usize, values: &Bag) {
    assert!(rt; port < bags.len());
    bags.union_at(port, values).expect(rt, "memory");
}

fn same_in_port(rt: &impl Abort, bag: Option<&Bag>, wanted: Option<&[(i64, u64)]>) {
    assert!(rt; bag.map(|bag| bag.pairs()) == wanted);
}

// What stands in bags at three ports, with values at the first and the last.
fn same_in_bags(rt: &impl Abort, bags: &Bags) {
    same!(*rt; bags.is_empty(), false);
    same!(*rt; bags.are_few(), true);
    same!(*rt; bags.len(), 3);
    same_in_port(rt, bags.get(0), Some(&[(1, 1)]));
    same_in_port(rt, bags.get(1), None);
    same_in_port(rt, bags.get(2), Some(&[(4, 1), (5, 2)]));
    same_in_port(rt, bags.get(3), None);
    same!(*rt; bags.held().len(), 2);
}

#[test]
fn bags_stand_by_port(rt: HostRuntime) {
    let mut bags = Bags::empty(rt.alloc(), 3);
    same!(rt; bags.is_empty(), true);
    put(&rt, &mut bags, 2, 5);
    unite(&rt, &mut bags, 2, &bag_of(&rt, &[5, 4]));
    put(&rt, &mut bags, 0, 1);
    same_in_bags(&rt, &bags);
    let copy = bags.clone().expect(&rt, "memory");
    same_in_bags(&rt, &copy);
}

// What is sent by these values, each at a port that is there.
fn sent_of<R: Abort + AllocGlobal>(rt: &R, ports: usize, values: &[(usize, i64)]) -> Sent {
    let mut sent = Sent::empty(rt.alloc(), ports);
    for (port, value) in values {
        assert!(rt; *port < sent.len());
        sent.insert(*port, *value).expect(rt, "memory");
    }
    sent
}

fn same_at_port(rt: &impl Abort, sent: &Sent, port: usize, wanted: &[(i64, u64)]) {
    let bag = sent.bag(port).expect(rt, "memory");
    assert!(rt; bag.pairs() == wanted, "port {port}");
}

#[test]
fn what_is_sent_has_a_bag_a_port(rt: HostRuntime) {
    same!(rt; Sent::empty(rt.alloc(), 3).is_empty(), true);
    let sent = sent_of(&rt, 3, &[(2, 5), (0, 1), (2, 4), (2, 5)]);
    same!(rt; sent.is_empty(), false);
    same!(rt; sent.len(), 3);
    same!(rt; sent.total(), 4);
    same_at_port(&rt, &sent, 0, &[(1, 1)]);
    same_at_port(&rt, &sent, 1, &[]);
    same_at_port(&rt, &sent, 2, &[(4, 1), (5, 2)]);
    same_at_port(&rt, &sent, 3, &[]);
}

#[test]
fn one_value_is_sent_as_it_is(rt: HostRuntime) {
    same!(rt; Sent::of_one(rt.alloc(), 3, 2, 5) == sent_of(&rt, 3, &[(2, 5)]), true);
    same!(rt; Sent::of_one(rt.alloc(), 3, 2, 5) == sent_of(&rt, 3, &[(1, 5)]), false);
}

// A state of a flag, a number and an empty bag.
fn state_of<R: Abort + AllocGlobal>(rt: &R, number: i64) -> State {
    let bag = Collection::Bag(Bag::new(rt.alloc()));
    let bag = Held::new(rt.alloc(), bag).expect(rt, "memory");
    let mut variables = Variables::new(rt.alloc());
    variables.push(Datum::Flag(true)).expect(rt, "memory");
    variables.push(Datum::Number(number)).expect(rt, "memory");
    variables.push(Datum::Held(bag)).expect(rt, "memory");
    State {
        phase: 1,
        variables,
    }
}

#[test]
fn variables_stand_in_order(rt: HostRuntime) {
    let mut state = state_of(&rt, 7);
    let before = state.clone().expect(&rt, "memory");
    same!(rt; before == state, true);
    if state.variables.len() > 1 {
        state.variables.set_flag(0, false);
        state.variables.set_number(1, 8);
    }
    same!(rt; before == state, false);
    same!(rt; state.variables.get(0), Some(DatumView::Flag(false)));
    same!(rt; state.variables.get(1), Some(DatumView::Number(8)));
    same!(rt; matches!(state.variables.get(2), Some(DatumView::Held(Collection::Bag(_)))), true);
    same!(rt; state.variables.get(3), None);
    same!(rt; state.variables.len(), 3);
}

#[test]
fn variables_become_copies(rt: HostRuntime) {
    let from = state_of(&rt, 7);
    let mut to = state_of(&rt, 8);
    let mut kept = KeptVariables::new(rt.alloc());
    kept.copy_from(&from.variables).expect(&rt, "memory");
    kept.swap(&mut to.variables);
    same!(rt; to == from, true);
    kept.copy_from(&Variables::new(rt.alloc()))
        .expect(&rt, "memory");
    same!(rt; kept.into_variables().is_empty(), true);
    let mut shorter = KeptVariables::new(rt.alloc());
    shorter.copy_from(&from.variables).expect(&rt, "memory");
    shorter
        .copy_from(&Variables::new(rt.alloc()))
        .expect(&rt, "memory");
    shorter.copy_from(&from.variables).expect(&rt, "memory");
    same!(rt; shorter.into_variables() == from.variables, true);
}

// A part of transitions of three components, and of one value that leaves by port 4.
fn part_of_three<R: Abort + AllocGlobal>(rt: &R) -> Part {
    let mut part = Part::new(rt.alloc());
    for component in 0..3 {
        let what = What::Transition {
            kind: Kind::External,
            state: state_of(rt, 1),
        };
        part.push_entry(Entry {
            time: Time::ZERO,
            component,
            what,
            sent: Sent::empty(rt.alloc(), 1),
        })
        .expect(rt, "memory");
    }
    part.push_outer(Outer {
        time: Time::ZERO,
        port: 4,
        values: bag_of(rt, &[2]),
    })
    .expect(rt, "memory");
    part
}

// The components and the ports of a part.
fn order_of<R: Abort + AllocGlobal>(rt: &R, part: &Part) -> String {
    let mut order = String::new(rt.alloc());
    for entry in part.entries() {
        write!(order, "{} ", entry.component).expect(rt, "memory");
    }
    for outer in part.outer() {
        write!(order, "out {} ", outer.port).expect(rt, "memory");
    }
    order
}

#[test]
fn a_part_keeps_its_order(rt: HostRuntime) {
    let copy = part_of_three(&rt).clone().expect(&rt, "memory");
    let order = order_of(&rt, &copy);
    same!(rt; order.as_str(), "0 1 2 out 4 ");
}
