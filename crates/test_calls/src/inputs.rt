//! Inputs are found by time.

ghost use Rattle.std.specs.Prelude.{◌≡◌};

use crate::compare::same;
use crate::times::at;
use dv_bag::{Input, Inputs};
use dv_time::Time;
use std::process::Abort;

fn input(time: Time, port: u32, value: i64) -> Input
    ensures { result.time ≡ time }
{
    Input { time, port, value }
}

// Two equal inputs at a port, then one at another port, and one at the first again.
fn four<R: Abort + AllocGlobal>(rt: &R) -> Inputs {
    let mut inputs = Inputs::new(rt.alloc());
    inputs.push(input(at(0, 0), 0, 10)).expect(rt, "memory");
    inputs.push(input(at(0, 0), 0, 10)).expect(rt, "memory");
    inputs.push(input(at(1, 0), 1, -1)).expect(rt, "memory");
    inputs.push(input(at(7, 0), 0, 3)).expect(rt, "memory");
    inputs
}

#[test]
fn inputs_at_a_port_are_its_bag(rt: HostRuntime) {
    let inputs = four(&rt);
    let index = inputs.index_from(0, Time::ZERO, 1);
    let bags = inputs
        .bags_at(rt.alloc(), 2, Time::ZERO, index)
        .expect(&rt, "memory");
    same!(rt; bags.get(0).map(|bag| bag.pairs()), Some([(10, 2)].as_slice()));
    same!(rt; bags.get(1).map(|bag| bag.pairs()), None);
}

#[test]
fn a_walk_goes_on_from_a_index(rt: HostRuntime) {
    let inputs = four(&rt);
    same!(rt; inputs.len(), 4);
    same!(rt; inputs.last_time(), at(7, 0));
    same!(rt; inputs.next_time(inputs.index_from(0, at(0, 1), 1)), Some(at(1, 0)));
    same!(rt; inputs.next_time(inputs.index_from(0, at(1, 1), 1)), Some(at(7, 0)));
}

#[test]
fn inputs_above_the_limit_are_passed_by(rt: HostRuntime) {
    let mut inputs = Inputs::new(rt.alloc());
    inputs.push(input(at(1, 1), 0, 5)).expect(&rt, "memory");
    inputs.push(input(at(1, 4), 0, 5)).expect(&rt, "memory");
    inputs.push(input(at(2, 0), 0, 5)).expect(&rt, "memory");
    same!(rt; inputs.next_time(inputs.index_from(0, at(1, 2), 3)), Some(at(2, 0)));
    same!(rt; inputs.next_time(inputs.index_from(0, at(1, 2), 4)), Some(at(1, 4)));
}
