//! The collections that loops walk.

ghost use Rattle.std.specs.Prelude.{◌≡◌, ◌+◌, ◌<◌, ◌^◌, IfSome, slice_get};
ghost use Rattle.dv_bag.specs.Bag.{bag_at};
ghost use Rattle.dv_bag.specs.Collections.{singles};
ghost use Rattle.dv_code.specs.Turns.{walked_bag};

use dv_bag::{Arrivals, Bag, Queue};

/// The collection that a loop walks: the bag that has arrived at an input port, which is looked up
/// each time, or a copy of a bag or a queue of the state as the loop began.
#[derive(Drop)]
pub(crate) enum Walk {
    Port(usize),
    Copy(Bag),
    Line(Queue),
}

impl Walk {
    /// A value of the collection with its number of copies, by its index among the values, if there
    /// is one. In a queue each value has one copy.
    #[inline(always)]
    pub(crate) fn pair(&self, number: usize, arrivals: &Arrivals) -> Option<(i64, u64)>
        ensures pair { result ≡ slice_get (walked_bag arrivals.now self.now) number }
        ensures some { IfSome result (λ pair. (0 < pair.1) × (number + 1 < 2 ^ 64)) }
    {
        match self {
            Walk::Port(port) => arrived(*port, number, arrivals),
            Walk::Copy(bag) => pair_of(bag, number),
            Walk::Line(queue) => single_of(queue, number),
        }
    }
}

// A value of a bag that has arrived. The bag is searched for, so this is not inlined.
#[inline(never)]
fn arrived(port: usize, number: usize, arrivals: &Arrivals) -> Option<(i64, u64)>
    ensures pair { result ≡ slice_get (bag_at arrivals.now.received port) number }
    ensures some { IfSome result (λ pair. (0 < pair.1) × (number + 1 < 2 ^ 64)) }
{
    pair_of(arrivals.bag(port)?, number)
}

// A value of a bag with its copies.
#[inline(always)]
fn pair_of(bag: &Bag, number: usize) -> Option<(i64, u64)>
    ensures pair { result ≡ slice_get bag.now number }
    ensures some { IfSome result (λ pair. (0 < pair.1) × (number + 1 < 2 ^ 64)) }
{
    let pairs = bag.pairs();
    if number < pairs.len() {
        let (item, copies) = pairs[number];
        Some((item, copies))
    } else {
        None
    }
}

// A value of a queue, as one copy.
#[inline(always)]
fn single_of(queue: &Queue, number: usize) -> Option<(i64, u64)>
    ensures pair { result ≡ slice_get (singles queue.now) number }
    ensures some { IfSome result (λ pair. (0 < pair.1) × (number + 1 < 2 ^ 64)) }
{
    if number < queue.len() {
        Some((queue.get(number)?, 1))
    } else {
        None
    }
}
