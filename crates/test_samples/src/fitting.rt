//! States that fit the slots of a model, and values that arrive.

ghost use Rattle.std.specs.Prelude.{◌≡◌, ◌≤◌, length, nat_le, option_map, slice_get, IfOk, IfSome, IsTrue};
ghost use Rattle.std.specs.List.{list_all};
ghost use Rattle.dv_bag.specs.Arrivals.{AreFew};
ghost use Rattle.dv_bag.specs.Bag.{size, total};
ghost use Rattle.dv_bag.specs.Collections.{count_in};
ghost use Rattle.dv_bag.specs.Reading.{HoldsFew, datum_of};
ghost use Rattle.dv_bag.specs.Limits.{greatest_count};
ghost use Rattle.dv_code.specs.Shape.{Fits};
ghost use Rattle.test_samples.specs.Fitting.{FitsAt};

use dv_bag::{
    Bag, Bags, Collection, Datum, DatumView, Discipline, GREATEST_COUNT, Held, Queue, State,
    Variables,
};
use dv_code::Slot;
use std::alloc::{AllocError, Global};

/// Whether each slot holds what it may hold.
pub fn fits(slots: &[Slot], variables: &Variables) -> bool
    ensures { IsTrue result → Fits slots.now variables.now }
{
    if slots.len() != variables.len() {
        return false;
    }
    for (index, slot) in slots.iter().enumerate() {
        if !fits_slot(*slot, variables.get(index)) {
            return false;
        }
    }
    true
}

fn fits_slot(slot: Slot, datum: Option<DatumView>) -> bool
    requires { IfSome datum (λ view. HoldsFew view) }
    ensures { IsTrue result → FitsAt slot (option_map datum_of datum.entry) }
{
    match (slot, datum) {
        (Slot::Ranged { low, high }, Some(DatumView::Number(number))) => {
            low <= number && number <= high
        }
        (Slot::Flagged, Some(DatumView::Flag(_))) => true,
        (
            Slot::Holding {
                discipline,
                capacity,
            },
            Some(DatumView::Held(held)),
        ) => held.discipline() == discipline && held.count() <= capacity,
        _ => false,
    }
}

/// Where in its range each slot of a state is.
#[derive(Clone, Copy, Debug)]
pub enum Level {
    /// The least number, false, and an empty bag or queue.
    Low,
    /// A number in the middle, true, a bag of two copies of one value, and a queue of two values
    /// that fall.
    Middle,
    /// The greatest number, true, a bag full of one value, and a queue full of values that fall.
    High,
}

/// A state whose slots are at a level.
///
/// # Errors
///
/// No memory for the state.
pub fn state_at(alloc: Global, slots: &[Slot], level: Level) -> Result<State, AllocError> {
    let mut variables = Variables::new(alloc);
    for slot in slots {
        variables.push(datum_at(alloc, *slot, level)?)?;
    }
    Ok(State {
        phase: 0,
        variables,
    })
}

fn datum_at(alloc: Global, slot: Slot, level: Level) -> Result<Datum, AllocError> {
    match slot {
        Slot::Ranged { low, high } => Ok(Datum::Number(number_at(low, high, level))),
        Slot::Flagged => Ok(Datum::Flag(!matches!(level, Level::Low))),
        Slot::Holding {
            discipline,
            capacity,
        } => {
            let collection = collection_at(alloc, discipline, capacity, level)?;
            Ok(Datum::Held(Held::new(alloc, collection)?))
        }
    }
}

fn number_at(low: i64, high: i64, level: Level) -> i64 {
    match level {
        Level::Low => low,
        Level::Middle => low / 2 + high / 2,
        Level::High => high,
    }
}

fn collection_at(
    alloc: Global,
    discipline: Discipline,
    capacity: u64,
    level: Level,
) -> Result<Collection, AllocError>
    ensures { IfOk result (λ collection. count_in collection ≤ greatest_count) }
{
    match discipline {
        Discipline::Bag => Ok(Collection::Bag(bag_at(alloc, capacity, level)?)),
        Discipline::Queue => Ok(Collection::Queue(queue_at(alloc, capacity, level)?)),
    }
}

fn bag_at(alloc: Global, capacity: u64, level: Level) -> Result<Bag, AllocError>
    ensures { IfOk result (λ bag. total bag ≤ greatest_count) }
{
    let mut bag = Bag::new(alloc);
    let (value, copies) = match level {
        Level::Low => (0, 0),
        Level::Middle => (2, 2),
        Level::High => (7, capacity),
    };
    bag.insert_copies(value, copies)?;
    Ok(if bag.size() <= GREATEST_COUNT {
        bag
    } else {
        Bag::new(alloc)
    })
}

fn queue_at(alloc: Global, capacity: u64, level: Level) -> Result<Queue, AllocError>
    ensures { IfOk result (λ queue. length queue ≤ greatest_count) }
{
    let mut queue = Queue::new(alloc);
    let count = match level {
        Level::Low => 0,
        Level::Middle => 2,
        Level::High => capacity,
    };
    let mut value: i64 = 7;
    for _number in 0..count {
        queue.push(value)?;
        value = value.wrapping_sub(2);
    }
    Ok(if queue.len() as u64 <= GREATEST_COUNT {
        queue
    } else {
        Queue::new(alloc)
    })
}

/// Nothing, one value, and some of which one comes three times, at each of so many ports.
///
/// # Errors
///
/// No memory for the bags.
pub fn deliveries(alloc: Global, ports: usize) -> Result<[Bags; 3], AllocError> {
    Ok([
        Bags::empty(alloc, ports),
        bags_of(alloc, ports, &[1])?,
        bags_of(alloc, ports, &[5, 5, 5, -2])?,
    ])
}

/// These values at each of so many ports.
fn bags_of(alloc: Global, ports: usize, values: &[i64]) -> Result<Bags, AllocError> {
    let mut bags = Bags::empty(alloc, ports);
    for port in 0..ports {
        put_all(&mut bags, port, values)?;
    }
    Ok(bags)
}

fn put_all(bags: &mut Bags, port: usize, values: &[i64]) -> Result<(), AllocError> {
    for value in values {
        if port < bags.len() {
            bags.insert(port, *value)?;
        }
    }
    Ok(())
}
