//! The values of leaves.

ghost use Rattle.std.specs.Prelude.{◌≡◌, ◌≢◌, ◌≤◌, ℤ, [], None, Ok, Result, Some, IfSome, slice_get, unwrap_or};
ghost use Rattle.std.specs.Option.{option_copied};
ghost use Rattle.dv_bag.specs.Arithmetic.{number_or_empty};
ghost use Rattle.dv_bag.specs.Bag.{bag_at, least, most, total};
ghost use Rattle.dv_bag.specs.declared.collection.Collection.TheVariants as collection;
ghost use Rattle.dv_bag.specs.declared.fault.Fault.{Fault as Meant};
ghost use Rattle.dv_bag.specs.declared.value.Value.TheVariants.{Number, Truth};
ghost use Rattle.dv_bag.specs.Limits.{greatest_count};
ghost use Rattle.dv_code.specs.Machine.{items_of};
ghost use Rattle.dv_code.specs.Operations.{collection_of, flag_in, front_in, held_in, leaf_value, number_in, number_of, size_in, sum_in};
ghost use Rattle.dv_code.specs.Turns.{turns_of};

use crate::instruction::{Leaf, Source};
use crate::open_loop::OpenLoop;
use crate::source::{bag_of, held_at};
use crate::stack::Stack;
use dv_bag::arithmetic::{number_or_empty, ticks_or_overflow};
use dv_bag::{Arrivals, Bag, Collection, DatumView, Fault, State, Value};

/// The value of a leaf, with the open loops.
///
/// # Errors
///
/// `Overflow` of a sum or of the elapsed ticks, and `Empty` of the least or the greatest value of a
/// bag that has none, and of the first value of a queue that has none.
pub(crate) fn leaf_value(
    leaf: Leaf,
    loops: &Stack<OpenLoop>,
    state: &State,
    arrivals: &Arrivals,
) -> Result<Value, Fault>
    requires { leaf_value arrivals.now (items_of (turns_of arrivals.now loops.now)) state.now leaf
        ≢ None }
    ensures { leaf_value arrivals.now (items_of (turns_of arrivals.now loops.now)) state.now leaf
        ≡ Some result }
{
    match leaf {
        Leaf::Number(number) => Ok(Value::Number(number)),
        Leaf::Truth(truth) => Ok(Value::Truth(truth)),
        Leaf::Variable(slot) => Ok(Value::Number(number_at(usize::from(slot), state))),
        Leaf::Flag(slot) => Ok(Value::Truth(flag_at(usize::from(slot), state))),
        Leaf::Item(number) => Ok(Value::Number(loops.item(usize::from(number)))),
        Leaf::Elapsed => ticks_or_overflow(arrivals.elapsed()),
        Leaf::Size(source) => Ok(Value::Number(size_of(source, state, arrivals))),
        Leaf::Sum(source) => sum_of(bag_of(source, state, arrivals)),
        Leaf::Least(source) => least_of(bag_of(source, state, arrivals)),
        Leaf::Most(source) => most_of(bag_of(source, state, arrivals)),
        Leaf::Front(slot) => front_at(usize::from(slot), state),
    }
}

/// The number of a leaf outside all loops. The leaf has to be a number.
///
/// # Errors
///
/// Those of `leaf_value`.
#[inline(always)]
pub(crate) fn leaf_number(leaf: Leaf, state: &State, arrivals: &Arrivals) -> Result<i64, Fault>
    requires { (number : Result ℤ Meant)
        × (leaf_value arrivals.now [] state.now leaf ≡ number_of (Some number)) }
    ensures { leaf_value arrivals.now [] state.now leaf ≡ number_of (Some result) }
{
    match leaf {
        Leaf::Number(number) => Ok(number),
        Leaf::Size(Source::Port(port)) => Ok(size_at(usize::from(port), arrivals)),
        _ => other_number(leaf, state, arrivals),
    }
}

// `leaf_number` for a leaf that is rare where programs are short. It is not inlined, so that
// `leaf_number` is short for the others.
#[inline(never)]
fn other_number(leaf: Leaf, state: &State, arrivals: &Arrivals) -> Result<i64, Fault>
    requires { (number : Result ℤ Meant)
        × (leaf_value arrivals.now [] state.now leaf ≡ number_of (Some number)) }
    ensures { leaf_value arrivals.now [] state.now leaf ≡ number_of (Some result) }
{
    match leaf {
        Leaf::Number(number) => Ok(number),
        Leaf::Variable(slot) => Ok(number_at(usize::from(slot), state)),
        Leaf::Size(source) => Ok(size_of(source, state, arrivals)),
        Leaf::Elapsed => to_number(ticks_or_overflow(arrivals.elapsed())),
        Leaf::Sum(source) => to_number(sum_of(bag_of(source, state, arrivals))),
        Leaf::Least(source) => to_number(least_of(bag_of(source, state, arrivals))),
        Leaf::Most(source) => to_number(most_of(bag_of(source, state, arrivals))),
        Leaf::Front(slot) => to_number(front_at(usize::from(slot), state)),
        Leaf::Truth(_) | Leaf::Flag(_) | Leaf::Item(_) => unreachable!(),
    }
}

// A value as the number that it is.
fn to_number(value: Result<Value, Fault>) -> Result<i64, Fault>
    requires { (number : Result ℤ Meant) × (Some value ≡ number_of (Some number)) }
    ensures { Some value ≡ number_of (Some result) }
{
    match value {
        Ok(Value::Number(number)) => Ok(number),
        Ok(Value::Truth(_)) => unreachable!(),
        Err(fault) => Err(fault),
    }
}

/// The number in a slot.
#[inline]
pub(crate) fn number_at(slot: usize, state: &State) -> i64
    requires { number_in (slice_get state.now.variables slot) ≢ None }
    ensures { number_in (slice_get state.now.variables slot) ≡ Some (Ok (Number result)) }
{
    match state.variables.get(slot) {
        Some(DatumView::Number(number)) => number,
        _ => unreachable!(),
    }
}

// The truth value in a slot.
fn flag_at(slot: usize, state: &State) -> bool
    requires { flag_in (slice_get state.now.variables slot) ≢ None }
    ensures { flag_in (slice_get state.now.variables slot) ≡ Some (Ok (Truth result)) }
{
    match state.variables.get(slot) {
        Some(DatumView::Flag(truth)) => truth,
        _ => unreachable!(),
    }
}

// The first value of the queue in a slot.
fn front_at(slot: usize, state: &State) -> Result<Value, Fault>
    requires { front_in (held_in (slice_get state.now.variables slot)) ≢ None }
    ensures { front_in (held_in (slice_get state.now.variables slot)) ≡ Some result }
{
    match state.variables.get(slot) {
        Some(DatumView::Held(Collection::Queue(queue))) => number_or_empty(queue.get(0)),
        _ => unreachable!(),
    }
}

// The number of values of a collection.
fn size_of(source: Source, state: &State, arrivals: &Arrivals) -> i64
    requires { size_in (collection_of arrivals.now state.now source) ≢ None }
    ensures { size_in (collection_of arrivals.now state.now source) ≡ Some (Ok (Number result)) }
{
    match source {
        Source::Own(_, slot) => held_at(usize::from(slot), state).count() as i64,
        Source::Port(port) => size_at(usize::from(port), arrivals),
    }
}

// The number of values that have arrived at a port.
#[inline]
fn size_at(port: usize, arrivals: &Arrivals) -> i64
    ensures { size_in (Some (collection.Bag (bag_at arrivals.now.received port)))
        ≡ Some (Ok (Number result)) }
{
    match arrivals.bag(port) {
        Some(bag) => bag.size() as i64,
        None => 0,
    }
}

fn sum_of(bag: Option<&Bag>) -> Result<Value, Fault>
    requires { IfSome bag (λ bag. total bag.now ≤ greatest_count) }
    ensures { result ≡ sum_in (unwrap_or (option_copied bag.entry) []) }
{
    match bag {
        Some(bag) => Ok(Value::Number(bag.sum()?)),
        None => Ok(Value::Number(0)),
    }
}

fn least_of(bag: Option<&Bag>) -> Result<Value, Fault>
    ensures { result ≡ number_or_empty (least (unwrap_or (option_copied bag.entry) [])) }
{
    match bag {
        Some(bag) => number_or_empty(bag.least()),
        None => Err(Fault::Empty),
    }
}

fn most_of(bag: Option<&Bag>) -> Result<Value, Fault>
    ensures { result ≡ number_or_empty (most (unwrap_or (option_copied bag.entry) [])) }
{
    match bag {
        Some(bag) => number_or_empty(bag.most()),
        None => Err(Fault::Empty),
    }
}
