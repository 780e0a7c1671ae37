//! The collections that a program reads.

ghost use Rattle.std.specs.Prelude.{◌≡◌, ◌≢◌, ◌≤◌, [], None, Some, IfSome, slice_get, unwrap_or};
ghost use Rattle.std.specs.Option.{option_copied};
ghost use Rattle.dv_bag.specs.Bag.{total};
ghost use Rattle.dv_bag.specs.Collections.{count_in};
ghost use Rattle.dv_bag.specs.Limits.{greatest_count};
ghost use Rattle.dv_code.specs.Operations.{bag_of, held_in};

use crate::instruction::Source;
use dv_bag::{Arrivals, Bag, Collection, DatumView, State};

/// The bag of a source. `None` is an empty bag: nothing has arrived at the input port.
pub(crate) fn bag_of<'a>(
    source: Source,
    state: &'a State,
    arrivals: &Arrivals<'a>,
) -> Option<&'a Bag>
    requires { bag_of arrivals.now state.now source ≢ None }
    ensures bag { bag_of arrivals.now state.now source
        ≡ Some (unwrap_or (option_copied result) []) }
    ensures few { IfSome result (λ bag. total bag.now ≤ greatest_count) }
{
    match source {
        Source::Own(_, slot) => match state.variables.get(usize::from(slot)) {
            Some(DatumView::Held(Collection::Bag(bag))) => Some(bag),
            _ => unreachable!(),
        },
        Source::Port(port) => arrivals.bag(usize::from(port)),
    }
}

/// The collection of a slot.
pub(crate) fn held_at(slot: usize, state: &State) -> &Collection
    requires { held_in (slice_get state.now.variables slot) ≢ None }
    ensures held { held_in (slice_get state.now.variables slot) ≡ Some result.now }
    ensures few { count_in result.now ≤ greatest_count }
{
    match state.variables.get(slot) {
        Some(DatumView::Held(held)) => held,
        _ => unreachable!(),
    }
}
