//! From events to deliveries, from deliveries to events, and from inputs to deliveries.

ghost use Rattle.std.specs.Prelude.{◌≡◌, ◌++◌, IfOk, filter, map};
ghost use Rattle.std.specs.List.{take_while};
ghost use Rattle.dv_bag.specs.Inputs.{is_at};
ghost use Rattle.dv_conservative.specs.Events.{event_of};
ghost use Rattle.dv_proc.specs.Packets.{meant_events};
ghost use Rattle.dv_share.specs.Links.{deliveries_of};
ghost use Rattle.dv_local.specs.Arrivals.{brings, delivery_in, entered_by};

use dv_bag::Input;
use dv_proc::Event;
use dv_share::Delivery;
use dv_time::Time;
use std::alloc::{AllocError, Global};

/// The delivery of an event.
pub(crate) fn delivery_in(event: &Event) -> Delivery
    ensures { result ≡ delivery_in event.now }
{
    Delivery {
        component: event.component,
        port: event.port,
        value: event.value,
        copies: event.copies,
    }
}

/// The events that bring something: those with copies, at times within the microstep limit.
///
/// # Errors
///
/// No memory for the list.
pub(crate) fn bringing(
    alloc: Global,
    limit: u32,
    events: &[Event],
) -> Result<Vec<Event>, AllocError>
    ensures { IfOk result (λ found. found.items ≡ filter (brings limit) events.now) }
{
    events
        .iter()
        .filter(|event| event.copies > 0 && event.time.micro <= limit)
        .copied()
        .collect(alloc)
}

/// Appends the events of deliveries at a time.
///
/// # Errors
///
/// No memory. Some events may have been added.
pub(crate) fn add_events(
    into: &mut Vec<Event>,
    now: Time,
    deliveries: &[Delivery],
) -> Result<(), AllocError>
    ensures { IfOk result (λ _. meant_events into.new.items
        ≡ meant_events into.old.items ++ map (event_of now) (deliveries_of deliveries.now)) }
{
    for delivery in deliveries {
        into.push(Event {
            time: now,
            component: delivery.component,
            port: delivery.port,
            value: delivery.value,
            copies: delivery.copies,
        })?;
    }
    Ok(())
}

/// The first inputs, as far as they are at a time, as deliveries to the outside.
///
/// # Errors
///
/// No memory for the list.
pub(crate) fn entering_at(
    alloc: Global,
    inputs: &[Input],
    now: Time,
) -> Result<Vec<Delivery>, AllocError>
    ensures { IfOk result (λ ds. ds.items ≡ map entered_by (take_while (is_at now) inputs.now)) }
{
    inputs
        .iter()
        .take_while(|input| input.time.tick == now.tick && input.time.micro == now.micro)
        .map(|input| Delivery {
            component: 0,
            port: input.port,
            value: input.value,
            copies: 1,
        })
        .collect(alloc)
}
