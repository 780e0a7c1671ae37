//! Arrivals in a map by time.

ghost use Rattle.std.specs.Prelude.{◌≡◌, ◌<◌, ◌≤◌, ◌++◌, ◌-◌, List, length, map, take, if◌then◌else◌, OnOk, OnErr};
ghost use Rattle.dv_agenda.specs.Waits.{same_time};
ghost use Rattle.dv_share.specs.declared.link.Delivery.{Delivery as MeantDelivery};
ghost use Rattle.dv_time.specs.declared.time.Time.{Time as MeantTime};
ghost use Rattle.dv_local.specs.Arrivals.{AllFilled, AreAt, BringOnlyAt, coming_at, delivery_in, items_at};

use crate::events::delivery_in;
use dv_proc::Event;
use dv_proc::window::is_same;
use dv_share::Delivery;
use dv_time::Time;
use std::alloc::{AllocError, Global};
use std::collections::BTreeMap;

/// Arrivals by time, at each time in the order in which they came.
pub(crate) type ByTime = BTreeMap<Time, Vec<Delivery>>;

/// The time of the first event, and how many events from the first one on have it. Packets mostly
/// have many events of few times.
pub(crate) fn first_run(events: &[Event]) -> (Time, usize)
    requires { 0 < length events.now }
    ensures some { 0 < result.1 }
    ensures within { result.1 ≤ length events.now }
    ensures together { AreAt result.0 (take result.1 events.now) }
{
    let time = events[0].time;
    let mut count = 1;
    while count < events.len() && is_same(events[count].time, time) {
        count += 1;
    }
    (time, count)
}

// Appends the deliveries of events. After an error the list is as before.
fn push_all(list: &mut Vec<Delivery>, events: &[Event]) -> Result<(), AllocError>
    ensures ok { OnOk result (list.new.items ≡ list.old.items ++ map delivery_in events.now) }
    ensures err { OnErr result (list.new.items ≡ list.old.items) }
{
    let before = list.len();
    for event in events {
        if list.push(delivery_in(event)).is_err() {
            list.truncate(before);
            return Err(AllocError);
        }
    }
    Ok(())
}

/// Adds the deliveries of events that have one time; there is at least one.
pub(crate) fn add_run(
    by_time: &mut ByTime,
    alloc: Global,
    time: Time,
    events: &[Event],
) -> Result<(), AllocError>
    requires filled { AllFilled by_time.old }
    requires some { 0 < length events.now }
    requires together { BringOnlyAt time events.now }
    ensures filled { AllFilled by_time.new }
    ensures added { OnOk result ((t : MeantTime)
        → items_at t by_time.new ≡ items_at t by_time.old ++ coming_at t events.now) }
    ensures err { OnErr result ((t : MeantTime) → items_at t by_time.new ≡ items_at t by_time.old) }
{
    if let Some(list) = by_time.get_mut(&time) {
        return push_all(list, events);
    }
    let mut list = Vec::new(alloc);
    push_all(&mut list, events)?;
    by_time.insert(time, list)?;
    Ok(())
}

/// Removes the last arrival at a time, if there is one.
pub(crate) fn take_back(by_time: &mut ByTime, time: Time)
    requires filled { AllFilled by_time.old }
    ensures filled { AllFilled by_time.new }
    ensures taken { (t : MeantTime) → items_at t by_time.new
        ≡ (if same_time time t
        then take (length (items_at t by_time.old) - 1) (items_at t by_time.old)
        else items_at t by_time.old) }
{
    if let Some(list) = by_time.get_mut(&time) {
        let _ = list.pop();
        if !list.is_empty() {
            return;
        }
    }
    by_time.remove(&time);
}

/// Removes the arrivals of events that were added last.
pub(crate) fn take_all_back(by_time: &mut ByTime, events: &[Event])
    requires filled { AllFilled by_time.old }
    ensures filled { AllFilled by_time.new }
    ensures taken { (before : MeantTime → List MeantDelivery)
        → ((t : MeantTime) → items_at t by_time.old ≡ before t ++ coming_at t events.now)
        → (t : MeantTime) → items_at t by_time.new ≡ before t }
{
    let mut left = events.len();
    while left > 0 {
        left -= 1;
        take_back(by_time, events[left].time);
    }
}
