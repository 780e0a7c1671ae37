//! Waits of components: a time, or none.

ghost use Rattle.std.specs.Prelude.{◌≡◌, ℕ, ◌+◌, ◌^◌, ◌<◌, ◌≤◌, ◌↔◌, ◌++◌, IsTrue, List, None, OnErr, OnOk, length, slice_index_or, take};
ghost use Rattle.std.specs.Vec.{vec_capacity};
ghost use Rattle.dv_agenda.specs.Waits.{due_at, ends_at};

use dv_time::Time;
use std::alloc::AllocError;

/// Whether two waits end at the same time.
#[inline]
pub(crate) fn is_same(one: Option<Time>, other: Option<Time>) -> bool
    ensures { IsTrue result ↔ (one ≡ other) }
{
    one == other
}

/// The wait of a component. It is none for an index past the end.
#[inline]
pub(crate) fn wait_at(waits: &[Option<Time>], index: usize) -> Option<Time>
    ensures { result ≡ slice_index_or waits.now index None }
{
    if index < waits.len() {
        waits[index]
    } else {
        None
    }
}

/// Whether a wait ends at a time.
#[inline]
pub(crate) fn ends_at(wait: Option<Time>, time: Time) -> bool
    ensures { result ≡ ends_at time wait }
{
    match wait {
        Some(end) => (end.tick == time.tick) & (end.micro == time.micro),
        None => false,
    }
}

/// Whether a component waits for a time.
#[inline]
pub(crate) fn is_due(waits: &[Option<Time>], index: usize, time: Time) -> bool
    ensures due { result ≡ ends_at time (slice_index_or waits.now index None) }
    ensures within { IsTrue result → index < length waits.now }
{
    ends_at(wait_at(waits, index), time)
}

/// Adds a component to a list, if it waits for the time.
#[inline]
pub(crate) fn push_due(
    waits: &[Option<Time>],
    index: usize,
    time: Time,
    into: &mut Vec<u32>,
) -> Result<(), AllocError>
    requires few { length waits.now ≤ 2 ^ 32 }
    ensures due { (before : List ℕ)
        → into.old.items ≡ before ++ due_at time (take index waits.now)
        → OnOk result (into.new.items ≡ before ++ due_at time (take (index + 1) waits.now)) }
    ensures capacity { vec_capacity into.old ≤ vec_capacity into.new }
    ensures full { (before : List ℕ)
        → into.old.items ≡ before ++ due_at time (take index waits.now)
        → OnErr result (vec_capacity into.old < length before + length (due_at time waits.now)) }
{
    if is_due(waits, index, time) {
        into.push(index as u32)?;
    }
    Ok(())
}
