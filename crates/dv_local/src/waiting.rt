//! When events and inputs arrive.

ghost use Rattle.std.specs.Prelude.{◌≡◌, ◌<◌, ◌≤◌, ℕ, [], IfOk, IfSome, MatchOption, false, length, true};
ghost use Rattle.dv_bag.specs.Inputs.{IsByTime, inputs_at, inputs_before, next_from, time_at};
ghost use Rattle.dv_time.specs.Limits.{greatest_limit};
ghost use Rattle.dv_time.specs.Time.{IsOfRun, is_before, rank};
ghost use Rattle.dv_time.specs.declared.time.Time.{Time as TimeOfCode};
ghost use Rattle.dv_local.specs.Arrivals.{arrivals_at};
ghost use Rattle.dv_local.specs.Shares.{AreOfRun};
ghost use Rattle.dv_local.specs.Undoing.{arrivals_but, is_taken};

use crate::events::entering_at;
use crate::inbox::Inbox;
use dv_bag::{Bags, Input, Inputs};
use dv_proc::window::is_same;
use dv_share::arrival::bags_of;
use dv_time::Time;
use std::alloc::{AllocError, Global};

/// The first time, not before `from`, at which an event arrives. The arrivals of the time `taken`
/// are committed and do not count.
#[inline]
pub(crate) fn first_held(inbox: &Inbox, taken: Option<Time>, from: Time) -> Option<Time>
    requires small { (t : TimeOfCode) → 0 < length (arrivals_at t inbox.now)
        → t.micro ≤ greatest_limit }
    ensures there { MatchOption result
        ((t : TimeOfCode) → is_before t from ≡ false → arrivals_but taken t inbox.now ≡ [])
        (λ first. (is_before first from ≡ false)
        × (0 < length (arrivals_but taken first inbox.now))) }
    ensures least { IfSome result (λ first. (t : TimeOfCode) → is_before t from ≡ false
        → is_before t first ≡ true → arrivals_but taken t inbox.now ≡ []) }
{
    let first = inbox.first_from(from)?;
    if !is_taken(taken, first) {
        return Some(first);
    }
    let next = Time {
        tick: first.tick,
        micro: first.micro + 1,
    };
    inbox.first_from(next)
}

/// Whether a time is the one that is taken, if one is.
#[inline]
pub(crate) fn is_taken(taken: Option<Time>, time: Time) -> bool
    ensures { result ≡ is_taken taken time }
{
    match taken {
        Some(taken) => is_same(taken, time),
        None => false,
    }
}

/// The time of the first input that is not before `from`.
#[inline]
pub(crate) fn first_outside(inputs: &[Input], from: Time) -> Option<Time>
    requires { IsByTime inputs.now }
    ensures { (limit : ℕ) → AreOfRun limit inputs.now → result ≡ next_from limit inputs.now from }
{
    if inputs.is_empty() {
        return None;
    }
    let index = inputs_before(inputs, from);
    time_at(inputs, index)
}

// The time of the input at an index, if there is one.
fn time_at(inputs: &[Input], index: usize) -> Option<Time>
    ensures { result ≡ time_at inputs.now index }
{
    inputs.get(index).map(|input| input.time)
}

/// The inputs from outside at a time, as a bag for each of so many ports. They are sorted first, so
/// that each value goes to the end of its bag.
///
/// # Errors
///
/// No memory for the sorted list, or for the bags.
pub(crate) fn outside_at(
    alloc: Global,
    inputs: &Inputs,
    ports: u32,
    now: Time,
) -> Result<Bags, AllocError>
    requires { (limit : ℕ) × IsOfRun limit now × AreOfRun limit inputs.now }
    ensures { IfOk result (λ bags. (limit : ℕ) → IsOfRun limit now
        → bags ≡ inputs_at limit ports inputs.now (rank limit now)) }
{
    let inputs = inputs.as_slice();
    if inputs.is_empty() {
        return Ok(Bags::empty(alloc, ports as usize));
    }
    let index = inputs_before(inputs, now);
    let mut entering = entering_at(alloc, &inputs[index..], now)?;
    entering.sort_unstable();
    bags_of(alloc, 0, ports, &entering)
}

// The index of the first input that is not before a time, by a binary search.
#[inline(never)]
fn inputs_before(inputs: &[Input], time: Time) -> usize
    requires { IsByTime inputs.now }
    ensures index { (limit : ℕ) → AreOfRun limit inputs.now
        → result ≡ inputs_before limit inputs.now time }
    ensures within { result ≤ length inputs.now }
{
    inputs.partition_point(|input| input.time.is_before(time))
}
