//! Inputs from outside, and their times.

ghost use Rattle.std.specs.Prelude.{◌≡◌, ℕ, ◌≤◌, IfOk};
ghost use Rattle.dv_bag.specs.Inputs.{inputs_at, inputs_before, time_at};
ghost use Rattle.dv_react.specs.Components.{IsNextOfRun, rank_of};
ghost use Rattle.dv_time.specs.Time.{IsOfRun, next_rank, succ};
ghost use Rattle.dv_time.specs.Limits.{greatest_tick};
ghost use Rattle.dv_plain.specs.InputTimes.{IsOfRunIf, rank_if};

use dv_bag::{Bags, Inputs};
use dv_react::Instant;
use dv_time::Next;
use std::alloc::{AllocError, Global};

/// The time of the input at an index; never, if there are no more inputs.
pub fn next_input(inputs: &Inputs, index: usize) -> Next
    ensures rank { (limit : ℕ)
        → next_rank limit result ≡ rank_if limit (time_at inputs.now index) }
    ensures of_run { (limit : ℕ) → IsOfRunIf limit (time_at inputs.now index)
        → IsNextOfRun limit result }
{
    match inputs.next_time(index) {
        Some(time) => Next::At(time),
        None => Next::Never,
    }
}

/// The inputs of an instant, a bag for each of so many ports, and the index of the first input
/// after it. `index` is that of the first input at the instant or later.
///
/// # Errors
///
/// No memory for the bags.
pub fn input_at(
    alloc: Global,
    inputs: &Inputs,
    ports: usize,
    instant: &Instant,
    index: usize,
) -> Result<(Bags, usize), AllocError>
    requires within { instant.now.time.tick ≤ greatest_tick }
    requires of_run { IsOfRun instant.now.limit instant.now.time }
    requires index { index ≡ inputs_before instant.now.limit inputs.now instant.now.time }
    ensures bags { IfOk result (λ r.
        r.0 ≡ inputs_at instant.now.limit ports inputs.now (rank_of instant.now)) }
    ensures after { IfOk result (λ r.
        r.1 ≡ inputs_before instant.now.limit inputs.now
        (succ instant.now.limit instant.now.time)) }
{
    let bags = inputs.bags_at(alloc, ports, instant.time, index)?;
    let next = instant.time.succ(instant.limit);
    let after = inputs.index_from(index, next, instant.limit);
    Ok((bags, after))
}
