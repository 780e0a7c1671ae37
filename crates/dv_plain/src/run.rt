//! The run of a resultant.

ghost use Rattle.std.specs.Prelude.{◌≡◌, ℕ, ◌≤◌, IfOk, Some, length};
ghost use Rattle.dv_bag.specs.Inputs.{inputs_before, time_at};
ghost use Rattle.dv_bag.specs.Part.{joined};
ghost use Rattle.dv_devs.specs.NextTimes.{least_next};
ghost use Rattle.dv_devs.specs.Network.{components_after, part_of_instant};
ghost use Rattle.dv_react.specs.Components.{AreWaitsOfRun, IsNextOfRun, IsWaitOfRun, component_of, components_of, next_of_wait, rank_of};
ghost use Rattle.dv_syntax.specs.Trees.{atomic_of, file_of};
ghost use Rattle.dv_time.specs.Time.{IsOfRun, earlier, next_rank, rank, succ};
ghost use Rattle.dv_time.specs.Limits.{greatest_limit, greatest_tick};
ghost use Rattle.dv_tree.specs.Instances.{instances};
ghost use Rattle.dv_plain.specs.InputTimes.{IsOfRunIf, rank_if};
ghost use Rattle.dv_plain.specs.Source.{network_of, outside, start_of, trace_of};

use crate::atom::Atom;
use crate::input::{input_at, next_input};
use crate::laws::networks_of_texts;
use crate::network::run_instant;
use dv_bag::inputs::laws::{indices_follow_times, nothing_comes_in_between};
use dv_bag::{Bags, Inputs, Part, Trace};
use dv_devs::laws::runs;
use dv_eval::start_state;
use dv_react::{Instant, Running, Wait};
use dv_time::laws::the_end_follows_the_horizon;
use dv_time::{Next, Time};
use dv_tree::Tree;
use std::alloc::{AllocError, Global};

/// The trace of the resultant of a text with these inputs, up to a horizon in ticks, under a
/// microstep limit. Inputs past the horizon are ignored. The run goes from one time at which a hold
/// ends or an input arrives to the next, and visits every component there.
///
/// # Errors
///
/// No memory for the components, the bags or the trace.
pub fn resultant_run(
    alloc: Global,
    tree: &Tree,
    inputs: &Inputs,
    horizon: u64,
    limit: u32,
) -> Result<Trace, AllocError>
    requires horizon { horizon ≤ greatest_tick }
    requires least_limit { 1 ≤ limit }
    requires limit { limit ≤ greatest_limit }
    ensures { IfOk result (λ trace.
        trace ≡ trace_of (file_of tree.now.file) inputs.now horizon limit) }
{
    // For the prover alone: between two times of the run nothing happens, and no input arrives.
    the_end_follows_the_horizon();
    networks_of_texts();
    runs::next_times_rise::<Bags>();
    runs::next_instant_is_the_least_next_time::<Bags>();
    indices_follow_times();
    nothing_comes_in_between();
    let _ = inputs.as_slice();
    let mut components = begin(alloc, tree, limit)?;
    let mut trace = Part::new(alloc);
    let mut index = inputs.index_from(0, Time::ZERO, limit);
    'instants: while let Next::At(now) = next_instant(&components, inputs, index) {
        if now.tick > horizon {
            break;
        }
        let instant = Instant { time: now, limit };
        index = play(
            alloc,
            tree,
            &instant,
            inputs,
            index,
            &mut components,
            &mut trace,
        )?;
    }
    Ok(trace)
}

// Runs one instant with its inputs, and returns the index of the first input after it.
fn play(
    alloc: Global,
    tree: &Tree,
    instant: &Instant,
    inputs: &Inputs,
    index: usize,
    components: &mut [Running],
    trace: &mut Part,
) -> Result<usize, AllocError>
    requires matched { length components.old ≡ length (instances (file_of tree.now.file)) }
    requires waits { AreWaitsOfRun instant.now.limit components.old }
    requires within { instant.now.time.tick ≤ greatest_tick }
    requires of_run { IsOfRun instant.now.limit instant.now.time }
    requires index { index ≡ inputs_before instant.now.limit inputs.now instant.now.time }
    ensures components { IfOk result (λ after. components_of instant.now.limit components.new
        ≡ components_after instant.now.limit (network_of instant.now.limit (file_of tree.now.file))
        (rank_of instant.now)
        (outside (file_of tree.now.file) instant.now.limit inputs.now (rank_of instant.now))
        (components_of instant.now.limit components.old)) }
    ensures trace { IfOk result (λ after. trace.new ≡ joined trace.old
        (part_of_instant instant.now.limit (network_of instant.now.limit (file_of tree.now.file))
        (rank_of instant.now)
        (outside (file_of tree.now.file) instant.now.limit inputs.now (rank_of instant.now))
        (components_of instant.now.limit components.old))) }
    ensures waits { IfOk result (λ after. AreWaitsOfRun instant.now.limit components.new) }
    ensures after { IfOk result (λ after.
        after ≡ inputs_before instant.now.limit inputs.now
        (succ instant.now.limit instant.now.time)) }
{
    let ports = tree.input_count();
    let (input, after) = input_at(alloc, inputs, ports, instant, index)?;
    run_instant(alloc, tree, instant, &input, components, trace)?;
    Ok(after)
}

// The components at 0.0.
fn begin(alloc: Global, tree: &Tree, limit: u32) -> Result<Vec<Running>, AllocError>
    ensures start { IfOk result (λ components.
        components_of limit components.items ≡ (network_of limit (file_of tree.now.file)).start) }
    ensures waits { IfOk result (λ components. AreWaitsOfRun limit components.items) }
{
    let mut components = Vec::with_capacity(alloc, tree.component_count())?;
    for k in 0..tree.component_count() {
        components.push(start(alloc, limit, &Atom::of(tree, k))?)?;
    }
    Ok(components)
}

// A component of a model at 0.0.
fn start(alloc: Global, limit: u32, atom: &Atom) -> Result<Running, AllocError>
    ensures start { IfOk result (λ r.
        component_of limit r ≡ start_of limit (atomic_of atom.now.model.now)) }
    ensures wait { IfOk result (λ r. IsWaitOfRun limit r.wait) }
{
    let mut work = alloc;
    let state = start_state(alloc, atom.model, atom.scope)?;
    Running::start(atom, &mut work, limit, state)
}

// The next time at which anything can happen: the least of the components' next times and the time
// of the input at an index.
fn next_instant(components: &[Running], inputs: &Inputs, index: usize) -> Next
    ensures least { (limit : ℕ) → AreWaitsOfRun limit components.now
        → IsOfRunIf limit (time_at inputs.now index) → next_rank limit result
        ≡ earlier (least_next (components_of limit components.now))
        (rank_if limit (time_at inputs.now index)) }
    ensures of_run { (limit : ℕ) → AreWaitsOfRun limit components.now
        → IsOfRunIf limit (time_at inputs.now index) → IsNextOfRun limit result }
{
    let next = next_time(components);
    match next_input(inputs, index) {
        Next::At(time) => Next::At(earlier(next, time)),
        Next::Never => next,
    }
}

// The least of the components' next times.
fn next_time(components: &[Running]) -> Next
    ensures least { (limit : ℕ) → AreWaitsOfRun limit components.now
        → next_rank limit result ≡ least_next (components_of limit components.now) }
    ensures of_run { (limit : ℕ) → AreWaitsOfRun limit components.now → IsNextOfRun limit result }
{
    let mut next = Next::Never;
    for component in components {
        next = sooner(next, component.wait);
    }
    next
}

// The earlier of a next time and the end of a wait.
fn sooner(next: Next, wait: Wait) -> Next
    ensures least { (limit : ℕ) → IsNextOfRun limit next → IsWaitOfRun limit wait
        → next_rank limit result ≡ earlier (next_rank limit next) (next_of_wait limit wait) }
    ensures of_run { (limit : ℕ) → IsNextOfRun limit next → IsWaitOfRun limit wait
        → IsNextOfRun limit result }
{
    match wait {
        Wait::Until(time) => Next::At(earlier(next, time)),
        Wait::Forever | Wait::Quiet => next,
    }
}

// The earlier of a next time and a time.
fn earlier(next: Next, time: Time) -> Time
    ensures least { (limit : ℕ) → IsNextOfRun limit next → IsOfRun limit time
        → Some (rank limit result) ≡ earlier (next_rank limit next) (Some (rank limit time)) }
    ensures of_run { (limit : ℕ) → IsNextOfRun limit next → IsOfRun limit time
        → IsOfRun limit result }
{
    match next {
        Next::At(other) => { if other.is_before(time) { other } else { time } }
        Next::Never => time,
    }
}
