//! Makes a world of the one process of a plan.

ghost use Rattle.std.specs.Prelude.{◌≡◌, ◌∷◌, [], List, IfOk, length, map};
ghost use Rattle.dv_bag.specs.Bag.{Counts};
ghost use Rattle.dv_bag.specs.Part.{nothing};
ghost use Rattle.dv_conservative.specs.World.{new_world};
ghost use Rattle.dv_core.specs.Conservative.{state_by};
ghost use Rattle.dv_core.specs.Worlds.{AreMadeFor, shown};
ghost use Rattle.dv_local.specs.States.{view_by};
ghost use Rattle.dv_plan.specs.Beginning.{CanRun};

use crate::plan::Plan;
use dv_core::{LogicalProcess, PlannedJob, World};
use dv_local::{LocalRun, begin};
use dv_proc::{Channel, Process};
use dv_react::Atomic;
use dv_record::Record;
use std::alloc::{AllocError, Global};

// The single item of a list.
fn only<T: Drop>(items: Vec<T>) -> T
    requires { length items.items ≡ 1 }
    ensures { items.items ≡ result ∷ [] }
{
    let mut items = items;
    let Some(item) = items.pop() else {
        unreachable!()
    };
    item
}

// A new world of one process.
fn world_of_one<J: PlannedJob, P: LogicalProcess>(
    alloc: Global,
    job: J,
    links: Vec<Channel>,
    process: P,
    capacity: usize,
) -> Result<World<J, P>, AllocError>
    requires { AreMadeFor J.means P.state P.valid job links.items (process ∷ []) }
    ensures fresh { IfOk result (λ w. shown J.means P.state w ≡ new_world capacity) }
    ensures job { IfOk result (λ w. w.job ≡ job) }
    ensures processes { IfOk result (λ w. w.processes.items ≡ process ∷ []) }
{
    let mut processes = Vec::new(alloc);
    processes.push(process)?;
    let world = World::new(alloc, job, links, processes, capacity)?;
    Ok(world)
}

/// A new world of the one process of a plan. The process has the given record, which is empty. Each
/// link has room for `capacity` packets.
///
/// # Errors
///
/// No memory for the process, or for the links.
pub fn world_alone<J: PlannedJob, A: Atomic + Drop, R: Record>(
    alloc: Global,
    job: J,
    plan: Plan<A>,
    to: R,
    capacity: usize,
) -> Result<World<J, Process<LocalRun<A, R>>>, AllocError>
    requires comes { (a : A) (bags : List Counts) → A.comes a bags }
    requires run { CanRun J.means A.behaviour A.fits job plan }
    requires alone { length plan.shares.items ≡ 1 }
    requires told { R.told to ≡ nothing }
    requires at_rest { R.settled to ≡ R.told to }
    ensures fresh { IfOk result (λ w. shown J.means (state_by (view_by A.behaviour R.told)) w
        ≡ new_world capacity) }
    ensures job { IfOk result (λ w. w.job ≡ job) }
    ensures handed { IfOk result (λ w. map (λ p. R.handed p.local.record) w.processes.items
        ≡ R.handed to ∷ []) }
{
    let Plan { links, shares } = plan;
    let process = begin(alloc, only(shares), to)?;
    let world = world_of_one(alloc, job, links, process, capacity)?;
    Ok(world)
}
