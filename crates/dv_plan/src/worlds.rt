//! Makes a world of the processes of a plan.

ghost use Rattle.std.specs.Prelude.{◌≡◌, List, IfOk};
ghost use Rattle.std.specs.List.{All};
ghost use Rattle.dv_bag.specs.Bag.{Counts};
ghost use Rattle.dv_conservative.specs.World.{new_world};
ghost use Rattle.dv_core.specs.Conservative.{state_by};
ghost use Rattle.dv_core.specs.Worlds.{shown};
ghost use Rattle.dv_local.specs.States.{view_by};
ghost use Rattle.dv_record.specs.Told.{no_text};
ghost use Rattle.dv_plan.specs.Beginning.{CanRun};

use crate::plan::Plan;
use crate::processes::begin_each;
use dv_core::{PlannedJob, World};
use dv_local::LocalRun;
use dv_proc::Process;
use dv_react::Atomic;
use dv_record::Record;
use dv_written::MakesRecord;
use std::alloc::{AllocError, Global};

/// A new world of the processes of a plan, each with a record of its own. No process has committed,
/// sent or handed over anything, and no packet is on its way. Each link has room for `capacity`
/// packets.
///
/// # Errors
///
/// No memory for the processes, or for the links.
pub fn world_of<J: PlannedJob, A: Atomic + Drop, R: Record, M: MakesRecord<R>>(
    alloc: Global,
    job: J,
    plan: Plan<A>,
    maker: &M,
    capacity: usize,
) -> Result<World<J, Process<LocalRun<A, R>>>, AllocError>
    requires comes { (a : A) (bags : List Counts) → A.comes a bags }
    requires run { CanRun J.means A.behaviour A.fits job plan }
    ensures fresh { IfOk result (λ w. shown J.means (state_by (view_by A.behaviour R.told)) w
        ≡ new_world capacity) }
    ensures job { IfOk result (λ w. w.job ≡ job) }
    ensures handed { IfOk result (λ w.
        All (λ p. R.handed p.local.record ≡ no_text) w.processes.items) }
{
    let Plan { links, shares } = plan;
    let processes = begin_each::<A, R, M>(alloc, shares, maker)?;
    let world = World::new(alloc, job, links, processes, capacity)?;
    Ok(world)
}
