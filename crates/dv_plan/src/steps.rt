//! Runs the processes of a plan by a list of steps.

ghost use Rattle.std.specs.Prelude.{◌≡◌, ℕ, List, IfOk};
ghost use Rattle.dv_bag.specs.Bag.{Counts};
ghost use Rattle.dv_conservative.specs.World.{new_world};
ghost use Rattle.dv_core.specs.Worlds.{shown};
ghost use Rattle.dv_plan.specs.Beginning.{CanRun};
ghost use Rattle.dv_plan.specs.Runs.{HasStepped};

use crate::plan::Plan;
use crate::ran::Stepped;
use crate::worlds::world_of;
use dv_core::{LogicalProcess, PlannedJob, Step, World, into_parts};
use dv_react::Atomic;
use dv_record::PartRecord;
use dv_written::Blanks;
use std::alloc::{AllocError, Global};

/// Makes the steps of a list with the processes of a plan, from their start: turns, puts, takes and
/// stops, in any order. Each link has room for `capacity` packets. For any list, each process has
/// committed its part of the whole run before its clock, and each turn that is done makes progress.
///
/// # Errors
///
/// No memory for the processes and the replies, or for what was committed.
pub fn step_plan<J: PlannedJob, A: Atomic + Drop>(
    alloc: Global,
    job: J,
    plan: Plan<A>,
    work: &mut A::Work,
    steps: &[Step],
    capacity: usize,
) -> Result<Stepped, AllocError>
    requires comes { (a : A) (bags : List Counts) → A.comes a bags }
    requires run { CanRun J.means A.behaviour A.fits job plan }
    ensures { IfOk result (HasStepped (J.means job) capacity steps.now) }
{
    let world = world_of::<J, A, PartRecord, Blanks>(alloc, job, plan, &Blanks, capacity)?;
    step_world(alloc, world, work, steps)
}

// Makes the steps of a list in a world, and takes the parts and clocks out of it.
fn step_world<J: PlannedJob, P: LogicalProcess<Record = PartRecord>>(
    alloc: Global,
    mut world: World<J, P>,
    work: &mut P::Work,
    steps: &[Step],
) -> Result<Stepped, AllocError>
    ensures { (capacity : ℕ) → shown J.means P.state world ≡ new_world capacity
        → IfOk result (HasStepped (J.means world.job) capacity steps.now) }
{
    let replies = world.run(alloc, work, steps)?;
    let (parts, clocks) = into_parts(alloc, world)?;
    Ok(Stepped {
        parts,
        clocks,
        replies,
    })
}
