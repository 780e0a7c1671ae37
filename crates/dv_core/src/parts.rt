//! Processes whose records keep what they committed as parts of a trace.

ghost use Rattle.std.specs.Prelude.{◌≡◌, IfOk, map};

use crate::process::{LogicalProcess, PlannedJob};
use crate::world::World;
use dv_bag::Part;
use dv_record::{PartRecord, parts_of};
use dv_time::Time;
use std::alloc::{AllocError, Global};

/// What a process committed.
pub fn committed<P: LogicalProcess<Record = PartRecord>>(process: &P) -> &Part
    ensures { result.now ≡ (P.state process.now).part }
{
    process.record().part()
}

/// What a process committed, moved out, and its clock.
pub fn into_part<P: LogicalProcess<Record = PartRecord>>(process: P) -> (Part, Time)
    ensures part { result.0 ≡ (P.state process).part }
    ensures clock { result.1 ≡ (P.state process).position.clock }
{
    let (told, clock) = process.finish();
    (told.into_part(), clock)
}

/// What each process of a world committed, moved out, and the clock of each, by their numbers.
///
/// # Errors
///
/// No memory for the lists. What was committed is lost.
pub fn into_parts<J: PlannedJob, P: LogicalProcess<Record = PartRecord>>(
    alloc: Global,
    world: World<J, P>,
) -> Result<(Vec<Part>, Vec<Time>), AllocError>
    ensures parts { IfOk result (λ r. r.0.items
        ≡ map (λ x. (P.state x).part) world.processes.items) }
    ensures clocks { IfOk result (λ r. r.1.items
        ≡ map (λ x. (P.state x).position.clock) world.processes.items) }
{
    let (records, clocks) = world.finish(alloc)?;
    let parts = parts_of(alloc, records)?;
    Ok((parts, clocks))
}
