//! The clocks of processes.

ghost use Rattle.std.specs.Prelude.{◌≡◌, IfOk, map};

use dv_core::LogicalProcess;
use dv_time::Time;
use std::alloc::{AllocError, Global};

/// The clocks of processes, by number.
///
/// # Errors
///
/// No memory for the list.
pub fn clocks_of<P: LogicalProcess>(alloc: Global, processes: &[P]) -> Result<Vec<Time>, AllocError>
    ensures { IfOk result (λ clocks. clocks.items
        ≡ map (λ x. (P.state x).position.clock) processes.now) }
{
    let mut clocks = Vec::with_capacity(alloc, processes.len())?;
    for process in processes {
        clocks.push(process.clock())?;
    }
    Ok(clocks)
}
