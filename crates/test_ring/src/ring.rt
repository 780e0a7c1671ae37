//! Two processes without components, with a link in each direction.

ghost use Rattle.std.specs.Prelude.{◌≡◌, IfOk};
ghost use Rattle.dv_conservative.specs.World.{new_world};
ghost use Rattle.dv_core.specs.Conservative.{IsConservative, state_by};
ghost use Rattle.dv_core.specs.ProcessState.{IsNew};
ghost use Rattle.dv_core.specs.Worlds.{shown};
ghost use Rattle.test_ring.specs.Ring.{job_of, share_by, view_of};

use crate::job::RingJob;
use crate::silent::Silent;
use dv_core::World;
use dv_proc::{Channel, Frame, Process};
use dv_record::PartRecord;
use std::alloc::{AllocError, Global};

/// A process without components, which promises so many ticks ahead, with the numbers of its two
/// links.
///
/// # Errors
///
/// No memory.
fn process_of(
    alloc: Global,
    frame: Frame,
    ticks: u32,
    incoming: u32,
    outgoing: u32,
) -> Result<Process<Silent>, AllocError>
    ensures valid { IfOk result (λ p. IsConservative view_of view_of p) }
    ensures new { IfOk result (λ p. IsNew (state_by view_of p)) }
    ensures share { IfOk result (λ p. (view_of p.local).share
        ≡ share_by frame.limit frame.horizon ticks incoming outgoing) }
{
    let silent = Silent {
        frame,
        ticks,
        incoming,
        outgoing,
        record: PartRecord::new(alloc),
    };
    Process::new(alloc, silent, &[incoming], &[outgoing])
}

/// A new world of the two: link 0 leads from process 0 to process 1, and link 1 back. Each holds so
/// many packets.
///
/// # Errors
///
/// No memory.
pub fn ring(
    alloc: Global,
    frame: Frame,
    ticks: u32,
    capacity: usize,
) -> Result<World<RingJob, Process<Silent>>, AllocError>
    ensures { IfOk result (λ w. shown job_of (state_by view_of) w ≡ new_world capacity) }
{
    let mut processes = Vec::with_capacity(alloc, 2)?;
    processes.push_reserved(process_of(alloc, frame, ticks, 1, 0)?);
    processes.push_reserved(process_of(alloc, frame, ticks, 0, 1)?);
    let links = [
        Channel {
            source: 0,
            target: 1,
        },
        Channel {
            source: 1,
            target: 0,
        },
    ];
    let channels = Vec::from_slice(alloc, &links)?;
    World::new(
        alloc,
        RingJob { frame, ticks },
        channels,
        processes,
        capacity,
    )
}
