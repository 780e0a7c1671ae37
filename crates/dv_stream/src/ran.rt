//! What ran, and how it ended.

ghost use Rattle.std.specs.Prelude.{◌≡◌, ℕ, if◌then◌else◌, IfOk, map};
ghost use Rattle.dv_conservative.specs.World.{new_world};
ghost use Rattle.dv_core.specs.Worlds.{EndsAs, IsTrueToModel, kept_by, shown};
ghost use Rattle.dv_stream.specs.Endings.{HasRunInRounds, by_rounds};
ghost use Rattle.dv_stream.specs.declared.ran.RunEnded.TheVariants.{Whole};

use crate::clocks::clocks_of;
use crate::written::Written;
use dv_core::{Ended, LogicalProcess, PlannedJob, World};
use dv_time::Time;
use dv_work::Halt;
use std::alloc::{AllocError, Global};

/// How a run ended.
#[derive(Clone, Copy, PartialEq, Eq)]
pub enum RunEnded {
    /// Every clock is at the end.
    Whole,
    /// Not every clock is at the end, for this reason.
    Cut(Why),
}

/// Why a run was cut.
#[derive(Clone, Copy, PartialEq, Eq)]
pub enum Why {
    /// The rounds that were granted are used up.
    Rounds,
    /// An allocation was refused for a turn, for a packet or for a piece of the trace, or no thread
    /// could be made for a worker.
    Memory,
    /// The watch of a run by workers stopped it.
    Stopped,
}

/// How far a run came, and what was written of its trace: all before the least clock.
#[derive(Drop)]
pub struct Ran {
    /// The clock of each process, by its number.
    pub clocks: Vec<Time>,
    /// How the run ended.
    pub ended: RunEnded,
    /// What was written of the trace.
    pub written: Written,
}

/// How far a run by workers came, and why its workers ended.
#[derive(Drop)]
pub struct RanByWorkers<C> {
    /// How far the run came.
    pub ran: Ran,
    /// Why each worker ended before its processes were done, or `None` if they are done: first the
    /// workers that got no thread, then the others, by their numbers.
    pub halts: Vec<Option<Halt<C>>>,
}

// How a run in rounds ended, by whether every clock is at the end. If memory is refused to a packet
// after the last turns, the rounds are cut, but the run is whole.
fn ended_by_rounds(is_whole: bool, ended: Ended) -> RunEnded
    ensures { result ≡ (if is_whole then Whole else by_rounds ended) }
{
    if is_whole {
        return RunEnded::Whole;
    }
    match ended {
        Ended::Whole => RunEnded::Whole,
        Ended::Stalled => RunEnded::Cut(Why::Rounds),
        Ended::Memory => RunEnded::Cut(Why::Memory),
    }
}

/// The answer of a run in rounds, from its world, how it ended and what was written of it.
///
/// # Errors
///
/// No memory for the clocks.
pub(crate) fn ran_in_world<J: PlannedJob, P: LogicalProcess>(
    alloc: Global,
    world: &World<J, P>,
    ended: Ended,
    written: Written,
) -> Result<Ran, AllocError>
    requires { IsTrueToModel (J.means world.now.job) (kept_by P.state world.now) }
    ensures run { (capacity rounds : ℕ) → EndsAs (J.means world.now.job) rounds ended
        (new_world capacity) (shown J.means P.state world.now)
        → IfOk result (HasRunInRounds (J.means world.now.job) capacity rounds) }
    ensures clocks { IfOk result (λ r. r.clocks.items
        ≡ map (λ x. (P.state x).position.clock) world.now.processes.items) }
    ensures written { IfOk result (λ r. r.written ≡ written) }
{
    let clocks = clocks_of(alloc, world.processes())?;
    let ended = ended_by_rounds(world.whole(), ended);
    Ok(Ran {
        clocks,
        ended,
        written,
    })
}
