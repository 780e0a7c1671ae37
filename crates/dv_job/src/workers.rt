//! Runs a model in processes, by workers on threads.

ghost use Rattle.std.specs.Prelude.{◌≡◌, ◌≢◌, ◌↔◌, IfOk, IfErr, IsSome};
ghost use Rattle.dv_stream.specs.declared.ran.Why.TheVariants.{Stopped};
ghost use Rattle.dv_job.specs.Halts.{IsCutAs, cause_of};
ghost use Rattle.dv_job.specs.Running.{EndsByWorkers, LeftByRun};
ghost use Rattle.dv_job.specs.declared.ended.JobEnded.TheVariants.{Partial};

use crate::ended::{EndedByWorkers, JobEnded, JobError};
use crate::load::{accept, load};
use crate::options::Options;
use crate::setup::set_up;
use crate::written::write_end;
use dv_bag::Bags;
use dv_partition::Partition;
use dv_run::{RanByWorkers, Unwatched, Watch, WorkerBounds, compiled_workers};
use dv_text::laws::a_trace_is_its_pieces;
use std::io::Write;
use std::sync::Wait;
use std::thread::Threads;

/// Runs the model of a text in processes, as [`run_bytes`](crate::run_bytes) does, but by the
/// workers of the options, each on a thread of its own. Process p belongs to worker p mod their
/// number. If the driver of the options is rounds, there is one worker, and the bound on rounds has
/// no effect.
///
/// For any timing of the threads, a run that is reported whole prints exactly the trace up to the
/// horizon. Lines are written as they become known.
///
/// # Errors
///
/// The same as those of `run_bytes`. All threads have ended then.
pub fn run_by_workers<R: AllocGlobal + Threads + Wait + Sync, W: Write>(
    rt: &R,
    model: &[u8],
    inputs: &[u8],
    groups: Partition<'_>,
    options: &Options,
    writer: &mut W,
) -> Result<JobEnded, JobError>
    ensures ended { IfOk result (λ ended. EndsByWorkers ended model.now inputs.now groups.entry
        options.now (W.contents writer.old) (W.contents writer.new)) }
    ensures unstopped { IfOk result (λ ended. ended ≢ Partial Stopped) }
    ensures error { IfErr result (λ e. LeftByRun e model.now inputs.now groups.entry
        options.now (W.contents writer.old) (W.contents writer.new)) }
{
    let watched = run_watched(rt, model, inputs, groups, options, &Unwatched, writer)?;
    Ok(watched.ended)
}

/// Runs as [`run_by_workers`] does, and calls `watch` before and after each turn of a process. If
/// it stops the run, and no worker was out of memory, the answer is `Partial(Stopped)`, unless all
/// clocks came to the end. There is a cause exactly with this answer.
///
/// # Errors
///
/// The same as those of `run_by_workers`.
pub fn run_watched<R: AllocGlobal + Threads + Wait + Sync, G: Watch, W: Write>(
    rt: &R,
    model: &[u8],
    inputs: &[u8],
    groups: Partition<'_>,
    options: &Options,
    watch: &G,
    writer: &mut W,
) -> Result<EndedByWorkers<G::Cause>, JobError>
    ensures ended { IfOk result (λ w. EndsByWorkers w.ended model.now inputs.now groups.entry
        options.now (W.contents writer.old) (W.contents writer.new)) }
    ensures cut { IfOk result (λ w. IsCutAs w.halts.items w.ended) }
    ensures cause { IfOk result (λ w. IsSome (cause_of w) ↔ (w.ended ≡ Partial Stopped)) }
    ensures error { IfErr result (λ e. LeftByRun e model.now inputs.now groups.entry
        options.now (W.contents writer.old) (W.contents writer.new)) }
{
    // For the prover alone: the lines of two adjacent pieces are those of both together.
    a_trace_is_its_pieces::<Bags>();
    let alloc = rt.alloc();
    let checked = load(alloc, model)?;
    let tree = accept(alloc, model, &checked)?;
    let setup = set_up(alloc, &tree, model, inputs, groups, options.limit)?;
    let job = setup.job(&tree, options);
    let bounds = WorkerBounds {
        workers: options.workers() as usize,
        capacity: options.capacity as usize,
    };
    let RanByWorkers { ran, halts } = compiled_workers(
        rt,
        alloc,
        &job,
        &setup.links,
        bounds,
        watch,
        writer,
    )?;
    let ended = write_end(alloc, &ran, options.horizon, writer)?;
    Ok(EndedByWorkers { ended, halts })
}
