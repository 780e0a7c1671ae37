//! Runs the compiled model of a text by workers.

ghost use Rattle.std.specs.Prelude.{◌≢◌, ◌<◌, ◌≡◌, IfOk, OnErr, length};
ghost use Rattle.dv_board.specs.Jobs.{IsMergeable};
ghost use Rattle.dv_stream.specs.Endings.{HasRunByWorkers, why_for};
ghost use Rattle.dv_stream.specs.Written.{IsBegun, IsWrittenTo};
ghost use Rattle.dv_stream.specs.declared.ran.RunEnded.TheVariants.{Cut, Whole};
ghost use Rattle.dv_stream.specs.declared.ran.Why.TheVariants.{Rounds};
ghost use Rattle.dv_syntax.specs.Trees.{file_of};
ghost use Rattle.dv_run.specs.Texts.{AreComponentsOf, IsReady, text_job};
ghost use Rattle.dv_run.specs.Runs.{IsCutShort, IsPrinted};

use crate::components::lone_components;
use crate::plan::plan_of;
use crate::text_job::TextJob;
use crate::text_traces::traces_of;
use dv_coded::{Bench, Components};
use dv_flat::LinkLists;
use dv_gen::laws::accepted_files_are_compilable;
use dv_stream::{RanByWorkers, Watch, Workers, stream_plan_by_workers};
use dv_text::WriteError;
use std::alloc::{AllocError, Global};
use std::io::Write;
use std::sync::Wait;
use std::thread::Threads;

/// The bounds of a run by workers.
#[derive(Clone, Copy, PartialEq, Eq)]
pub struct WorkerBounds {
    /// How many workers there are.
    pub workers: usize,
    /// How many packets each link has room for.
    pub capacity: usize,
}

/// Runs the compiled model of a text in processes, one thread for each worker, and writes the lines
/// of the trace before the least clock while it runs, for any timing of the threads. Process p
/// belongs to worker p mod their number.
///
/// `watch` is called before and after each turn, and may stop the run for a cause. If it does, or
/// if memory or a thread is refused to a worker, the run is cut, and the lines are those that were
/// known then, for the reason that the halts of the workers give.
///
/// # Errors
///
/// A write failed, or there is no memory for the programs, the tables of the processes and the
/// links, or for a piece of the trace. All threads have ended, and the writer holds a beginning of
/// the lines.
pub fn compiled_workers<R: Threads + Wait + Sync, G: Watch, W: Write>(
    rt: &R,
    alloc: Global,
    job: &TextJob<'_, '_>,
    links: &LinkLists,
    bounds: WorkerBounds,
    watch: &G,
    writer: &mut W,
) -> Result<RanByWorkers<G::Cause>, WriteError>
    requires ready { IsReady job.now links.now }
    requires workers { 0 < bounds.workers }
    requires capacity { 0 < bounds.capacity }
    ensures printed { IfOk result (λ r. IsPrinted job.now.tree.now.names
        (file_of job.now.tree.now.file) job.now.inputs.now job.now.groups.now
        job.now.horizon job.now.limit
        (W.contents writer.old) (W.contents writer.new) r.ran) }
    ensures ended { IfOk result (λ r. r.ran.ended ≢ Cut Rounds) }
    ensures halts { IfOk result (λ r. r.ran.ended ≢ Whole
        → r.ran.ended ≡ Cut (why_for r.halts.items)) }
    ensures err { OnErr result (IsCutShort job.now.tree.now.names
        (file_of job.now.tree.now.file) job.now.inputs.now job.now.horizon job.now.limit
        (W.contents writer.old) (W.contents writer.new)) }
{
    // For the prover alone: the atomic models of an accepted text have programs, and its flat model
    // has its trace.
    accepted_files_are_compilable();
    traces_of(job, links);
    let components = lone_components(alloc, job.tree, job.limit)?;
    let works = benches_of(alloc, bounds.workers)?;
    let workers = Workers {
        works,
        capacity: bounds.capacity,
        watch,
    };
    let worked = work_components(rt, alloc, job, components, links, workers, writer)?;
    Ok(worked)
}

// Makes a bench for each worker.
fn benches_of(alloc: Global, workers: usize) -> Result<Vec<Bench>, AllocError>
    ensures { IfOk result (λ benches. length benches.items ≡ workers) }
{
    let mut benches = Vec::with_capacity(alloc, workers)?;
    for _worker in 0..workers {
        benches.push(Bench::new(alloc))?;
    }
    Ok(benches)
}

// Plans the components of a text, and runs the plan by workers.
fn work_components<R: Threads + Wait + Sync, G: Watch, W: Write>(
    rt: &R,
    alloc: Global,
    job: &TextJob<'_, '_>,
    all: Components,
    links: &LinkLists,
    workers: Workers<'_, Bench, G>,
    writer: &mut W,
) -> Result<RanByWorkers<G::Cause>, WriteError>
    requires ready { IsReady job.now links.now }
    requires components { AreComponentsOf (file_of job.now.tree.now.file) job.now.limit
        all.models.items all.members.items all.responses.items }
    requires merges { IsMergeable (text_job job.now) }
    requires workers { 0 < length workers.works.items }
    requires capacity { 0 < workers.capacity }
    ensures run { IfOk result (HasRunByWorkers (text_job job.now)) }
    ensures written { IfOk result (λ w. IsWrittenTo (text_job job.now) job.now.tree.now
        (W.contents writer.old) (W.contents writer.new) w.ran.written) }
    ensures err { OnErr result (IsBegun (text_job job.now) job.now.tree.now
        (W.contents writer.old) (W.contents writer.new)) }
{
    let plan = plan_of(alloc, job, all.members, all.responses, &all.models, links)?;
    stream_plan_by_workers(rt, alloc, job, plan, workers, job.tree, writer)
}
