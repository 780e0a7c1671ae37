//! Runs the compiled model of a text in rounds.

ghost use Rattle.std.specs.Prelude.{◌≢◌, ◌+◌, ◌<◌, ◌≤◌, ◌≡◌, IfOk, OnErr};
ghost use Rattle.dv_board.specs.Jobs.{IsMergeable};
ghost use Rattle.dv_plan.specs.Clocks.{least_time};
ghost use Rattle.dv_stream.specs.Endings.{HasRunInRounds};
ghost use Rattle.dv_stream.specs.Written.{IsBegun, IsWrittenTo};
ghost use Rattle.dv_stream.specs.declared.ran.RunEnded.TheVariants.{Cut};
ghost use Rattle.dv_stream.specs.declared.ran.Why.TheVariants.{Rounds};
ghost use Rattle.dv_syntax.specs.Trees.{file_of};
ghost use Rattle.dv_time.specs.Time.{end_of};
ghost use Rattle.dv_run.specs.Texts.{AreComponentsOf, IsReady, text_job};
ghost use Rattle.dv_run.specs.Runs.{IsCutShort, IsRunOf};

use crate::plan::plan_of;
use crate::text_job::TextJob;
use crate::text_traces::traces_of;
use dv_coded::{Bench, Components, components_of};
use dv_flat::LinkLists;
use dv_gen::laws::accepted_files_are_compilable;
use dv_stream::{Bounds, Ran, stream_plan};
use dv_text::WriteError;
use law_rules::laws::runs_by_programs_are_runs_by_rules;
use std::alloc::Global;
use std::io::Write;

/// Runs the compiled model of a text in processes that exchange packets in rounds, and writes the
/// lines of the trace before the least clock while it runs. If memory is refused to a turn or a
/// packet, the run is cut, and these are the lines that were known then.
///
/// # Errors
///
/// A write failed, or there is no memory for the programs and the tables of the processes, or for a
/// piece of the trace. The writer holds a beginning of the lines.
pub fn compiled_run<W: Write>(
    alloc: Global,
    job: &TextJob<'_, '_>,
    links: &LinkLists,
    bounds: Bounds,
    writer: &mut W,
) -> Result<Ran, WriteError>
    requires { IsReady job.now links.now }
    ensures run { IfOk result (IsRunOf job.now.tree.now.names (file_of job.now.tree.now.file)
        job.now.inputs.now job.now.groups.now job.now.horizon job.now.limit bounds.capacity
        bounds.rounds (W.contents writer.old) (W.contents writer.new)) }
    ensures err { OnErr result (IsCutShort job.now.tree.now.names
        (file_of job.now.tree.now.file) job.now.inputs.now job.now.horizon job.now.limit
        (W.contents writer.old) (W.contents writer.new)) }
{
    // For the prover alone: the atomic models of an accepted text have programs, its flat model has
    // its trace, and what its processes do by programs they may do by rules.
    accepted_files_are_compilable();
    traces_of(job, links);
    runs_by_programs_are_runs_by_rules();
    let mut bench = Bench::new(alloc);
    let components = components_of(&mut bench, job.tree, job.limit)?;
    let ran = run_components(alloc, job, components, links, &mut bench, bounds, writer)?;
    Ok(ran)
}

// Plans the components of a text, and runs the plan in rounds.
fn run_components<W: Write>(
    alloc: Global,
    job: &TextJob<'_, '_>,
    all: Components,
    links: &LinkLists,
    bench: &mut Bench,
    bounds: Bounds,
    writer: &mut W,
) -> Result<Ran, WriteError>
    requires ready { IsReady job.now links.now }
    requires components { AreComponentsOf (file_of job.now.tree.now.file) job.now.limit
        all.models.items all.members.items all.responses.items }
    requires merges { IsMergeable (text_job job.now) }
    ensures some { IfOk result (λ _. 0 < (text_job job.now).processes) }
    ensures run { IfOk result (HasRunInRounds (text_job job.now) bounds.capacity bounds.rounds) }
    ensures enough { IfOk result (λ r. 0 < bounds.capacity
        → end_of (text_job job.now).limit (text_job job.now).horizon + 1 ≤ bounds.rounds
        → r.ended ≢ Cut Rounds) }
    ensures written { IfOk result (λ r. IsWrittenTo (text_job job.now) job.now.tree.now
        (W.contents writer.old) (W.contents writer.new) r.written) }
    ensures least { IfOk result (λ r. r.written.mark ≡ least_time r.clocks.items) }
    ensures err { OnErr result (IsBegun (text_job job.now) job.now.tree.now
        (W.contents writer.old) (W.contents writer.new)) }
{
    let plan = plan_of(alloc, job, all.members, all.responses, &all.models, links)?;
    stream_plan(alloc, *job, plan, bench, bounds, job.tree, writer)
}
