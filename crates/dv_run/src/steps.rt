//! Runs the compiled model of a text by a list of steps.

ghost use Rattle.std.specs.Prelude.{IfOk};
ghost use Rattle.dv_plan.specs.Runs.{HasStepped};
ghost use Rattle.dv_syntax.specs.Trees.{file_of};
ghost use Rattle.dv_run.specs.Texts.{AreComponentsOf, IsReady, text_job};
ghost use Rattle.dv_run.specs.Runs.{IsStepped};

use crate::plan::plan_of;
use crate::text_job::TextJob;
use dv_coded::{Bench, Components, components_of};
use dv_core::Step;
use dv_flat::LinkLists;
use dv_gen::laws::accepted_files_are_compilable;
use dv_plan::{Stepped, step_plan};
use law_rules::laws::runs_by_programs_are_runs_by_rules;
use law_sound::jobs::parts_of_the_flat_model_are_those_of_the_text;
use std::alloc::{AllocError, Global};

/// Makes the steps of a list with the processes of a text, from their start: turns, deliveries and
/// stops, in any order. A link holds at most `capacity` packets.
///
/// For any list and any partition, each process has committed exactly its components' part, before
/// its clock, of the trace of the text's resultant; and each turn that is done makes progress.
///
/// # Errors
///
/// No memory for the programs, the processes and the replies, or for what was committed.
pub fn compiled_steps(
    alloc: Global,
    job: &TextJob<'_, '_>,
    links: &LinkLists,
    steps: &[Step],
    capacity: usize,
) -> Result<Stepped, AllocError>
    requires { IsReady job.now links.now }
    ensures { IfOk result (IsStepped (file_of job.now.tree.now.file) job.now.inputs.now
        job.now.groups.now job.now.horizon job.now.limit capacity steps.now) }
{
    // For the prover alone: the atomic models of an accepted text have programs, the parts of its
    // flat model are those of the text, and what processes do by programs they may do by rules.
    accepted_files_are_compilable();
    parts_of_the_flat_model_are_those_of_the_text();
    runs_by_programs_are_runs_by_rules();
    let mut bench = Bench::new(alloc);
    let components = components_of(&mut bench, job.tree, job.limit)?;
    Ok(step_components(alloc, job, components, links, &mut bench, steps, capacity)?)
}

// Plans the components of a text, and makes the steps.
fn step_components(
    alloc: Global,
    job: &TextJob<'_, '_>,
    all: Components,
    links: &LinkLists,
    bench: &mut Bench,
    steps: &[Step],
    capacity: usize,
) -> Result<Stepped, AllocError>
    requires ready { IsReady job.now links.now }
    requires components { AreComponentsOf (file_of job.now.tree.now.file) job.now.limit
        all.models.items all.members.items all.responses.items }
    ensures { IfOk result (HasStepped (text_job job.now) capacity steps.now) }
{
    let plan = plan_of(alloc, job, all.members, all.responses, &all.models, links)?;
    step_plan(alloc, *job, plan, bench, steps, capacity)
}
