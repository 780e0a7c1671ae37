//! Makes a plan of a text that can be run.

ghost use Rattle.std.specs.Prelude.{◌<◌, IfOk};
ghost use Rattle.dv_coded.specs.Lent.{behaviour_of_lent, lent_takes};
ghost use Rattle.dv_plan.specs.Beginning.{CanRun};
ghost use Rattle.dv_syntax.specs.Trees.{file_of};
ghost use Rattle.dv_run.specs.Texts.{AreComponentsOf, IsReady, text_job};

use crate::numbers::shares_have_numbers;
use crate::text_job::TextJob;
use crate::text_plan::plan_text;
use dv_bag::Response;
use dv_coded::{Lent, Programs};
use dv_conservative::channels::channels_are_where_links_cross;
use dv_flat::LinkLists;
use dv_plan::Plan;
use dv_share::Member;
use law_sound::jobs::texts_are_jobs;
use law_sound::shares::processes_of_texts_start_sound;
use std::alloc::{AllocError, Global};

/// The plan of an accepted text, with which a run can begin. The plan borrows the programs.
///
/// # Errors
///
/// No memory for the lists.
pub fn plan_of<'m>(
    alloc: Global,
    job: &TextJob<'_, '_>,
    members: Vec<Member>,
    responses: Vec<Response>,
    models: &'m [Programs],
    links: &LinkLists,
) -> Result<Plan<Lent<'m>>, AllocError>
    requires ready { IsReady job.now links.now }
    requires components { AreComponentsOf (file_of job.now.tree.now.file) job.now.limit models.now
        members.items responses.items }
    ensures run { IfOk result (CanRun text_job behaviour_of_lent lent_takes job.now) }
    ensures some { 0 < (text_job job.now).processes }
{
    // For the prover alone: an accepted text is a job, whose processes begin soundly, with a
    // channel wherever a link crosses; there are processes, not too many, and each component is in
    // one.
    texts_are_jobs();
    processes_of_texts_start_sound();
    channels_are_where_links_cross();
    let _processes = job.groups.processes();
    let plan = plan_text(alloc, job, models, members, responses, links)?;
    // For the prover alone.
    shares_have_numbers(&plan.shares);
    Ok(plan)
}
