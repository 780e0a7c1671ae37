//! Makes the plan of a text.

ghost use Rattle.std.specs.Prelude.{◌≡◌, None, IfOk};
ghost use Rattle.dv_check.specs.Refusals.{refusal_of};
ghost use Rattle.dv_coded.specs.Lent.{behaviour_of_lent, lent_takes};
ghost use Rattle.dv_plan.specs.Plans.{IsPlanOf};
ghost use Rattle.dv_syntax.specs.Trees.{file_of};
ghost use Rattle.dv_run.specs.Texts.{AreComponentsOf, AreLinksOf, text_job};

use crate::link_laws::links_rise;
use crate::links::links_of;
use crate::text_job::TextJob;
use dv_bag::Response;
use dv_check::laws::checked_files;
use dv_coded::{Lent, Programs, lend};
use dv_flat::LinkLists;
use dv_plan::{Plan, Whole};
use dv_share::Member;
use std::alloc::{AllocError, Global};

/// The plan of an accepted text with its inputs: what each process has. It borrows the programs.
///
/// # Errors
///
/// No memory for the lists.
pub fn plan_text<'m>(
    alloc: Global,
    job: &TextJob<'_, '_>,
    models: &'m [Programs],
    members: Vec<Member>,
    responses: Vec<Response>,
    links: &LinkLists,
) -> Result<Plan<Lent<'m>>, AllocError>
    requires accepted { refusal_of (file_of job.now.tree.now.file) ≡ None }
    requires components { AreComponentsOf (file_of job.now.tree.now.file) job.now.limit models.now
        members.items responses.items }
    requires links { AreLinksOf (file_of job.now.tree.now.file) links.now }
    ensures { IfOk result (IsPlanOf behaviour_of_lent lent_takes (text_job job.now)) }
{
    // For the prover alone.
    checked_files();
    links_rise();
    let lent = lend(alloc, models)?;
    let between = links_of(alloc, links)?;
    let whole = Whole {
        limit: job.limit,
        horizon: job.horizon,
        members,
        models: lent,
        responses,
        links: between,
        ports: job.tree.input_count() as u32,
        outputs: job.tree.output_count() as u32,
    };
    Plan::new(alloc, whole, job.inputs, job.groups)
}
