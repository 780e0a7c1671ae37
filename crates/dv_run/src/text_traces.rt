//! What the trace of a text rests on.

ghost use Rattle.dv_board.specs.Jobs.{IsMergeable};
ghost use Rattle.dv_syntax.specs.Trees.{file_of};
ghost use Rattle.dv_run.specs.Texts.{IsReady, text_job};
ghost use Rattle.dv_run.specs.Traces.{TraceLaws};

use crate::text_job::TextJob;
use dv_bag::Bags;
use dv_devs::laws::parts::parts_are_of_the_trace;
use dv_flat::LinkLists;
use dv_plain::laws::networks_of_texts;
use dv_text::laws::a_trace_is_its_instants;
use law_sound::jobs::parts_of_the_flat_model_are_those_of_the_text;
use law_sound::outside::what_leaves_a_flat_model_is_linear;

/// Shows that the flat model of an accepted text has the text's trace, whose lines are those of its
/// instants, and that what its processes commit can be merged. It does nothing.
pub(crate) fn traces_of(job: &TextJob<'_, '_>, links: &LinkLists)
    requires { IsReady job.now links.now }
    ensures laws { TraceLaws (file_of job.now.tree.now.file) job.now.limit }
    ensures merges { IsMergeable (text_job job.now) }
{
    let _ = links;
    parts_of_the_flat_model_are_those_of_the_text();
    parts_are_of_the_trace::<Bags>();
    networks_of_texts();
    a_trace_is_its_instants::<Bags>();
    what_leaves_a_flat_model_is_linear();
    let _processes = job.groups.processes();
}
