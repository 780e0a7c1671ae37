//! Prints the plan of a model.

ghost use Rattle.std.specs.Prelude.{string_bytes, IfErr, IfOk};
ghost use Rattle.dv_syntax.specs.Trees.{file_of};
ghost use Rattle.dv_job.specs.Job.{IsModelOf};
ghost use Rattle.dv_job.specs.Planned.{AnswersPlan, HasPlan};

use crate::ended::JobError;
use crate::load::{accept, load, load_groups};
use crate::names::TreeNames;
use dv_check::laws::files_of_texts_are_writable;
use dv_flat::flatten;
use dv_partition::Partition;
use dv_plan::plan_json;
use dv_run::{least_responses, links_of};
use dv_tree::Tree;
use std::alloc::Global;

/// The plan of the model of a text, as one JSON object: its components by their paths, the links
/// between them, and of each process its components and its response (lookahead).
///
/// # Errors
///
/// `Text` is the answer to the text of the model. If the model is accepted, `Partition` is the
/// answer to the partition. It is never `Inputs` or `Write`.
pub fn plan_bytes(alloc: Global, model: &[u8], groups: Partition<'_>) -> Result<String, JobError>
    ensures planned { IfOk result
        (λ text. HasPlan model.now groups.entry (string_bytes text)) }
    ensures error { IfErr result (AnswersPlan model.now groups.entry) }
{
    let checked = load(alloc, model)?;
    let tree = accept(alloc, model, &checked)?;
    plan_tree(alloc, &tree, model, groups)
}

// The plan of the model of an accepted text, by its tree.
fn plan_tree(
    alloc: Global,
    tree: &Tree,
    model: &[u8],
    groups: Partition<'_>,
) -> Result<String, JobError>
    requires accepted { IsModelOf model.now tree.now.names (file_of tree.now.file) }
    ensures planned { IfOk result
        (λ text. HasPlan model.now groups.entry (string_bytes text)) }
    ensures error { IfErr result (AnswersPlan model.now groups.entry) }
{
    // For the prover alone.
    files_of_texts_are_writable();
    let flat = flatten(alloc, tree)?;
    let groups = load_groups(alloc, tree, groups)?;
    let links = links_of(alloc, &flat)?;
    let least = least_responses(alloc, tree, &groups)?;
    let names = TreeNames::of(alloc, tree)?;
    Ok(plan_json(alloc, &names, &links, &groups, &least)?)
}
