//! Explanations of the faults of a run.

ghost use Rattle.std.specs.Prelude.{◌≡◌, None};
ghost use Rattle.dv_flat.specs.Limit.{link_refusal};
ghost use Rattle.dv_syntax.specs.Trees.{file_of};

use crate::error::ViewError;
use dv_fault::{FaultWriter, FileText};
use dv_flat::flatten;
use dv_inputs::read_inputs;
use dv_job::load::{accept, load};
use dv_job::{Options, run_bytes};
use dv_partition::Partition;
use dv_tree::Tree;
use std::alloc::Global;

/// Runs a model again, in one process, and explains the first ten faults of its components: for
/// each, `FILE:LINE:COLUMN: FAULT: ..` with the line of the model that caused it, the values there,
/// and what the fault means. A last line says how many more faults there are. Without faults the
/// text is empty. Workers in the options are ignored.
///
/// # Errors
///
/// `Job` with `Text`: the model is refused. `Job` with `Inputs`: the model is accepted, and the
/// inputs are refused. `Job` with `Memory`: an allocation was refused.
pub fn faults_text(
    alloc: Global,
    model: FileText<'_>,
    inputs: &[u8],
    options: &Options,
) -> Result<String, ViewError> {
    let checked = load(alloc, model.bytes)?;
    let tree = accept(alloc, model.bytes, &checked)?;
    faults_in_tree(alloc, &tree, model, inputs, options)
}

fn faults_in_tree(
    alloc: Global,
    tree: &Tree<'_>,
    model: FileText<'_>,
    inputs: &[u8],
    options: &Options,
) -> Result<String, ViewError>
    requires few { link_refusal (file_of tree.now.file) ≡ None }
{
    let links = flatten(alloc, tree)?;
    let names = tree.input_names(alloc)?;
    let played = read_inputs(alloc, inputs, &names, options.limit)?;
    let mut writer = FaultWriter::new(alloc, tree, &links, &played, options.limit, model)?;
    let _ended = run_bytes(
        alloc,
        model.bytes,
        inputs,
        Partition::Count(1),
        options,
        &mut writer,
    )?;
    Ok(writer.finish()?)
}
