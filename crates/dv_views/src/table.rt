//! The table of a trace.

ghost use Rattle.std.specs.Prelude.{◌≡◌, None};
ghost use Rattle.dv_flat.specs.Limit.{link_refusal};
ghost use Rattle.dv_syntax.specs.Trees.{file_of};

use crate::chosen::chosen_of;
use crate::error::ViewError;
use dv_flat::flatten;
use dv_job::load::{accept, load};
use dv_table::{TableOptions, write_table};
use dv_trace::Reach;
use dv_tree::Tree;
use std::alloc::Global;
use std::io::Write;

/// Writes a trace of a model as a table, as comma-separated values or as JSON lines, and returns
/// how far the trace reaches.
///
/// # Errors
///
/// - `Job` with `Text`: the model is refused. `NoPath`: the model is accepted, and no component has
///   the path that is asked for. `Job` with `Inputs`: there is such a path, and the inputs are
///   refused. `Trace`: all of these are accepted, and the trace is refused. Nothing was written in
///   these cases.
/// - `Job` with `Write`: a write failed. `Job` with `Memory`: an allocation was refused. The writer
///   holds a beginning of the table, for `Memory` perhaps nothing.
pub fn table_bytes<W: Write>(
    alloc: Global,
    model: &[u8],
    trace: &[u8],
    options: &TableOptions<'_>,
    writer: &mut W,
) -> Result<Reach, ViewError> {
    let checked = load(alloc, model)?;
    let tree = accept(alloc, model, &checked)?;
    table_tree(alloc, &tree, trace, options, writer)
}

fn table_tree<W: Write>(
    alloc: Global,
    tree: &Tree<'_>,
    trace: &[u8],
    options: &TableOptions<'_>,
    writer: &mut W,
) -> Result<Reach, ViewError>
    requires few { link_refusal (file_of tree.now.file) ≡ None }
{
    let links = flatten(alloc, tree)?;
    let chosen = chosen_of(alloc, tree, options.excerpt.only)?;
    Ok(write_table(alloc, tree, &links, chosen, trace, options, writer)?)
}
