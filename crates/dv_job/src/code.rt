//! Lists the programs of a text.

ghost use Rattle.std.specs.Prelude.{OnOk, IfErr};
ghost use Rattle.dv_syntax.specs.Trees.{file_of};
ghost use Rattle.dv_job.specs.Job.{IsModelOf};
ghost use Rattle.dv_job.specs.Listed.{LeftByListing, ListsCode};

use crate::ended::JobError;
use crate::load::{accept, load};
use dv_check::laws::files_of_texts_are_writable;
use dv_gen::laws::accepted_files_are_compilable;
use dv_listing::write_listing;
use dv_tree::Tree;
use std::alloc::Global;
use std::io::Write;

/// Writes the listing of a text: the programs of each of its atomic models.
///
/// # Errors
///
/// `Text` is the answer to the text; nothing was written then. After `Write` and `Memory` the
/// writer holds a beginning of the listing that is not all of it; after `Memory` perhaps nothing.
/// It is never `Partition` or `Inputs`.
pub fn list_code<W: Write>(alloc: Global, model: &[u8], writer: &mut W) -> Result<(), JobError>
    ensures listed { OnOk result (ListsCode model.now (W.contents writer.old)
        (W.contents writer.new)) }
    ensures error { IfErr result (λ e. LeftByListing e model.now (W.contents writer.old)
        (W.contents writer.new)) }
{
    let checked = load(alloc, model)?;
    let tree = accept(alloc, model, &checked)?;
    list_tree(alloc, &tree, model, writer)
}

// Writes the listing of an accepted text, by its tree.
fn list_tree<W: Write>(
    alloc: Global,
    tree: &Tree,
    model: &[u8],
    writer: &mut W,
) -> Result<(), JobError>
    requires accepted { IsModelOf model.now tree.now.names (file_of tree.now.file) }
    ensures listed { OnOk result (ListsCode model.now (W.contents writer.old)
        (W.contents writer.new)) }
    ensures error { IfErr result (λ e. LeftByListing e model.now (W.contents writer.old)
        (W.contents writer.new)) }
{
    // For the prover alone: the file of a text could be written down, so its atomic models have
    // programs if it is accepted.
    files_of_texts_are_writable();
    accepted_files_are_compilable();
    write_listing(alloc, tree, writer)?;
    Ok(())
}
