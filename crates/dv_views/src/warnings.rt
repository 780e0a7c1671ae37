//! The warnings of a model.

use crate::error::ViewError;
use dv_job::load::{accept, load};
use dv_warn::write_warnings;
use std::alloc::Global;
use std::io::Write;

/// Writes the warnings of an accepted model, each as a line `FILE:LINE:COLUMN: warning: SENTENCE`,
/// in the order of the text, and returns how many there are. `name` is the name of the file. Lines
/// and columns count from 1, columns in characters.
///
/// # Errors
///
/// - `Job` with `Text`: the model is refused. Nothing was written.
/// - `Job` with `Write`: a write failed. `Job` with `Memory`: an allocation was refused. The writer
///   holds a beginning of the lines, for `Memory` perhaps nothing.
pub fn warnings_bytes<W: Write>(
    alloc: Global,
    name: &str,
    model: &[u8],
    writer: &mut W,
) -> Result<u64, ViewError> {
    let checked = load(alloc, model)?;
    let tree = accept(alloc, model, &checked)?;
    Ok(write_warnings(alloc, name, model, &tree, writer)?)
}
