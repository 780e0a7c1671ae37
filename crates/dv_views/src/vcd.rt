//! The value change dump of a trace.

use crate::chosen::chosen_of;
use crate::error::ViewError;
use dv_job::load::{accept, load};
use dv_trace::Reach;
use dv_vcd::{WaveOptions, write_vcd};
use std::alloc::Global;
use std::io::{Read, Seek, Write};

/// Writes a trace of a model as a value change dump, and returns how far the trace reaches. `trace`
/// has to be at its beginning. It is read to its end, piece by piece, and then once more. Memory
/// does not grow with it.
///
/// # Errors
///
/// - `Job` with `Text`: the model is refused. `NoPath`: the model is accepted, and no component has
///   the path that is asked for. `Job` with `Inputs`: there is such a path, and the inputs are
///   refused. Nothing was written.
/// - `Trace`: all of these are accepted, and the trace is refused. `Unread`: they are accepted, and
///   the trace can't be read. Nothing was written, unless it was the second reading that failed, or
///   that found a changed trace.
/// - `Job` with `Write`: a write failed. `Job` with `Memory`: an allocation was refused. The writer
///   holds a beginning of the dump, for `Memory` perhaps nothing.
pub fn vcd_bytes<T: Read + Seek, W: Write>(
    alloc: Global,
    model: &[u8],
    trace: &mut T,
    options: &WaveOptions<'_>,
    writer: &mut W,
) -> Result<Reach, ViewError> {
    let checked = load(alloc, model)?;
    let tree = accept(alloc, model, &checked)?;
    let chosen = chosen_of(alloc, &tree, options.excerpt.only)?;
    Ok(write_vcd(alloc, &tree, chosen, trace, options, writer)?)
}
