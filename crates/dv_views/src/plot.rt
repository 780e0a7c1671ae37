//! Curves of a trace.

use crate::chosen::no_name;
use crate::error::ViewError;
use crate::others::not_taken;
use dv_job::load::{accept, load};
use dv_plot::subject::all_names;
use dv_plot::{PlotOptions, PlotWriter, Subject};
use dv_trace::{PieceReader, Reach};
use dv_tree::Tree;
use std::alloc::{AllocError, Global};
use std::io::{Read, Write};

/// Writes a picture of what names stand for in a trace of a model, over time, and returns how far
/// the trace reaches. The trace is read to its end, piece by piece. Neither memory nor the picture
/// grows with it.
///
/// # Errors
///
/// - `Unread`: the trace can't be read. This is also the answer if its first piece can't be read
///   and the model would be refused.
/// - `Job` with `Text`: the model is refused. `NoPath`: the model is accepted, and nothing has a
///   name that is given. `Trace`: both are accepted, and the trace is refused. `NoPath` is also the
///   answer if all of these are accepted, and the trace ends before the first tick that is asked
///   for.
/// - `Job` with `Write`: a write failed. `Job` with `Memory`: an allocation was refused. The writer
///   holds a beginning of the picture, for `Memory` perhaps nothing. For all other errors nothing
///   was written.
pub fn plot_bytes<T: Read, W: Write>(
    alloc: Global,
    model: &[u8],
    trace: &mut T,
    names: &[String],
    options: PlotOptions,
    writer: &mut W,
) -> Result<Reach, ViewError> {
    let mut pieces = PieceReader::begin(alloc, trace)?;
    let checked = load(alloc, model)?;
    let tree = accept(alloc, model, &checked)?;
    plot_trace(alloc, &tree, &mut pieces, names, options, writer)
}

// Writes a picture of a trace, whose first piece was read. `finish` returns the error of a line
// that is not taken.
fn plot_trace<T: Read, W: Write>(
    alloc: Global,
    tree: &Tree<'_>,
    pieces: &mut PieceReader<'_, T>,
    names: &[String],
    options: PlotOptions,
    writer: &mut W,
) -> Result<Reach, ViewError> {
    let subjects = subjects_of(alloc, tree, names)?;
    let mut curves = PlotWriter::new(alloc, tree, subjects, options)?;
    pieces.give_all(&mut curves)?;
    let (picture, reach) = curves.finish()?;
    if options.is_behind(reach) {
        let words = format!(in alloc; "nothing is behind the end: {reach}")?;
        return Err(ViewError::NoPath(words));
    }
    picture.write(alloc, writer)?;
    Ok(reach)
}

// What names stand for.
fn subjects_of(
    alloc: Global,
    tree: &Tree<'_>,
    names: &[String],
) -> Result<Vec<Subject>, ViewError> {
    let mut subjects = Vec::with_capacity(alloc, names.len())?;
    for name in names {
        match Subject::named(alloc, tree, name.as_str())? {
            Some(subject) => keep(&mut subjects, subject)?,
            None => return Err(no_subject(alloc, tree, name.as_str())?),
        }
    }
    Ok(subjects)
}

// The error for a name that nothing has which can be shown.
fn no_subject(alloc: Global, tree: &Tree<'_>, name: &str) -> Result<ViewError, AllocError> {
    let shown = "components, their variables and output ports, and outputs of the root are shown";
    if let Some(error) = not_taken(alloc, tree, name, shown)? {
        return Ok(error);
    }
    let names = all_names(alloc, tree)?;
    no_name(alloc, "nothing of this name", name, &names)
}

fn keep(subjects: &mut Vec<Subject>, subject: Subject) -> Result<(), AllocError> {
    subjects.push(subject)?;
    Ok(())
}
