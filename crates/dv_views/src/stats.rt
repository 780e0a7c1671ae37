//! The numbers of a trace.

use crate::chosen::{chosen_of, no_name};
use crate::error::ViewError;
use crate::others::not_taken;
use dv_job::load::{accept, load};
use dv_stats::{Flow, FlowOptions, Gate, StatsOptions, StatsWriter, gate_names};
use dv_table::inputs_of;
use dv_trace::{PieceReader, Reach, Span};
use dv_tree::Tree;
use std::alloc::{AllocError, Global};
use std::io::{Read, Write};

/// Writes the numbers of each component and each output of the root in a trace of a model, and
/// returns how far the trace reaches. The trace is read to its end, piece by piece. Without
/// quantiles and a flow, memory does not grow with it.
///
/// # Errors
///
/// - `Unread`: the trace can't be read. This is also the answer if its first piece can't be read
///   and the model would be refused.
/// - `Job` with `Text`: the model is refused. `NoPath`: the model is accepted, and no component has
///   the path that is asked for, no ports have the names of the flow, or the flow begins at an
///   input of the root, and there are no inputs. `Job` with `Inputs`: the flow begins at an input
///   of the root, and the inputs are refused. `Trace`: all of these are accepted, and the trace is
///   refused.
/// - `Job` with `Write`: a write failed. `Job` with `Memory`: an allocation was refused. The writer
///   holds a beginning of the text, for `Memory` perhaps nothing. For all other errors nothing was
///   written.
pub fn stats_bytes<T: Read, W: Write>(
    alloc: Global,
    model: &[u8],
    trace: &mut T,
    inputs: Option<&[u8]>,
    options: &StatsOptions<'_>,
    writer: &mut W,
) -> Result<Reach, ViewError> {
    let mut pieces = PieceReader::begin(alloc, trace)?;
    let checked = load(alloc, model)?;
    let tree = accept(alloc, model, &checked)?;
    count_trace(alloc, &tree, &mut pieces, inputs, options, writer)
}

// Counts a trace, whose first piece was read, and writes the numbers. `finish` returns the error of
// a line that is not counted.
fn count_trace<T: Read, W: Write>(
    alloc: Global,
    tree: &Tree<'_>,
    pieces: &mut PieceReader<'_, T>,
    inputs: Option<&[u8]>,
    options: &StatsOptions<'_>,
    writer: &mut W,
) -> Result<Reach, ViewError> {
    let mut numbers = numbers_of(alloc, tree, inputs, options)?;
    pieces.give_all(&mut numbers)?;
    Ok(numbers.finish(writer)?)
}

/// A writer that counts a trace of the model of a tree. `inputs` is the text of the run's inputs.
///
/// # Errors
///
/// `NoPath`: no component has the path that is asked for, no ports have the names of the flow, or
/// the flow begins at an input of the root, and there are no inputs. `Job` with `Inputs`: the flow
/// begins at an input of the root, and the inputs are refused. `Job` with `Memory`: an allocation
/// was refused.
pub fn numbers_of<'t>(
    alloc: Global,
    tree: &'t Tree<'t>,
    inputs: Option<&[u8]>,
    options: &StatsOptions<'t>,
) -> Result<StatsWriter<'t>, ViewError> {
    let chosen = chosen_of(alloc, tree, options.excerpt.only)?;
    let flow = match options.flow {
        Some(flow) => Some(flow_of(alloc, tree, flow, inputs, options.excerpt.span())?),
        None => None,
    };
    Ok(StatsWriter::new(alloc, tree, chosen, flow, options)?)
}

// The flow between the ports that are named.
fn flow_of<'t>(
    alloc: Global,
    tree: &Tree<'_>,
    flow: FlowOptions<'t>,
    inputs: Option<&[u8]>,
    span: Span,
) -> Result<Flow<'t>, ViewError> {
    let Some((from, to)) = flow.ports.split_once(':') else {
        let ports = flow.ports;
        return Err(ViewError::NoPath(format!(in alloc;
            "no two ports with a colon between them: `{ports}`"
        )?));
    };
    let from = gate_of(alloc, tree, from, true)?;
    let to = gate_of(alloc, tree, to, false)?;
    let inputs = match (from, inputs) {
        (Gate::Input(_), None) => {
            let ports = flow.ports;
            return Err(ViewError::NoPath(format!(in alloc;
                "no inputs are given, and `{ports}` begins at an input of the root"
            )?));
        }
        (Gate::Input(_), inputs) => inputs_of(alloc, tree, inputs)?,
        (Gate::Component { .. } | Gate::Output(_), _) => inputs_of(alloc, tree, None)?,
    };
    Ok(Flow::new(alloc, from, to, flow, inputs, span))
}

// The port of a name. It may be an input of the root only where values come in.
fn gate_of(
    alloc: Global,
    tree: &Tree<'_>,
    name: &str,
    may_be_input: bool,
) -> Result<Gate, ViewError> {
    match Gate::named(alloc, tree, name)? {
        Some(gate) if may_be_input || !matches!(gate, Gate::Input(_)) => Ok(gate),
        Some(_) => Err(ViewError::NoPath(format!(in alloc;
            "nothing goes out by the input `{name}`"
        )?)),
        None => Err(no_gate(alloc, tree, name)?),
    }
}

// The error for a name that no port has by which values come in or go out.
fn no_gate(alloc: Global, tree: &Tree<'_>, name: &str) -> Result<ViewError, AllocError> {
    let paired =
        "values are paired at output ports of components, and inputs and outputs of the root";
    if let Some(error) = not_taken(alloc, tree, name, paired)? {
        return Ok(error);
    }
    let names = gate_names(alloc, tree)?;
    no_name(alloc, "no port of this name", name, &names)
}
