//! Writes the table of a trace.

use crate::arrivals::Routes;
use crate::csv_rows::CsvRows;
use crate::error::TableError;
use crate::instants::Instants;
use crate::json_rows::JsonRows;
use crate::row::Rows;
use crate::row_writer::RowWriter;
use dv_bag::Inputs;
use dv_flat::LinkLists;
use dv_inputs::{InputsError, read_inputs};
use dv_time::GREATEST_LIMIT;
use dv_trace::{Chosen, End, Excerpt, Reach, Span, TraceReader, check_trace, read_part};
use dv_tree::Tree;
use std::alloc::Global;
use std::io::Write;

/// The form of a table.
#[derive(Clone, Copy)]
pub enum TableForm {
    /// Comma-separated values, below titles: tick, microstep, component, what, name, value.
    Csv,
    /// JSON lines: for each row an object with these six members.
    JsonLines,
}

/// Options of a table.
#[derive(Clone, Copy)]
pub struct TableOptions<'a> {
    /// Whether the trace has to have an end.
    pub end: End,
    /// The ticks and the components of which rows are written.
    pub excerpt: Excerpt<'a>,
    /// The form of the table.
    pub form: TableForm,
    /// The text of the inputs of the run, if it is given. Without it, no row says what arrived from
    /// outside.
    pub inputs: Option<&'a [u8]>,
}

/// Writes a trace of the model of a tree as a table, and returns how far the trace reaches. Each
/// line of a component has rows for what it sent, for what arrived there at that time, and for the
/// transition with the state after it, or the fault. The lines of what left the model have a row
/// for each port. Only rows of the ticks of `options.excerpt` and of the components that are chosen
/// are written; what left the model has rows if the root is chosen. `links` are the links of the
/// same tree. The time is proportional to the trace and
/// to what arrives; besides the trace, the memory holds what happens at one time.
///
/// # Errors
///
/// - `Inputs`: the inputs are refused. `Refused`: the inputs are accepted, and the trace is
///   malformed, or not one of this model. Nothing was written.
/// - `Write`: a write failed. `Memory`: an allocation was refused. The writer holds a beginning of
///   the table, perhaps nothing.
pub fn write_table<W: Write>(
    alloc: Global,
    tree: &Tree<'_>,
    links: &LinkLists,
    chosen: Chosen,
    trace: &[u8],
    options: &TableOptions<'_>,
    writer: &mut W,
) -> Result<Reach, TableError> {
    let inputs = inputs_of(alloc, tree, options.inputs)?;
    check_trace(alloc, tree, trace, options.end)?;
    let source = Source {
        tree: &*tree,
        trace,
        end: options.end,
        span: options.excerpt.span(),
        chosen,
        routes: Routes::new(links, inputs.as_slice()),
    };
    match options.form {
        TableForm::Csv => write_rows(alloc, source, CsvRows::new(alloc, writer)?),
        TableForm::JsonLines => write_rows(alloc, source, JsonRows::new(alloc, writer)),
    }
}

/// The inputs of a run, or none without their text. The microstep limit of the run is not known
/// here, so the greatest one is used.
///
/// # Errors
///
/// `Refused`: the text is refused. `Memory`: an allocation was refused.
pub fn inputs_of(
    alloc: Global,
    tree: &Tree<'_>,
    text: Option<&[u8]>,
) -> Result<Inputs, InputsError> {
    let Some(text) = text else {
        return Ok(Inputs::new(alloc));
    };
    let names = tree.input_names(alloc)?;
    read_inputs(alloc, text, &names, GREATEST_LIMIT)
}

// What a table is made of.
#[derive(Clone, Copy)]
struct Source<'a> {
    tree: &'a Tree<'a>,
    trace: &'a [u8],
    end: End,
    span: Span,
    chosen: Chosen,
    routes: Routes<'a>,
}

// Writes the rows of all lines.
fn write_rows<R: Rows + Drop>(
    alloc: Global,
    source: Source<'_>,
    rows: R,
) -> Result<Reach, TableError> {
    let mut reader = TraceReader::new(alloc, source.tree)?;
    let row_writer = RowWriter::new(alloc, source.tree, rows);
    let Source {
        routes,
        span,
        chosen,
        ..
    } = source;
    let mut instants = Instants::new(alloc, routes, span, chosen, row_writer);
    write_lines(source, &mut reader, &mut instants)
}

// The same, with the reader lent, so that no exit of the loop drops it.
fn write_lines<'a, R: Rows>(
    source: Source<'a>,
    reader: &mut TraceReader<'a>,
    instants: &mut Instants<'a, R>,
) -> Result<Reach, TableError> {
    for line in read_part(source.trace, source.end).split(|byte| *byte == b'\n') {
        match reader.read_line(line) {
            Ok(line) => instants.add(line)?,
            Err(error) => return Err(TableError::from(error)),
        }
    }
    instants.finish()?;
    Ok(reader.end(source.end)?)
}
