//! The subcommands `vcd`, `plot`, `stats` and `table`.

use crate::files::{OpenedFile, TraceBytes, open, open_seekable, read, read_inputs, read_trace};
use crate::numbers::{excerpt_of, ports_of, stats_options};
use crate::printed::{Printed, print_through};
use crate::told::{tell_line, tell_unread};
use crate::{REFUSED, USAGE};
use dv_cause::Texts;
use dv_command::{Plot, Stats, Table, TraceFiles, Waves};
use dv_trace::{End, Reach};
use dv_views::{
    PlotOptions, TableForm, TableOptions, Timescale, ViewError, WaveOptions, plot_bytes,
    stats_bytes, table_bytes, vcd_bytes,
};
use std::io;
use std::rt::Files;

/// Whether the trace has to have an end.
fn end_of(files: &TraceFiles) -> End {
    if files.partial {
        End::Optional
    } else {
        End::Required
    }
}

/// The status of printing a view of a trace. If the trace has no end, a message says how far it
/// reaches.
fn status_of_view<R: AllocGlobal + Eprint>(
    rt: &R,
    texts: Texts<'_>,
    printed: &Printed<Reach, ViewError>,
    is_explained: bool,
) -> u8 {
    if let Ok(reach) = &printed.result
        && matches!(reach, Reach::NoEnd(_))
    {
        tell_line(rt, *reach);
    }
    printed.status(rt, texts, is_explained)
}

/// The same as `status_of_view`, for a trace that was read while its view was made. If it can't be
/// read, a message with its name is printed, and the reason if it is explained.
fn status_of_read_view<R: AllocGlobal + Eprint>(
    rt: &R,
    name: &str,
    texts: Texts<'_>,
    printed: &Printed<Reach, ViewError>,
    is_explained: bool,
) -> u8 {
    if let Err(ViewError::Unread(error)) = &printed.result {
        tell_unread(rt, name, error, is_explained);
        return REFUSED;
    }
    status_of_view(rt, texts, printed, is_explained)
}

/// The length of a tick: the one that is given, or a second. `None` if the text is no timescale: a
/// message says so then.
fn timescale_of<R: Eprint>(rt: &R, text: Option<&String>) -> Option<Timescale> {
    let Some(text) = text else {
        return Some(Timescale::SECOND);
    };
    match text.as_str().parse::<Timescale>() {
        Ok(timescale) => Some(timescale),
        Err(_) => {
            tell_line(rt, format_args!("no timescale: {text}"));
            None
        }
    }
}

/// Prints the value change dump of a trace, and returns the status. Files are read in the order
/// model, trace, inputs. But a trace that is a regular file is only opened then; it is read twice,
/// piece by piece, after the model and the inputs are accepted.
///
/// # Errors
///
/// An allocation was refused.
pub fn dump_trace<R: AllocGlobal + Files + Input + Print + Eprint>(
    rt: &R,
    waves: &Waves,
) -> io::Result<u8> {
    let files = &waves.files;
    let Some(timescale) = timescale_of(rt, waves.timescale.as_ref()) else {
        return Ok(USAGE);
    };
    let Some(model) = read(rt, files.model.as_str(), files.explained)? else {
        return Ok(REFUSED);
    };
    let Some(OpenedFile { name, mut reader }) = open_seekable(
        rt,
        files.trace.as_str(),
        files.explained,
    )?
    else {
        return Ok(REFUSED);
    };
    let Some(inputs) = read_inputs(rt, waves.inputs.as_ref(), files.explained)? else {
        return Ok(REFUSED);
    };
    let options = WaveOptions {
        end: end_of(files),
        excerpt: excerpt_of(&waves.excerpt, waves.excerpt.only.as_ref()),
        inputs: inputs.as_ref().map(|inputs| inputs.bytes.as_slice()),
        holds_ports: waves.holds_ports,
        timescale,
    };
    let alloc = rt.alloc();
    let printed = print_through(rt, |writer| {
        vcd_bytes(alloc, &model.bytes, &mut reader, &options, writer)
    });
    let texts = model.texts_with(inputs.as_ref());
    Ok(status_of_read_view(rt, name, texts, &printed, files.explained))
}

/// Prints curves of a trace, and returns the status. Files are read in the order model, trace. The
/// first piece of the trace is read before the model is checked, and the others as they are shown.
///
/// # Errors
///
/// An allocation was refused.
pub fn plot_trace<R: AllocGlobal + Files + Input + Print + Eprint>(
    rt: &R,
    plot: &Plot,
) -> io::Result<u8> {
    let files = &plot.files;
    let Some(model) = read(rt, files.model.as_str(), files.explained)? else {
        return Ok(REFUSED);
    };
    let Some(OpenedFile { name, mut reader }) = open(rt, files.trace.as_str(), files.explained)?
    else {
        return Ok(REFUSED);
    };
    let options = PlotOptions {
        end: end_of(files),
        from: plot.from,
        to: plot.to,
    };
    let alloc = rt.alloc();
    let printed = print_through(rt, |writer| {
        plot_bytes(
            alloc,
            &model.bytes,
            &mut reader,
            &plot.names,
            options,
            writer,
        )
    });
    Ok(status_of_read_view(rt, name, model.texts(), &printed, files.explained))
}

/// Prints the numbers of a trace, and returns the status. Files are read in the order model, trace,
/// inputs. But of the trace only the first piece is read before the model is checked, and the
/// others as they are counted.
///
/// # Errors
///
/// An allocation was refused.
pub fn count_trace<R: AllocGlobal + Files + Input + Print + Eprint>(
    rt: &R,
    stats: &Stats,
) -> io::Result<u8> {
    let files = &stats.files;
    let Some(model) = read(rt, files.model.as_str(), files.explained)? else {
        return Ok(REFUSED);
    };
    let Some(OpenedFile { name, mut reader }) = open(rt, files.trace.as_str(), files.explained)?
    else {
        return Ok(REFUSED);
    };
    let Some(inputs) = read_inputs(rt, stats.inputs.as_ref(), files.explained)? else {
        return Ok(REFUSED);
    };
    let choice = &stats.choice;
    let only = choice.excerpt.only.as_ref();
    let options = stats_options(choice, only, ports_of(choice), end_of(files));
    let bytes = inputs.as_ref().map(|inputs| inputs.bytes.as_slice());
    let alloc = rt.alloc();
    let printed = print_through(rt, |writer| {
        stats_bytes(alloc, &model.bytes, &mut reader, bytes, &options, writer)
    });
    let texts = model.texts_with(inputs.as_ref());
    Ok(status_of_read_view(rt, name, texts, &printed, files.explained))
}

/// Prints the table of a trace, and returns the status. Files are read in the order model, trace,
/// inputs.
///
/// # Errors
///
/// An allocation was refused.
pub fn tabulate_trace<R: AllocGlobal + Files + Input + Print + Eprint>(
    rt: &R,
    table: &Table,
) -> io::Result<u8> {
    match read_trace(rt, &table.files, table.inputs.as_ref())? {
        Some(bytes) => Ok(print_table(rt, table, &bytes)),
        None => Ok(REFUSED),
    }
}

/// Prints the table of a trace that was read, and returns the status.
fn print_table<R: AllocGlobal + Print + Eprint>(
    rt: &R,
    table: &Table,
    bytes: &TraceBytes<'_>,
) -> u8 {
    let options = TableOptions {
        end: end_of(&table.files),
        excerpt: excerpt_of(&table.excerpt, table.excerpt.only.as_ref()),
        form: form_of(table),
        inputs: bytes.input_bytes(),
    };
    let alloc = rt.alloc();
    let printed = print_through(rt, |writer| {
        table_bytes(
            alloc,
            &bytes.model.bytes,
            &bytes.trace.bytes,
            &options,
            writer,
        )
    });
    status_of_view(rt, bytes.texts(), &printed, table.files.explained)
}

/// The form of a table that is asked for.
fn form_of(table: &Table) -> TableForm {
    if table.json {
        TableForm::JsonLines
    } else {
        TableForm::Csv
    }
}
