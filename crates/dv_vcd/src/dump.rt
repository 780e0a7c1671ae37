//! Writes the dump of a trace.

use crate::arrivals::RootInputs;
use crate::changes::Changes;
use crate::error::VcdError;
use crate::header::write_header;
use crate::options::WaveOptions;
use crate::reading::read_lines;
use crate::survey::survey;
use dv_trace::{Chosen, End, LineLists, PieceReader, Reach, TakeLine, TraceReader};
use dv_tree::Tree;
use std::alloc::Global;
use std::io::{Read, Seek, Write};

/// Writes a trace of the model of a tree as a value change dump, with one time unit for each tick,
/// and returns how far the trace reaches. Each coupled model and each component is a scope. The
/// scope of a component has its phase as a string, its variables as integers of 64 bits, its flags
/// and the variables from 0 to 1 as wires, its bags and queues as strings, with their sizes as
/// integers, and its output ports. The scope of the root has the output ports of the root and, if
/// inputs are given, its input ports.
///
/// Only the ticks of `options.excerpt` are shown, and only the components that are chosen, with the
/// ports of the root if it is chosen. The dump begins with the values that hold at the first of
/// these ticks before anything happens there, and ends behind the last one.
///
/// A port is a string: `-`, and in the tick in which values pass, these values, with a semicolon
/// between those of different microsteps. With `holds_ports`, a port shows its last values until
/// the next ones. It is then an integer if it never has two values in one tick, a wire if all of
/// these are 0 or 1, and otherwise a string. Changes at several microsteps of a tick are written
/// one after the other at that tick, so that the last one stays.
///
/// `trace` has to be at its beginning. It is read to its end, piece by piece, and then the same
/// number of bytes is read once more. Memory does not grow with the trace.
///
/// # Errors
///
/// - `Inputs`: the text of the inputs is refused.
/// - `Unread`: the trace can't be read. If the first reading fails, nothing was written.
/// - `Refused`: the trace is malformed, or not one of this model. Nothing was written, unless the
///   trace was changed between its two readings.
/// - `Write`: a write failed. `Memory`: an allocation was refused. The writer holds a beginning of
///   the dump, perhaps nothing.
pub fn write_vcd<T: Read + Seek, W: Write>(
    alloc: Global,
    tree: &Tree<'_>,
    chosen: Chosen,
    trace: &mut T,
    options: &WaveOptions<'_>,
    writer: &mut W,
) -> Result<Reach, VcdError> {
    let root = RootInputs::of(alloc, tree, options.inputs)?;
    write_with_inputs(alloc, &*tree, chosen, &root, trace, options, writer)
}

fn write_with_inputs<'a, T: Read + Seek, W: Write>(
    alloc: Global,
    tree: &'a Tree<'a>,
    chosen: Chosen,
    root: &'a RootInputs,
    trace: &mut T,
    options: &WaveOptions<'_>,
    writer: &mut W,
) -> Result<Reach, VcdError> {
    let mut changes = Changes::new(alloc, tree, chosen, root, options)?;
    let mut pieces = PieceReader::begin(alloc, trace)?;
    write_dump(&mut changes, &mut pieces, options, writer)
}

// Reads a trace twice: to test it and find the form of each port, and to write the dump.
fn write_dump<T: Read + Seek, W: Write>(
    changes: &mut Changes<'_>,
    pieces: &mut PieceReader<'_, T>,
    options: &WaveOptions<'_>,
    writer: &mut W,
) -> Result<Reach, VcdError> {
    survey(changes, pieces, options.end)?;
    pieces.restart()?;
    write_header(changes, options.timescale, writer)?;
    changes.set_aside();
    write_changes(changes, pieces, options.end, writer)
}

// Reads a trace and writes what its lines change. Returns how far the trace reaches.
fn write_changes<T: Read, W: Write>(
    changes: &mut Changes<'_>,
    pieces: &mut PieceReader<'_, T>,
    end: End,
    writer: &mut W,
) -> Result<Reach, VcdError> {
    let mut reader = TraceReader::new(changes.alloc, changes.tree)?;
    write_lines(&mut reader, changes, pieces, end, writer)
}

fn write_lines<'a, T: Read, W: Write>(
    reader: &mut TraceReader<'a>,
    changes: &mut Changes<'a>,
    pieces: &mut PieceReader<'_, T>,
    end: End,
    writer: &mut W,
) -> Result<Reach, VcdError> {
    let alloc = changes.alloc;
    let dump = Dump {
        reader: &mut *reader,
        changes: &mut *changes,
        writer: &mut *writer,
    };
    read_lines(alloc, pieces, end, dump)?;
    let reach = reader.end(end)?;
    changes.finish(reach, writer)?;
    Ok(reach)
}

/// Reads the lines of a trace and writes what they change.
#[derive(Drop)]
struct Dump<'a, 'w, W> {
    reader: &'w mut TraceReader<'a>,
    changes: &'w mut Changes<'a>,
    writer: &'w mut W,
}

impl<W: Write> TakeLine for Dump<'_, '_, W> {
    type Error = VcdError;

    fn take_line<'a>(&mut self, line: &'a [u8], lists: &mut LineLists<'a>) -> Result<(), VcdError> {
        let head = self.reader.read_into(line, lists)?;
        self.changes.follow(head, lists, self.writer)?;
        Ok(())
    }
}
