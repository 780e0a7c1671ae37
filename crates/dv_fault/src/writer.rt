//! A writer that takes the trace of a run and explains its faults.

use crate::follower::Follower;
use crate::paragraphs::FileText;
use dv_bag::Inputs;
use dv_flat::LinkLists;
use dv_trace::{End, LineCutter, LineLists, TakeLine, TraceError, TraceReader};
use dv_tree::Tree;
use std::alloc::{AllocError, Global};
use std::io;
use std::io::Write;

/// A writer that takes the bytes of a trace as a run prints them, and explains the first faults of
/// its components. It keeps the state of each component and the lines of the current instant, so
/// its memory does not grow with the trace.
#[derive(Drop)]
pub struct FaultWriter<'t> {
    lines: LineCutter<Following<'t>>,
}

/// Reads the lines of a trace, and follows the run by them.
#[derive(Drop)]
struct Following<'t> {
    reader: Box<TraceReader<'t>>,
    follower: Follower<'t>,
}

impl TakeLine for Following<'_> {
    type Error = TraceError;

    fn take_line<'a>(
        &mut self,
        line: &'a [u8],
        lists: &mut LineLists<'a>,
    ) -> Result<(), TraceError> {
        let head = self.reader.read_into(line, lists)?;
        self.follower.add(head, lists)?;
        Ok(())
    }
}

impl<'t> FaultWriter<'t> {
    /// A writer for a trace of the model of a tree, from its first byte on. `links` are those of
    /// this tree, and `model` is its text. `inputs` and `limit`, the greatest microstep of a tick,
    /// are those of the run.
    ///
    /// # Errors
    ///
    /// No memory for the names and the components.
    pub fn new(
        alloc: Global,
        tree: &'t Tree<'t>,
        links: &'t LinkLists,
        inputs: &'t Inputs,
        limit: u32,
        model: FileText<'t>,
    ) -> Result<Self, AllocError> {
        let following = Following {
            reader: TraceReader::new(alloc, tree)?,
            follower: Follower::new(alloc, tree, links, inputs.as_slice(), limit, model)?,
        };
        Ok(FaultWriter {
            lines: LineCutter::new(alloc, following),
        })
    }

    /// A paragraph for each of the first ten faults of the lines that were written, with empty
    /// lines between them, and a last line if there are more. Without faults the text is empty.
    ///
    /// # Errors
    ///
    /// `Refused` or `Memory`, if a write failed before because the bytes are no trace of the model
    /// or because an allocation was refused. `Memory`: no memory for the text.
    pub fn finish(self) -> Result<String, TraceError> {
        let FaultWriter { lines } = self;
        // Bytes after the last line feed are ignored.
        let Following {
            reader: _,
            follower,
        } = lines.finish(End::Optional)?;
        Ok(follower.finish()?)
    }
}

impl Write for FaultWriter<'_> {
    fn write(&mut self, buf: &[u8]) -> io::Result<usize> {
        self.lines.write(buf)
    }

    fn flush(&mut self) -> io::Result<()> {
        self.lines.flush()
    }
}
