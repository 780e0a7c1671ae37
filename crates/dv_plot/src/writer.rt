//! A writer that takes a trace, and the picture of it.

use crate::grid::Grid;
use crate::picture::{Picture, tick_behind};
use crate::subject::Subject;
use dv_trace::{End, LineCutter, Reach, TraceError, TraceReader};
use dv_tree::Tree;
use std::alloc::{AllocError, Global};
use std::io;
use std::io::Write;

/// What of a trace is shown.
#[derive(Clone, Copy)]
pub struct PlotOptions {
    /// Whether the trace has to have an end. One without an end is shown up to its last line.
    pub end: End,
    /// The first tick that is shown; without it, tick 0.
    pub from: Option<u64>,
    /// The last tick that is shown; without it, the last one of the trace.
    pub to: Option<u64>,
}

/// A writer that takes the bytes of a trace, in any pieces, and keeps what is shown of them. Memory
/// does not grow with the trace.
///
/// A write fails if a line is refused or an allocation is; `finish` returns the cause.
#[derive(Drop)]
pub struct PlotWriter<'t> {
    end: End,
    lines: LineCutter<Picture<'t>>,
}

impl<'t> PlotWriter<'t> {
    /// A writer for a trace of the model of a tree, from its first byte on. The subjects are shown
    /// in their order.
    ///
    /// # Errors
    ///
    /// An allocation was refused.
    pub fn new(
        alloc: Global,
        tree: &'t Tree<'t>,
        subjects: Vec<Subject>,
        options: PlotOptions,
    ) -> Result<Self, AllocError> {
        let picture = Picture {
            tree,
            reader: TraceReader::new(alloc, tree)?,
            subjects,
            grid: Grid {
                first: options.from.unwrap_or(0),
                width: 1,
            },
            behind: options.to.unwrap_or(u64::MAX).saturating_add(1),
        };
        Ok(PlotWriter {
            end: options.end,
            lines: LineCutter::new(alloc, picture),
        })
    }

    /// Ends the trace, and returns the picture and how far the trace reaches.
    ///
    /// # Errors
    ///
    /// `Refused`: the trace is malformed, or not one of this model. `Memory`: an allocation was
    /// refused. If a write to this `PlotWriter` failed, the error is the cause of that.
    pub fn finish(self) -> Result<(Picture<'t>, Reach), TraceError> {
        let PlotWriter { end, lines } = self;
        let mut picture = lines.finish(end)?;
        let reach = picture.reader.end(end)?;
        picture.end(reach);
        Ok((picture, reach))
    }
}

impl PlotOptions {
    /// Whether no tick that is shown is in a trace that reaches as far as this.
    pub fn is_behind(&self, reach: Reach) -> bool {
        match self.from {
            Some(from) => from >= tick_behind(reach),
            None => false,
        }
    }
}

impl Write for PlotWriter<'_> {
    fn write(&mut self, buf: &[u8]) -> io::Result<usize> {
        self.lines.write(buf)
    }

    fn flush(&mut self) -> io::Result<()> {
        self.lines.flush()
    }
}
