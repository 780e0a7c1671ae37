//! A writer that counts a trace.

use crate::counter::Counter;
use crate::error::StatsError;
use crate::flow::Flow;
use crate::options::{Counted, StatsOptions};
use dv_trace::{Chosen, LineCutter, Reach};
use dv_tree::Tree;
use std::alloc::{AllocError, Global};
use std::io;
use std::io::Write;

/// A writer that takes the bytes of a trace, in any pieces, and counts what their lines say. It
/// keeps the line that has not ended yet, and none before it. Without quantiles and a flow, memory
/// does not grow with the trace.
///
/// A write fails if a line is refused or an allocation is; `finish` returns the cause.
#[derive(Drop)]
pub struct StatsWriter<'t> {
    counted: Counted<'t>,
    lines: LineCutter<Counter<'t>>,
}

impl<'t> StatsWriter<'t> {
    /// A writer for a trace of the model of a tree, from its first byte on. Only the components
    /// that are chosen count, and the outputs of the root if it is. `flow` is the one of
    /// `options.flow`.
    ///
    /// # Errors
    ///
    /// An allocation was refused.
    pub fn new(
        alloc: Global,
        tree: &'t Tree<'t>,
        chosen: Chosen,
        flow: Option<Flow<'t>>,
        options: &StatsOptions<'t>,
    ) -> Result<Self, AllocError> {
        let counted = Counted {
            alloc,
            tree,
            chosen,
            options: *options,
        };
        let mut counter = Counter::new(counted)?;
        counter.counts.set_flow(flow);
        Ok(StatsWriter {
            counted,
            lines: LineCutter::new(alloc, counter),
        })
    }

    /// Ends the trace, writes its numbers to `writer`, and returns how far the trace reaches. Of
    /// each component that is asked for it writes the transitions of each kind and the fault, the
    /// visits to each phase and the ticks in it, the least, the greatest and the mean value of each
    /// variable over time, and what its ports sent; of each output of the root what left and how
    /// often. A whole trace to the horizon `H` has `H + 1` ticks, a partial one has those before
    /// the least clock, and one without an end has those before its last line.
    ///
    /// # Errors
    ///
    /// - `Refused`: the trace is malformed, or not one of this model; nothing was written.
    /// - `Write`: a write to `writer` failed. `Memory`: an allocation was refused. `writer` holds a
    ///   beginning of the text, perhaps nothing.
    ///
    /// If a write to this `StatsWriter` failed, the error is the cause of that: `Refused` or
    /// `Memory`.
    pub fn finish<W: Write>(self, writer: &mut W) -> Result<Reach, StatsError> {
        let StatsWriter { counted, lines } = self;
        let mut counter = lines.finish(counted.options.end)?;
        counter.end(counted, writer)
    }
}

impl Write for StatsWriter<'_> {
    fn write(&mut self, buf: &[u8]) -> io::Result<usize> {
        self.lines.write(buf)
    }

    fn flush(&mut self) -> io::Result<()> {
        self.lines.flush()
    }
}
