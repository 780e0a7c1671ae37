//! Counts a trace line by line.

use crate::counts::Counts;
use crate::error::StatsError;
use crate::listing::write_counts;
use crate::options::Counted;
use dv_trace::{LineLists, Reach, TakeLine, TraceReader};
use std::alloc::AllocError;
use std::io::Write;

/// Reads the lines of a trace and counts what they say.
#[derive(Drop)]
pub(crate) struct Counter<'t> {
    reader: Box<TraceReader<'t>>,
    pub(crate) counts: Counts<'t>,
}

impl<'t> Counter<'t> {
    /// A counter at the first line of a trace.
    pub(crate) fn new(counted: Counted<'t>) -> Result<Self, AllocError> {
        Ok(Counter {
            counts: Counts::new(counted)?,
            reader: TraceReader::new(counted.alloc, counted.tree)?,
        })
    }

    /// Ends the trace, writes what was counted, and returns how far the trace reaches.
    pub(crate) fn end<W: Write>(
        &mut self,
        counted: Counted<'t>,
        writer: &mut W,
    ) -> Result<Reach, StatsError> {
        let reach = self.reader.end(counted.options.end)?;
        self.counts.finish()?;
        write_counts(counted, &self.counts, writer)?;
        Ok(reach)
    }
}

impl TakeLine for Counter<'_> {
    type Error = StatsError;

    // Counts the line.
    fn take_line<'a>(
        &mut self,
        line: &'a [u8],
        lists: &mut LineLists<'a>,
    ) -> Result<(), StatsError> {
        let head = self.reader.read_into(line, lists)?;
        self.counts.add(head, lists)?;
        Ok(())
    }
}
