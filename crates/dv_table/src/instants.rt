//! The lines of one time. What arrives at a time is known once all its lines are read.

use crate::arrivals::{Arrival, Routes, arrivals_to};
use crate::error::TableError;
use crate::row::Rows;
use crate::row_writer::RowWriter;
use dv_time::Time;
use dv_trace::{Chosen, LineHead, Side, Span, TraceLine};
use std::alloc::{AllocError, Global};

/// The lines of the current time, and what writes their rows.
#[derive(Drop)]
pub(crate) struct Instants<'a, R> {
    routes: Routes<'a>,
    // The ticks and the components of which rows are written.
    span: Span,
    chosen: Chosen,
    row_writer: RowWriter<'a, R>,
    time: Time,
    lines: Vec<TraceLine<'a>>,
    // What arrives at that time. The memory is kept from one time to the next.
    arrivals: Vec<Arrival>,
}

impl<'a, R: Rows> Instants<'a, R> {
    /// Before the first line.
    pub(crate) fn new(
        alloc: Global,
        routes: Routes<'a>,
        span: Span,
        chosen: Chosen,
        row_writer: RowWriter<'a, R>,
    ) -> Self {
        Instants {
            routes,
            span,
            chosen,
            row_writer,
            time: Time::ZERO,
            lines: Vec::new(alloc),
            arrivals: Vec::new(alloc),
        }
    }

    /// Adds a line. If it is later than the lines before, their rows are written first. A line at a
    /// tick that is not asked for is left out.
    ///
    /// # Errors
    ///
    /// `Write`: a write failed. `Memory`: an allocation was refused.
    pub(crate) fn add(&mut self, line: TraceLine<'a>) -> Result<(), TableError> {
        if self.reach(line.head)? {
            self.lines.push(line)?;
        }
        Ok(())
    }

    // Whether a line is at a tick that is asked for. If it is later than the lines before, these
    // are written.
    fn reach(&mut self, head: LineHead) -> Result<bool, TableError> {
        match head.time() {
            Some(time) if self.span.side_of(time.tick) == Side::Within => {
                if self.time != time {
                    self.write_rows()?;
                    self.time = time;
                }
                Ok(true)
            }
            Some(_) | None => Ok(false),
        }
    }

    /// Writes the rows of the last lines.
    ///
    /// # Errors
    ///
    /// `Write`: a write failed. `Memory`: an allocation was refused.
    pub(crate) fn finish(&mut self) -> Result<(), TableError> {
        self.write_rows()?;
        self.row_writer.finish()
    }

    // Writes the rows of the lines of what is chosen. Values arrive only at components that have a
    // line, since what arrives causes a transition, unless the component had a fault before.
    fn write_rows(&mut self) -> Result<(), TableError> {
        self.gather()?;
        for line in &self.lines {
            match line.head {
                LineHead::Entry(entry) if self.chosen.has(entry.component as usize) => {
                    let here = arrivals_to(&self.arrivals, entry.component);
                    self.row_writer.entry(entry, &line.lists, here)?;
                }
                LineHead::Outside(time) if self.chosen.has_root() => {
                    self.row_writer.outside(time, &line.lists.sent)?;
                }
                _ => {}
            }
        }
        self.lines.clear();
        Ok(())
    }

    // Computes what arrives.
    fn gather(&mut self) -> Result<(), AllocError> {
        self.arrivals.clear();
        for line in &self.lines {
            if let LineHead::Entry(entry) = line.head {
                self.routes
                    .add_sent(entry.component, &line.lists.sent, &mut self.arrivals)?;
            }
        }
        self.routes.complete(self.time, &mut self.arrivals)
    }
}
