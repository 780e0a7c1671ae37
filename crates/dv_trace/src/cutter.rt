//! Cuts pieces of a trace into lines.

use crate::line::LineLists;
use crate::reach::End;
use crate::refusal::{TraceError, TraceReason, TraceRefusal};
use memchr::{memchr, memchr_iter};
use std::alloc::{AllocError, Global};
use std::io;
use std::io::{ErrorKind, Write};

/// Takes the lines of a trace, one after the other.
pub trait TakeLine {
    /// Why a line is not taken.
    type Error: From<TraceError> + From<AllocError> + Drop;

    /// Takes the next line, which is given without its line feed. `lists` may have those of another
    /// line, which are replaced.
    ///
    /// # Errors
    ///
    /// The line is refused, or an allocation is. No further line may be given then.
    fn take_line<'a>(
        &mut self,
        line: &'a [u8],
        lists: &mut LineLists<'a>,
    ) -> Result<(), Self::Error>;
}

/// A writer that takes the bytes of a trace, in any pieces, and gives its lines to `L`. It keeps
/// the line that has not ended yet. If a line is not taken, this write fails, and so do all later
/// ones; `finish` returns the error.
#[derive(Drop)]
pub struct LineCutter<L: TakeLine> {
    alloc: Global,
    taker: L,
    // The beginning of the line that has not ended yet.
    line: Vec<u8>,
    // The number of lines that have ended.
    lines: u64,
    // The error of the line that was not taken.
    error: Option<L::Error>,
}

impl<L: TakeLine> LineCutter<L> {
    /// A writer at the first byte of a trace.
    pub fn new(alloc: Global, taker: L) -> Self {
        LineCutter {
            alloc,
            taker,
            line: Vec::new(alloc),
            lines: 0,
            error: None,
        }
    }

    /// Ends the trace and returns what took its lines. What follows the last line feed is not
    /// given: it is a line that was cut.
    ///
    /// # Errors
    ///
    /// The error of the first line that was not taken; and `NoEnd` if an end is required, and the
    /// last line has no line feed.
    pub fn finish(self, end: End) -> Result<L, L::Error>
    where
        L: Drop,
    {
        let LineCutter {
            alloc: _,
            taker,
            line,
            lines,
            error,
        } = self;
        match error {
            Some(error) => Err(error),
            None if matches!(end, End::Required) && !line.is_empty() => {
                Err(L::Error::from(TraceError::Refused(TraceRefusal {
                    reason: TraceReason::NoEnd,
                    line: lines.saturating_add(1),
                })))
            }
            None => Ok(taker),
        }
    }

    // Gives the lines that end in these bytes, and keeps the rest. The first line may have begun in
    // earlier bytes.
    fn take(&mut self, bytes: &[u8]) -> Result<(), L::Error> {
        let Some(first) = memchr(b'\n', bytes) else {
            return self.keep(bytes);
        };
        self.keep(bytes.get(..first).unwrap_or(bytes))?;
        self.take_kept()?;
        self.line.clear();
        let others = bytes.get(first.saturating_add(1)..).unwrap_or(&[]);
        let rest = self.take_lines(others)?;
        self.keep(others.get(rest..).unwrap_or(&[]))
    }

    // Gives the lines that begin and end in these bytes, and returns how many bytes they have.
    fn take_lines(&mut self, bytes: &[u8]) -> Result<usize, L::Error> {
        let mut lists = LineLists::new(self.alloc);
        let mut rest: usize = 0;
        for end in memchr_iter(b'\n', bytes) {
            let line = bytes.get(rest..end).unwrap_or(&[]);
            self.lines = self.lines.saturating_add(1);
            self.taker.take_line(line, &mut lists)?;
            rest = end.saturating_add(1);
        }
        Ok(rest)
    }

    // Keeps a further part of a line.
    fn keep(&mut self, bytes: &[u8]) -> Result<(), L::Error> {
        self.line.extend_from_slice(bytes)?;
        Ok(())
    }

    // Gives the line that was kept.
    fn take_kept(&mut self) -> Result<(), L::Error> {
        self.lines = self.lines.saturating_add(1);
        self.taker
            .take_line(&self.line, &mut LineLists::new(self.alloc))
    }
}

impl<L: TakeLine> Write for LineCutter<L> {
    fn write(&mut self, buf: &[u8]) -> io::Result<usize> {
        if self.error.is_some() {
            return Err(io::Error::from(ErrorKind::Other));
        }
        match self.take(buf) {
            Ok(()) => Ok(buf.len()),
            Err(error) => {
                self.error = Some(error);
                Err(io::Error::from(ErrorKind::Other))
            }
        }
    }

    fn flush(&mut self) -> io::Result<()> {
        Ok(())
    }
}
