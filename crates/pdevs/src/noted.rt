//! A writer that keeps the cause of a failed write.

use std::io;
use std::io::{Error, Write};

/// A writer, and the first error that it returned.
#[derive(Drop)]
pub struct Noted<W> {
    writer: W,
    /// The error of the first failed write.
    reason: Option<Error>,
}

impl<W> Noted<W> {
    /// A writer that has not failed yet.
    pub fn new(writer: W) -> Self {
        Noted {
            writer,
            reason: None,
        }
    }

    /// Keeps an error, if it is the first.
    fn note(&mut self, error: Error) {
        if self.reason.is_none() {
            self.reason = Some(error);
        }
    }
}

impl<W: Drop> Noted<W> {
    /// The error of the first failed write, if one failed.
    pub fn into_reason(self) -> Option<Error> {
        let Noted { writer: _, reason } = self;
        reason
    }
}

impl<W: Write> Write for Noted<W> {
    fn write(&mut self, buf: &[u8]) -> io::Result<usize> {
        match self.writer.write(buf) {
            Ok(written) => Ok(written),
            Err(error) => {
                self.note(error);
                Err(error)
            }
        }
    }

    fn flush(&mut self) -> io::Result<()> {
        match self.writer.flush() {
            Ok(()) => Ok(()),
            Err(error) => {
                self.note(error);
                Err(error)
            }
        }
    }
}
