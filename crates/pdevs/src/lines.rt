//! A writer of the lines of a run, which counts what is told beside them.

use crate::progress::Progress;
use dv_notice::FaultCount;
use std::io;
use std::io::Write;
use std::time::Clock;

/// A writer of the lines of a run, which also counts faults and prints the progress.
#[derive(Drop)]
pub struct Lines<'a, W, R> {
    /// The writer of the lines.
    pub writer: W,
    /// The faults among the lines that were written.
    pub faults: FaultCount,
    /// The progress, if it is printed.
    pub progress: Option<Progress<'a, R>>,
}

impl<W: Write, R: Eprint + Clock> Write for Lines<'_, W, R> {
    // A run writes whole lines at once, and faults are counted in whole lines. So all bytes are
    // written before they are counted.
    fn write(&mut self, buf: &[u8]) -> io::Result<usize> {
        self.writer.write_all(buf)?;
        self.faults.add(buf);
        if let Some(progress) = &mut self.progress {
            progress.add(buf);
        }
        Ok(buf.len())
    }

    fn flush(&mut self) -> io::Result<()> {
        self.writer.flush()
    }
}
