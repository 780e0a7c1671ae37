//! A writer.

use crate::looks::turns_before_rest;
use std::alloc::Global;
use std::io;
use std::io::{ErrorKind, Write};
use std::sync::atomic::AtomicU64;
use std::time::Clock;

/// A writer that takes its first bytes when no process has made a turn for a while. After that it
/// takes all bytes, or fails.
#[derive(Drop)]
pub struct Late<'r, R> {
    rt: &'r R,
    /// What was written.
    pub bytes: Vec<u8>,
    /// How many turns began while it took nothing.
    pub turns: u64,
    begun: &'r AtomicU64,
    fails: bool,
    waited: bool,
}

impl<'r, R: Clock> Late<'r, R> {
    /// A writer that looks at how many turns have begun.
    pub fn new(rt: &'r R, alloc: Global, begun: &'r AtomicU64, fails: bool) -> Self {
        Late {
            rt,
            bytes: Vec::new(alloc),
            turns: 0,
            begun,
            fails,
            waited: false,
        }
    }
}

impl<'r, R: Clock> Write for Late<'r, R> {
    fn write(&mut self, buf: &[u8]) -> io::Result<usize> {
        if !self.waited {
            self.turns = turns_before_rest(self.rt, self.begun);
            self.waited = true;
        }
        if self.fails {
            return Err(io::Error::from(ErrorKind::Other));
        }
        self.bytes.extend_from_slice(buf)?;
        Ok(buf.len())
    }

    fn flush(&mut self) -> io::Result<()> {
        Ok(())
    }
}
