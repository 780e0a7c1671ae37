//! Writers.

use std::alloc::Global;
use std::io;
use std::io::{ErrorKind, Write};
use std::sync::atomic::{AtomicBool, Ordering};

/// A writer that raises a flag when it gets its first byte.
#[derive(Drop)]
pub struct Telling<'f> {
    /// What was written.
    pub bytes: Vec<u8>,
    /// Whether the first byte came.
    pub told: &'f AtomicBool,
}

impl<'f> Write for Telling<'f> {
    fn write(&mut self, buf: &[u8]) -> io::Result<usize> {
        self.bytes.extend_from_slice(buf)?;
        if !buf.is_empty() {
            self.told.store(true, Ordering::SeqCst);
        }
        Ok(buf.len())
    }

    fn flush(&mut self) -> io::Result<()> {
        Ok(())
    }
}

/// A writer that takes one byte a call, and fails at a call.
#[derive(Drop)]
pub struct Reluctant {
    /// What was written.
    pub bytes: Vec<u8>,
    /// How many calls there were.
    pub calls: usize,
    fails_at: usize,
}

impl Reluctant {
    /// A writer that fails at this call (the first one is 1), or never if it is 0.
    pub fn new(alloc: Global, fails_at: usize) -> Self {
        Reluctant {
            bytes: Vec::new(alloc),
            calls: 0,
            fails_at,
        }
    }
}

impl Write for Reluctant {
    fn write(&mut self, buf: &[u8]) -> io::Result<usize> {
        self.calls = self.calls.saturating_add(1);
        if self.calls == self.fails_at {
            return Err(io::Error::from(ErrorKind::Other));
        }
        match buf {
            [first, ..] => {
                self.bytes.push(*first)?;
                Ok(1)
            }
            [] => Ok(0),
        }
    }

    fn flush(&mut self) -> io::Result<()> {
        Ok(())
    }
}

/// A writer that takes nothing.
#[derive(Drop)]
pub struct Full;

impl Write for Full {
    fn write(&mut self, _buf: &[u8]) -> io::Result<usize> {
        Ok(0)
    }

    fn flush(&mut self) -> io::Result<()> {
        Ok(())
    }
}
