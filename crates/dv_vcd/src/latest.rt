//! What ports show at the beginning of the part of a trace that is asked for.

use indexmap::IndexMap;
use std::alloc::{AllocError, Global};

/// The last change of each port before the part that is asked for, as a line of the dump. Ports by
/// which nothing has passed have none.
#[derive(Drop)]
pub(crate) struct Latest {
    lines: IndexMap<u64, String>,
}

impl Latest {
    /// No changes.
    pub(crate) fn new(alloc: Global) -> Self {
        Latest {
            lines: IndexMap::new(alloc),
        }
    }

    /// Keeps the line of a change of the port with a code.
    pub(crate) fn keep(&mut self, alloc: Global, code: u64, line: &str) -> Result<(), AllocError> {
        match self.lines.get_mut(&code) {
            Some(kept) => {
                kept.clear();
                kept.push_str(line)
            }
            None => {
                self.lines.insert(code, String::from_str(alloc, line)?)?;
                Ok(())
            }
        }
    }

    /// The line of the last change of the port with a code.
    pub(crate) fn line(&self, code: u64) -> Option<&str> {
        match self.lines.get(&code) {
            Some(line) => Some(line.as_str()),
            None => None,
        }
    }
}
