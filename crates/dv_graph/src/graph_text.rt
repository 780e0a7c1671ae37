//! The text of a graph, and the writer to which it goes.

use dv_text::{WriteError, hand_over, hand_over_if_long};
use std::alloc::Global;
use std::fmt;
use std::io::Write;

/// The text of a graph. It is written in pieces, so it needs little memory.
#[derive(Drop)]
pub(crate) struct GraphText<'w, W> {
    text: String,
    writer: &'w mut W,
}

impl<'w, W: Write> GraphText<'w, W> {
    /// No text yet.
    pub(crate) fn new(alloc: Global, writer: &'w mut W) -> Self {
        GraphText {
            text: String::new(alloc),
            writer,
        }
    }

    /// Adds to the text, and writes the text if it is long.
    ///
    /// # Errors
    ///
    /// As of `write_graph`.
    pub(crate) fn put<D: fmt::Display + Drop>(&mut self, more: D) -> Result<(), WriteError> {
        write!(self.text, "{more}")?;
        hand_over_if_long(&mut self.text, self.writer)
    }

    /// Ends the graph, and writes the rest of the text.
    ///
    /// # Errors
    ///
    /// As of `write_graph`.
    pub(crate) fn end(&mut self) -> Result<(), WriteError> {
        self.text.push_str("}\n")?;
        hand_over(self.writer, self.text.as_bytes())
    }
}
