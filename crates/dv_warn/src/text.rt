//! Writes warnings as lines.

use crate::alike::Told;
use crate::find::find_warnings;
use dv_text::{WriteError, hand_over, hand_over_if_long};
use dv_tree::Tree;
use std::alloc::Global;
use std::io::Write;

/// An offset of a text in bytes, with its line and its column. Both count from 1, columns in
/// characters.
#[derive(Clone, Copy)]
struct Spot {
    offset: usize,
    line: u64,
    column: u64,
}

impl Spot {
    const START: Spot = Spot {
        offset: 0,
        line: 1,
        column: 1,
    };

    // Moves forward to an offset.
    fn advance(&mut self, text: &[u8], offset: usize) {
        for byte in text.get(self.offset..offset).unwrap_or(&[]) {
            if *byte == b'\n' {
                self.line = self.line.saturating_add(1);
                self.column = 1;
            } else if !is_continuation(*byte) {
                self.column = self.column.saturating_add(1);
            }
        }
        self.offset = offset;
    }
}

// Whether a byte is not the first one of a character of UTF-8.
fn is_continuation(byte: u8) -> bool {
    byte & 0xc0 == 0x80
}

/// Writes the warnings about the model of a text, in the order of the text, and returns how many
/// lines there are. A line is `FILE:LINE:COLUMN: warning: SENTENCE`, where `FILE` is `name`; lines and
/// columns count from 1, columns in characters.
///
/// # Errors
///
/// `WriteError::Write` if a write fails or takes nothing, `WriteError::Memory` if memory is
/// refused. Then a part of the lines is written, from the first one on.
pub fn write_warnings<W: Write>(
    alloc: Global,
    name: &str,
    text: &[u8],
    tree: &Tree<'_>,
    writer: &mut W,
) -> Result<u64, WriteError> {
    let warnings = find_warnings(alloc, tree)?;
    let mut lines = String::new(alloc);
    write_lines(&mut lines, name, text, &warnings, writer)?;
    Ok(warnings.len() as u64)
}

fn write_lines<W: Write>(
    lines: &mut String,
    name: &str,
    text: &[u8],
    warnings: &[Told<'_>],
    writer: &mut W,
) -> Result<(), WriteError> {
    let mut spot = Spot::START;
    for told in warnings {
        spot.advance(text, told.found.offset as usize);
        let Spot { line, column, .. } = spot;
        writeln!(lines, "{name}:{line}:{column}: warning: {told}")?;
        hand_over_if_long(lines, writer)?;
    }
    hand_over(writer, lines.as_bytes())
}
