//! Lines and columns.

use std::fmt;

/// A place in a text, as its line and column.
#[derive(Clone, Copy, PartialEq, Eq)]
pub struct Position {
    /// The number of the line, counted from 1.
    pub line: usize,
    /// The column in characters, counted from 1.
    pub column: usize,
}

impl Position {
    /// The position of an offset, in bytes, of a text. If the line is not UTF-8 before the offset,
    /// the column is 1.
    pub fn of(text: &[u8], offset: usize) -> Self {
        let (before, _) = text.split_at(offset.min(text.len()));
        let feeds = before.iter().filter(|byte| **byte == b'\n').count();
        let characters = str::from_utf8(last_line(before))
            .unwrap_or("")
            .chars()
            .count();
        Position {
            line: feeds.saturating_add(1),
            column: characters.saturating_add(1),
        }
    }
}

/// The bytes after the last line feed.
pub fn last_line(bytes: &[u8]) -> &[u8] {
    let mut start = 0;
    for (offset, byte) in bytes.iter().enumerate() {
        if *byte == b'\n' {
            start = offset + 1;
        }
    }
    bytes.get(start..).unwrap_or(&[])
}

impl fmt::Display for Position {
    fn fmt<W: fmt::Write>(&self, f: &mut fmt::Formatter<W>) -> fmt::Result {
        write!(f, "line {}, column {}", self.line, self.column)
    }
}
