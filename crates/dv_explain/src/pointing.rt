//! The line of a text with a mark under an offset.

use crate::cause::Cause;
use crate::explanation::explanation_of;
use crate::position::last_line;
use crate::unseen::visible;
use std::alloc::{AllocError, Global};

/// The most characters that are shown on each side of the mark.
const SHOWN: usize = 60;

/// Replaces what is cut off a long line.
const CUT: char = '…';

/// An offset of a file.
#[derive(Clone, Copy)]
pub struct Spot<'a> {
    /// The name of the file.
    pub name: &'a str,
    /// The bytes of the file.
    pub text: &'a [u8],
    /// The number of the line, counted from 1.
    pub line: u64,
    /// The offset, in bytes of the text.
    pub offset: usize,
}

/// The line `FILE:LINE:COLUMN: CODE: SUMMARY`, then the line of the text with a mark below the
/// offset, then the sentences of the cause. Columns count characters from 1. If the cause has no
/// summary, the first sentence of the code's explanation takes its place. A long line is cut to 60
/// characters on each side of the offset, with a `…` for what is left out. A side of the line that
/// is not UTF-8 is left out.
///
/// # Errors
///
/// No memory for the lines.
pub fn pointed(
    alloc: Global,
    spot: &Spot<'_>,
    code: &str,
    cause: &Cause,
) -> Result<String, AllocError> {
    let (before, after) = spot.around();
    let mut lines = heading(alloc, spot, before, code, cause)?;
    push_marked(&mut lines, spot.line, before, after)?;
    lines.push_str(cause.sentences.as_str())?;
    Ok(lines)
}

impl<'a> Spot<'a> {
    /// The line of the offset, cut into what is before the offset and the rest. A side that is not
    /// UTF-8 is empty.
    fn around(&self) -> (&'a str, &'a str) {
        let (before, after) = self.text.split_at(self.offset.min(self.text.len()));
        (
            str::from_utf8(last_line(before)).unwrap_or(""),
            str::from_utf8(first_line(after)).unwrap_or(""),
        )
    }
}

/// The first line: the file, the line and the column, the code and the summary.
fn heading(
    alloc: Global,
    spot: &Spot<'_>,
    before: &str,
    code: &str,
    cause: &Cause,
) -> Result<String, AllocError> {
    let column = before.chars().count().saturating_add(1);
    let summary = if cause.summary.is_empty() {
        first_sentence(code)
    } else {
        cause.summary.as_str()
    };
    let (name, line) = (spot.name, spot.line);
    format!(in alloc; "{name}:{line}:{column}: {code}: {summary}\n")
}

/// The first sentence of a code's explanation, without its full stop.
fn first_sentence(code: &str) -> &'static str {
    match explanation_of(code) {
        Some(explanation) => match explanation.words.split_once(". ") {
            Some((sentence, _)) => sentence,
            None => explanation.words,
        },
        None => "",
    }
}

/// The bytes before the first line feed.
fn first_line(bytes: &[u8]) -> &[u8] {
    let end = bytes
        .iter()
        .position(|byte| *byte == b'\n')
        .unwrap_or(bytes.len());
    bytes.get(..end).unwrap_or(bytes)
}

/// Adds the line with its number, and the mark below it.
fn push_marked(text: &mut String, line: u64, before: &str, after: &str) -> Result<(), AllocError> {
    let hidden = before.chars().count().saturating_sub(SHOWN);
    let start = text.len();
    write!(text, "{line} ")?;
    let margin = text.len().saturating_sub(start);
    text.push_str("| ")?;
    push_before(text, before, hidden)?;
    push_after(text, after)?;
    push_mark(text, margin, before, hidden)
}

/// Adds what is shown of a line before the offset, without so many hidden characters.
fn push_before(text: &mut String, before: &str, hidden: usize) -> Result<(), AllocError> {
    if hidden > 0 {
        text.push(CUT)?;
    }
    push_shown(text, before, hidden)
}

/// Adds what is shown of a line from the offset on.
fn push_after(text: &mut String, after: &str) -> Result<(), AllocError> {
    push_shown(text, after, 0)?;
    if after.chars().count() > SHOWN {
        text.push(CUT)?;
    }
    Ok(())
}

/// Adds at most `SHOWN` characters of a text, after so many hidden ones.
fn push_shown(text: &mut String, line: &str, hidden: usize) -> Result<(), AllocError> {
    for character in line.chars().skip(hidden).take(SHOWN) {
        text.push(visible(character))?;
    }
    Ok(())
}

/// Adds the mark, below the first character from the offset on.
fn push_mark(
    text: &mut String,
    margin: usize,
    before: &str,
    hidden: usize,
) -> Result<(), AllocError> {
    write!(text, "\n{:margin$}| ", "")?;
    if hidden > 0 {
        text.push(' ')?;
    }
    for character in before.chars().skip(hidden) {
        text.push(blank(character))?;
    }
    text.push_str("^\n")
}

/// A blank or a tab, as wide as a character.
fn blank(character: char) -> char {
    if character == '\t' { '\t' } else { ' ' }
}
