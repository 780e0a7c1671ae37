//! What a text may go on with at an offset.

use crate::grammar::{Called, FILE, Part, Version};
use dv_lex::{Token, TokenKind};
use std::alloc::{AllocError, Global};
use std::fmt;

/// What a text may go on with at an offset: parts of which all but the last may be empty.
#[derive(Drop)]
pub struct Expectations {
    /// The parts, the nearest first.
    pub parts: Vec<Part>,
    /// The version of the text.
    pub version: Version,
}

/// What may follow at an offset, in bytes, of a text with these tokens. The tokens before the
/// offset have to begin a text.
///
/// # Errors
///
/// No memory for the list of parts.
pub fn expectations_at(
    alloc: Global,
    tokens: &[Token],
    offset: usize,
) -> Result<Expectations, AllocError> {
    let expected = expected_at(alloc, tokens, offset)?;
    let mut parts = Vec::new(alloc);
    for part in expected.iter().rev() {
        parts.push(*part)?;
        if !part.is_optional() {
            break;
        }
    }
    Ok(Expectations {
        parts,
        version: Version::of(tokens),
    })
}

/// All parts that are still expected at an offset, the nearest last.
fn expected_at(alloc: Global, tokens: &[Token], offset: usize) -> Result<Vec<Part>, AllocError> {
    let mut expected = Vec::new(alloc);
    expect(&mut expected, FILE)?;
    for token in tokens
        .iter()
        .take_while(|token| (token.offset as usize) < offset)
    {
        read(&mut expected, &token.kind)?;
    }
    Ok(expected)
}

/// Adds parts, so that the first of them becomes the nearest.
fn expect(expected: &mut Vec<Part>, parts: &[Part]) -> Result<(), AllocError> {
    for part in parts.iter().rev() {
        expected.push(*part)?;
    }
    Ok(())
}

/// Reads a token: drops the nearest parts that it skips, and replaces the next one by what follows
/// the token.
fn read(expected: &mut Vec<Part>, kind: &TokenKind) -> Result<(), AllocError> {
    let skipped = expected
        .iter()
        .rev()
        .take_while(|part| part.is_skipped_by(kind))
        .count();
    expected.truncate(expected.len().saturating_sub(skipped));
    match expected.pop() {
        Some(part) => begin(expected, part, kind),
        None => Ok(()),
    }
}

/// Adds what is expected after a token that begins a part.
fn begin(expected: &mut Vec<Part>, part: Part, kind: &TokenKind) -> Result<(), AllocError> {
    if let Some(rest) = part.rest(kind) {
        expected.push(rest)?;
    }
    expect(expected, part.after(kind).unwrap_or(&[]))
}

impl Expectations {
    /// Whether a part may follow there.
    pub fn have(&self, part: Part) -> bool {
        self.parts.iter().any(|expected| *expected == part)
    }
}

impl fmt::Display for Expectations {
    fn fmt<W: fmt::Write>(&self, f: &mut fmt::Formatter<W>) -> fmt::Result {
        let last = self.parts.len().saturating_sub(1);
        for (index, part) in self.parts.iter().enumerate() {
            let separator = if index == 0 {
                ""
            } else if index == last {
                " or "
            } else {
                ", "
            };
            let called = Called {
                part,
                version: self.version,
            };
            write!(f, "{separator}{called}")?;
        }
        Ok(())
    }
}
