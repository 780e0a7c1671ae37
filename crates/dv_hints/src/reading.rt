//! Texts with their syntax trees.

use dv_expand::expand;
use dv_explain::Position;
use dv_explain::grammar::Version;
use dv_lex::{LoadError, Names, tokens};
use dv_parser::parse;
use dv_syntax::File;
use std::alloc::{AllocError, Global};

/// A text that could be parsed.
#[derive(Drop)]
pub struct ReadText<'t> {
    text: &'t [u8],
    /// The syntax tree.
    pub file: File,
    /// The table of names.
    pub names: Names,
    /// Whether the words of queues are reserved in the text.
    pub knows_queues: bool,
}

impl ReadText<'_> {
    /// The text of the name of this number.
    pub fn name(&self, number: u32) -> &str {
        self.names.text(number).unwrap_or("")
    }

    /// The position of an offset, in bytes of the text.
    pub fn position(&self, offset: u32) -> Position {
        Position::of(self.text, offset as usize)
    }
}

/// Parses a text; `None` if it can't be parsed.
///
/// # Errors
///
/// No memory for the tree.
pub fn read(alloc: Global, text: &[u8]) -> Result<Option<ReadText<'_>>, AllocError> {
    match parsed(alloc, text) {
        Ok(read) => Ok(Some(read)),
        Err(LoadError::Refused(_)) => Ok(None),
        Err(LoadError::Memory) => Err(AllocError),
    }
}

fn parsed(alloc: Global, text: &[u8]) -> Result<ReadText<'_>, LoadError> {
    let lexed = tokens(alloc, text)?;
    let source = parse(
        alloc,
        &lexed.tokens,
        text.len().min(u32::MAX as usize) as u32,
    )?;
    let file = expand(alloc, source)?;
    Ok(ReadText {
        text,
        file,
        knows_queues: Version::of(&lexed.tokens).knows_queues(),
        names: lexed.names,
    })
}
