//! Characters with which no token begins.

use crate::cause::Cause;
use crate::slips::slip_at;
use crate::unseen::unseen_name;
use std::alloc::{AllocError, Global};

/// The cause of E2 at an offset, in bytes: which character is there, and what is probably meant, if
/// that is known.
///
/// # Errors
///
/// No memory for the words.
pub fn stray_at(alloc: Global, text: &[u8], offset: usize) -> Result<Cause, AllocError> {
    let summary = match first_character(text.get(offset..).unwrap_or(&[])) {
        Some(character) => summary_of(alloc, character)?,
        None => String::from_str(alloc, "no token begins here")?,
    };
    Ok(Cause {
        summary,
        sentences: String::from_str(alloc, slip_at(text, offset))?,
    })
}

/// Says that no token begins with a character; one that can't be seen has its number and name.
fn summary_of(alloc: Global, character: char) -> Result<String, AllocError> {
    match unseen_name(character) {
        Some(name) => format!(in alloc;
            "no token begins with U+{:04X}, {name}",
            u32::from(character)
        ),
        None => format!(in alloc; "no token begins with `{character}`"),
    }
}

/// The first character of bytes, if they begin with a whole one.
fn first_character(bytes: &[u8]) -> Option<char> {
    for length in 1..=4 {
        if let Ok(text) = str::from_utf8(bytes.get(..length)?) {
            return text.chars().next();
        }
    }
    None
}
