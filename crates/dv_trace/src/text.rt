//! A text that is made of pieces.

use std::alloc::{AllocError, Global};
use std::fmt::Display;

/// A text that is made of pieces. If the memory for a piece is refused, this piece and all later
/// ones are left out, and `whole` says so. So what adds pieces has no error.
#[derive(Drop)]
pub struct Text {
    text: String,
    is_cut: bool,
}

impl Text {
    /// No pieces.
    pub fn new(alloc: Global) -> Self {
        Text {
            text: String::new(alloc),
            is_cut: false,
        }
    }

    /// Adds a piece.
    pub fn add(&mut self, piece: &str) {
        self.is_cut = self.is_cut || self.text.push_str(piece).is_err();
    }

    /// Adds a character.
    pub fn add_char(&mut self, character: char) {
        self.is_cut = self.is_cut || self.text.push(character).is_err();
    }

    /// Adds what is displayed, as `format_args!` makes it.
    pub fn show(&mut self, piece: impl Display + Drop) {
        self.is_cut = self.is_cut || write!(self.text, "{piece}").is_err();
    }

    /// The text, which may be emptied to go on with further pieces.
    ///
    /// # Errors
    ///
    /// The memory for a piece was refused.
    pub fn whole(&mut self) -> Result<&mut String, AllocError> {
        if self.is_cut {
            Err(AllocError)
        } else {
            Ok(&mut self.text)
        }
    }
}
