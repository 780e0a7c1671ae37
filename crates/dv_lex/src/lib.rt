//! The tokens of a model text, and the refusals of texts.
//!
//! `tokens` reads a text from its bytes in one pass, by the longest match. Names are numbered in
//! the order of their first appearance, so that all crates above compare names by their numbers;
//! the table `Names` keeps their texts. A law says that every text has either tokens or one
//! refusal. A `Refusal` is a number (E1 to E17) and the offset of the token that it names, in
//! bytes. Of several refusals the first is the answer, and `TextError` has its line too.
//!
//! The parser reads these tokens. `dv_check` and `dv_flat` refuse with these numbers, and
//! `dv_explain` and `dv_hints` look at tokens to say what is wrong. Which sequences of tokens are a
//! file is not known here: that is in `dv_syntax`.
#![tactic(auto)]

/// Refusals, and the answer to a text.
pub mod error;
/// Keywords by their spellings.
mod keywords;
/// Laws of texts and tokens.
pub mod laws;
/// The lexer.
pub mod lexer;
/// The table of names.
pub mod names;
/// The numbers of a text.
pub mod numeral;
/// Symbols by their spellings.
mod symbols;
/// The tokens.
pub mod token;
/// The header of a text, and the words of later versions.
mod versions;

pub use error::{LoadError, Refusal, RefusalNumber, TextError, answer};
pub use lexer::{GREATEST_LENGTH, tokens};
pub use names::Names;
pub use numeral::Numeral;
pub use token::{Keyword, Symbol, Token, TokenKind, Tokens};
