//! The token at an offset, in words.

use crate::quoted::Quoted;
use dv_lex::{Names, Symbol, Token, TokenKind};
use std::fmt;

/// What was met at an offset of a text.
#[derive(Clone, Copy, PartialEq, Eq)]
pub enum Met<'a> {
    /// A name, with its text.
    Name(&'a str),
    /// A number, with its value.
    Number(i64),
    /// A reserved word or a sign, with its spelling.
    Fixed(&'a str),
    /// No token: the text ends.
    End,
}

/// What a token is, or that there is none. `text` is the whole text of the token.
pub fn met_at<'a>(text: &'a str, names: &'a Names, token: Option<&Token>) -> Met<'a> {
    let Some(token) = token else {
        return Met::End;
    };
    let text = text.get(token.offset as usize..).unwrap_or("");
    match token.kind {
        TokenKind::Name(number) => Met::Name(names.text(number).unwrap_or("")),
        TokenKind::Number(number) => Met::Number(number.value()),
        TokenKind::Keyword(_) => Met::Fixed(letters_of(text)),
        TokenKind::Symbol(symbol) => Met::Fixed(text.get(..length_of(symbol)).unwrap_or("")),
    }
}

/// The letters at the beginning of a text.
fn letters_of(text: &str) -> &str {
    match text.find(|character: char| !character.is_ascii_alphabetic()) {
        Some(end) => text.get(..end).unwrap_or(text),
        None => text,
    }
}

/// How many characters a sign has.
fn length_of(symbol: Symbol) -> usize {
    match symbol {
        Symbol::Assign
        | Symbol::Arrow
        | Symbol::Range
        | Symbol::Unequal
        | Symbol::AtMost
        | Symbol::AtLeast => 2,
        Symbol::OpenBrace
        | Symbol::CloseBrace
        | Symbol::OpenParen
        | Symbol::CloseParen
        | Symbol::Semicolon
        | Symbol::Colon
        | Symbol::Comma
        | Symbol::Dot
        | Symbol::Equal
        | Symbol::Less
        | Symbol::Greater
        | Symbol::Plus
        | Symbol::Minus
        | Symbol::Star
        | Symbol::Slash
        | Symbol::Percent => 1,
    }
}

impl fmt::Display for Met<'_> {
    fn fmt<W: fmt::Write>(&self, f: &mut fmt::Formatter<W>) -> fmt::Result {
        match self {
            Met::Name(text) => write!(f, "the name {}", Quoted(text)),
            Met::Number(number) => write!(f, "the number {number}"),
            Met::Fixed(text) => write!(f, "`{text}`"),
            Met::End => f.write_str("the end of the text"),
        }
    }
}
