//! Tokens.

use crate::names::Names;
use crate::numeral::Numeral;

/// A word of the language. `Version` is a keyword only at the beginning of a text, and a name
/// elsewhere. `Queue`, `Push`, `Pop` and `Front` are keywords behind a header of version 2 or 3,
/// `Const`, `Each` and `When` behind one of version 3, and names elsewhere. The others are never
/// names.
#[derive(Clone, Copy, PartialEq, Eq)]
pub enum Keyword {
    /// `atomic`
    Atomic,
    /// `coupled`
    Coupled,
    /// `root`
    Root,
    /// `in`
    In,
    /// `out`
    Out,
    /// `var`
    Var,
    /// `flag`
    Flag,
    /// `bag`
    Bag,
    /// `phases`
    Phases,
    /// `start`
    Start,
    /// `hold`
    Hold,
    /// `forever`
    Forever,
    /// `output`
    Output,
    /// `internal`
    Internal,
    /// `external`
    External,
    /// `confluent`
    Confluent,
    /// `part`
    Part,
    /// `link`
    Link,
    /// `self`
    Itself,
    /// `if`
    If,
    /// `else`
    Else,
    /// `for`
    For,
    /// `add`
    Add,
    /// `to`
    To,
    /// `drop`
    Drop,
    /// `from`
    From,
    /// `send`
    Send,
    /// `goto`
    Goto,
    /// `true`
    True,
    /// `false`
    False,
    /// `not`
    Not,
    /// `and`
    And,
    /// `or`
    Or,
    /// `elapsed`
    Elapsed,
    /// `size`
    Size,
    /// `sum`
    Sum,
    /// `least`
    Least,
    /// `most`
    Most,
    /// `times`
    Times,
    /// `version`
    Version,
    /// `queue`
    Queue,
    /// `push`
    Push,
    /// `pop`
    Pop,
    /// `front`
    Front,
    /// `const`
    Const,
    /// `each`
    Each,
    /// `when`
    When,
}

/// A sign of one or two characters.
#[derive(Clone, Copy, PartialEq, Eq)]
pub enum Symbol {
    /// `:=`
    Assign,
    /// `->`
    Arrow,
    /// `..`
    Range,
    /// `!=`
    Unequal,
    /// `<=`
    AtMost,
    /// `>=`
    AtLeast,
    /// `{`
    OpenBrace,
    /// `}`
    CloseBrace,
    /// `(`
    OpenParen,
    /// `)`
    CloseParen,
    /// `;`
    Semicolon,
    /// `:`
    Colon,
    /// `,`
    Comma,
    /// `.`
    Dot,
    /// `=`
    Equal,
    /// `<`
    Less,
    /// `>`
    Greater,
    /// `+`
    Plus,
    /// `-`
    Minus,
    /// `*`
    Star,
    /// `/`
    Slash,
    /// `%`
    Percent,
}

/// The kind of a token.
#[derive(Clone, Copy, PartialEq, Eq)]
pub enum TokenKind {
    /// A name, by its number in the table of names.
    Name(u32),
    /// A number.
    Number(Numeral),
    /// A word of the language.
    Keyword(Keyword),
    /// A symbol.
    Symbol(Symbol),
}

/// A token with its offset: the number of bytes of the text before it.
#[derive(Clone, Copy, PartialEq, Eq)]
pub struct Token {
    /// The kind of the token.
    pub kind: TokenKind,
    /// The offset of its first byte, in bytes of the text.
    pub offset: u32,
}

/// The tokens of a model text, and the table that numbers its names.
#[derive(Drop)]
pub struct Tokens {
    /// The names of the text, by their numbers.
    pub names: Names,
    /// The tokens, in the order of the text.
    pub tokens: Vec<Token>,
}
