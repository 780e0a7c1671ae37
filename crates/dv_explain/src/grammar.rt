//! The grammar of a model text, as the parts that are still expected at an offset.
//!
//! These parts are a list. A token begins the first part of the list that it does not skip, and
//! this part is replaced by the parts that have to follow the token.

use dv_lex::{Keyword, Symbol, Token, TokenKind};
use std::fmt;

/// A part of the grammar that is expected at an offset of a text.
#[derive(Clone, Copy, PartialEq, Eq)]
pub enum Part {
    /// A sign, with its spelling.
    Sign(Symbol, &'static str),
    /// A reserved word, with its spelling.
    Word(Keyword, &'static str),
    /// A name.
    Name,
    /// A number.
    Number,
    /// A header, or none.
    Header,
    /// The number of a version.
    Version,
    /// Models, or none.
    Models,
    /// Items of an atomic model, or none.
    Items,
    /// Items of a coupled model, or none.
    CoupledItems,
    /// Statements, or none.
    Statements,
    /// `else` with its block, or nothing.
    Else,
    /// What follows `else`: a block, or an `if` in version 3.
    Alternative,
    /// Names, each after a comma, or none.
    Names,
    /// A number, perhaps after a minus sign.
    Bound,
    /// `true` or `false`.
    Truth,
    /// `forever` or an expression.
    Ticks,
    /// An expression.
    Expression,
    /// An operand of an arithmetic operator or a comparison.
    Operand,
    /// What may follow an operand that is not compared yet.
    Operators,
    /// What may follow an operand that is compared.
    OperatorsOfCompared,
    /// One end of a link.
    LinkEnd,
    /// The end of the text.
    End,
}

/// The brace that begins a model or a block.
pub const OPEN_BRACE: Part = Part::Sign(Symbol::OpenBrace, "{");

const CLOSE_BRACE: Part = Part::Sign(Symbol::CloseBrace, "}");

const OPEN_PAREN: Part = Part::Sign(Symbol::OpenParen, "(");

const CLOSE_PAREN: Part = Part::Sign(Symbol::CloseParen, ")");

/// A semicolon.
pub const SEMICOLON: Part = Part::Sign(Symbol::Semicolon, ";");

/// A colon.
pub const COLON: Part = Part::Sign(Symbol::Colon, ":");

const COMMA: Part = Part::Sign(Symbol::Comma, ",");

/// The dot of a link's end, the only place for a dot.
pub const DOT: Part = Part::Sign(Symbol::Dot, ".");

const RANGE: Part = Part::Sign(Symbol::Range, "..");

/// The sign before a start value.
pub const EQUAL: Part = Part::Sign(Symbol::Equal, "=");

/// The sign between a variable and its value in a statement.
pub const ASSIGN: Part = Part::Sign(Symbol::Assign, ":=");

const ARROW: Part = Part::Sign(Symbol::Arrow, "->");

const ROOT: Part = Part::Word(Keyword::Root, "root");

const IN: Part = Part::Word(Keyword::In, "in");

const TO: Part = Part::Word(Keyword::To, "to");

const FROM: Part = Part::Word(Keyword::From, "from");

/// What is expected at the beginning of a text.
pub const FILE: &[Part] = &[
    Part::Header,
    Part::Models,
    ROOT,
    Part::Name,
    SEMICOLON,
    Part::End,
];

impl Part {
    /// Whether the part may be empty.
    pub fn is_optional(&self) -> bool {
        match self {
            Part::Header
            | Part::Models
            | Part::Items
            | Part::CoupledItems
            | Part::Statements
            | Part::Else
            | Part::Names
            | Part::Operators
            | Part::OperatorsOfCompared => true,
            Part::Sign(..)
            | Part::Word(..)
            | Part::Name
            | Part::Number
            | Part::Version
            | Part::Alternative
            | Part::Bound
            | Part::Truth
            | Part::Ticks
            | Part::Expression
            | Part::Operand
            | Part::LinkEnd
            | Part::End => false,
        }
    }

    /// Whether the part is empty before a token of this kind, so that the token belongs to a later
    /// part.
    pub fn is_skipped_by(&self, kind: &TokenKind) -> bool {
        self.is_optional() && self.after(kind).is_none()
    }

    /// What is expected after a token of this kind, if the part begins with it. After that, `rest`
    /// is expected.
    pub fn after(&self, kind: &TokenKind) -> Option<&'static [Part]> {
        match self {
            Part::Sign(sign, _) => nothing_if(*kind == TokenKind::Symbol(*sign)),
            Part::Word(word, _) => nothing_if(*kind == TokenKind::Keyword(*word)),
            Part::Name => nothing_if(matches!(kind, TokenKind::Name(_))),
            Part::Number => nothing_if(matches!(kind, TokenKind::Number(_))),
            Part::Header => after_word(kind, &[Role::Header]),
            Part::Version => nothing_if(version_numbered(kind).is_some()),
            Part::Models => after_word(kind, &[Role::Model]),
            Part::Items => after_word(kind, &[Role::Port, Role::Item]),
            Part::CoupledItems => after_word(kind, &[Role::Port, Role::CoupledItem]),
            Part::Statements => after_statement(kind),
            Part::Else => after_word(kind, &[Role::Else]),
            Part::Alternative => after_else(kind),
            Part::Names => after_comma(kind),
            Part::Bound => after_bound(kind),
            Part::Truth => after_word(kind, &[Role::Truth]),
            Part::Ticks => after_word(kind, &[Role::Forever]).or(after_expression(kind)),
            Part::Expression => after_expression(kind),
            Part::Operand => after_operand(kind),
            Part::Operators => after_operator(kind),
            Part::OperatorsOfCompared => after_operator_of_compared(kind),
            Part::LinkEnd => after_link_end(kind),
            Part::End => None,
        }
    }

    /// What replaces the part once a token of this kind and all that `after` answers for it are
    /// read.
    pub fn rest(&self, kind: &TokenKind) -> Option<Part> {
        match self {
            Part::Models | Part::Items | Part::CoupledItems | Part::Statements | Part::Names => {
                Some(*self)
            }
            Part::Ticks | Part::Expression => {
                if after_operand(kind).is_some() {
                    Some(Part::Operators)
                } else {
                    None
                }
            }
            Part::Sign(..)
            | Part::Word(..)
            | Part::Name
            | Part::Number
            | Part::Header
            | Part::Version
            | Part::Else
            | Part::Alternative
            | Part::Bound
            | Part::Truth
            | Part::Operand
            | Part::Operators
            | Part::OperatorsOfCompared
            | Part::LinkEnd
            | Part::End => None,
        }
    }
}

/// An empty list of parts, if `is_so`.
fn nothing_if(is_so: bool) -> Option<&'static [Part]> {
    if is_so { Some(&[]) } else { None }
}

/// What a reserved word begins.
#[derive(Clone, Copy, PartialEq, Eq)]
enum Role {
    /// A header.
    Header,
    /// A model.
    Model,
    /// The declaration of a port, in a model of either kind.
    Port,
    /// An item that only atomic models have.
    Item,
    /// An item that only coupled models have.
    CoupledItem,
    /// A statement.
    Statement,
    /// The second block of an `if`.
    Else,
    /// A truth value, alone or as an operand.
    Truth,
    /// The ticks of a hold without an end.
    Forever,
    /// A negated expression.
    Not,
    /// An operand other than a truth value.
    Operand,
    /// The second of two expressions that the word joins.
    Join,
    /// An end of a link at the model itself.
    Itself,
    /// Nothing by itself: it continues an item, a statement or a text.
    Inner,
    /// Nothing: no form of the language has the word.
    Unused,
}

/// What a reserved word begins, and what is expected after the word.
fn role_of(word: Keyword) -> (Role, &'static [Part]) {
    match word {
        Keyword::Version => (Role::Header, &[Part::Version, SEMICOLON]),
        Keyword::Atomic => (
            Role::Model,
            &[Part::Name, OPEN_BRACE, Part::Items, CLOSE_BRACE],
        ),
        Keyword::Coupled => {
            (
                Role::Model,
                &[Part::Name, OPEN_BRACE, Part::CoupledItems, CLOSE_BRACE],
            )
        }
        Keyword::In | Keyword::Out => (Role::Port, &[Part::Name, SEMICOLON]),
        Keyword::Start => (Role::Item, &[Part::Name, SEMICOLON]),
        Keyword::Var => (Role::Item, VARIABLE),
        Keyword::Flag => (Role::Item, &[Part::Name, EQUAL, Part::Truth, SEMICOLON]),
        Keyword::Bag | Keyword::Queue => (Role::Item, &[Part::Name, Part::Number, SEMICOLON]),
        Keyword::Phases => (Role::Item, &[Part::Name, Part::Names, SEMICOLON]),
        Keyword::Hold => (Role::Item, &[Part::Name, COLON, Part::Ticks, SEMICOLON]),
        Keyword::Output | Keyword::Internal | Keyword::External | Keyword::Confluent => {
            (
                Role::Item,
                &[Part::Name, OPEN_BRACE, Part::Statements, CLOSE_BRACE],
            )
        }
        Keyword::Part => (
            Role::CoupledItem,
            &[Part::Name, COLON, Part::Name, SEMICOLON],
        ),
        Keyword::Link => (
            Role::CoupledItem,
            &[Part::LinkEnd, ARROW, Part::LinkEnd, SEMICOLON],
        ),
        Keyword::Goto | Keyword::Pop => (Role::Statement, &[Part::Name, SEMICOLON]),
        Keyword::Send => (Role::Statement, &[Part::Name, Part::Expression, SEMICOLON]),
        Keyword::Add | Keyword::Push => {
            (
                Role::Statement,
                &[Part::Expression, TO, Part::Name, SEMICOLON],
            )
        }
        Keyword::Drop => (
            Role::Statement,
            &[Part::Expression, FROM, Part::Name, SEMICOLON],
        ),
        Keyword::If => (Role::Statement, CONDITIONAL),
        Keyword::For => (Role::Statement, LOOP),
        Keyword::Else => (Role::Else, &[Part::Alternative]),
        Keyword::True | Keyword::False => (Role::Truth, &[]),
        Keyword::Forever => (Role::Forever, &[]),
        Keyword::Not => (Role::Not, &[Part::Expression]),
        Keyword::Elapsed => (Role::Operand, &[]),
        Keyword::Size | Keyword::Sum | Keyword::Least | Keyword::Most | Keyword::Front => {
            (Role::Operand, &[OPEN_PAREN, Part::Name, CLOSE_PAREN])
        }
        Keyword::Times => {
            (
                Role::Operand,
                &[OPEN_PAREN, Part::Expression, COMMA, Part::Name, CLOSE_PAREN],
            )
        }
        Keyword::And | Keyword::Or => (Role::Join, &[Part::Expression]),
        Keyword::Itself => (Role::Itself, &[DOT, Part::Name]),
        Keyword::Root | Keyword::To | Keyword::From => (Role::Inner, &[]),
        Keyword::Const | Keyword::Each | Keyword::When => (Role::Unused, &[]),
    }
}

/// What is expected after `var`.
const VARIABLE: &[Part] = &[
    Part::Name,
    COLON,
    Part::Bound,
    RANGE,
    Part::Bound,
    EQUAL,
    Part::Bound,
    SEMICOLON,
];

/// What is expected after `if`.
const CONDITIONAL: &[Part] = &[
    Part::Expression,
    OPEN_BRACE,
    Part::Statements,
    CLOSE_BRACE,
    Part::Else,
];

/// What is expected after `for`.
const LOOP: &[Part] = &[
    Part::Name,
    IN,
    Part::Name,
    OPEN_BRACE,
    Part::Statements,
    CLOSE_BRACE,
];

/// What is expected after a token that is a reserved word with one of these roles.
fn after_word(kind: &TokenKind, roles: &[Role]) -> Option<&'static [Part]> {
    match kind {
        TokenKind::Keyword(word) => {
            let (role, parts) = role_of(*word);
            if roles.contains(&role) {
                Some(parts)
            } else {
                None
            }
        }
        TokenKind::Name(_) | TokenKind::Number(_) | TokenKind::Symbol(_) => None,
    }
}

/// A version of the language.
#[derive(Clone, Copy, PartialEq, Eq)]
pub enum Version {
    /// Version 1, and that of a text without a header.
    First,
    /// Version 2, which has queues.
    Second,
    /// Version 3, which has `else if` too.
    Third,
}

impl Version {
    /// The version in which a text of these tokens is written: the first one if its header names
    /// none.
    pub fn of(tokens: &[Token]) -> Version {
        match tokens {
            [first, second, ..] if first.kind == TokenKind::Keyword(Keyword::Version) => {
                version_numbered(&second.kind).unwrap_or(Version::First)
            }
            _ => Version::First,
        }
    }

    /// Whether the words of queues are reserved.
    pub fn knows_queues(self) -> bool {
        self != Version::First
    }
}

/// The version with the number that a token is.
fn version_numbered(kind: &TokenKind) -> Option<Version> {
    match kind {
        TokenKind::Number(number) => match number.value() {
            1 => Some(Version::First),
            2 => Some(Version::Second),
            3 => Some(Version::Third),
            _ => None,
        },
        TokenKind::Name(_) | TokenKind::Keyword(_) | TokenKind::Symbol(_) => None,
    }
}

fn after_statement(kind: &TokenKind) -> Option<&'static [Part]> {
    match kind {
        TokenKind::Name(_) => Some(&[ASSIGN, Part::Expression, SEMICOLON]),
        TokenKind::Keyword(_) => after_word(kind, &[Role::Statement]),
        TokenKind::Number(_) | TokenKind::Symbol(_) => None,
    }
}

fn after_else(kind: &TokenKind) -> Option<&'static [Part]> {
    match kind {
        TokenKind::Symbol(Symbol::OpenBrace) => Some(&[Part::Statements, CLOSE_BRACE]),
        TokenKind::Keyword(Keyword::If) => Some(CONDITIONAL),
        _ => None,
    }
}

fn after_comma(kind: &TokenKind) -> Option<&'static [Part]> {
    if *kind == TokenKind::Symbol(Symbol::Comma) {
        Some(&[Part::Name])
    } else {
        None
    }
}

fn after_bound(kind: &TokenKind) -> Option<&'static [Part]> {
    match kind {
        TokenKind::Number(_) => Some(&[]),
        TokenKind::Symbol(Symbol::Minus) => Some(&[Part::Number]),
        TokenKind::Symbol(_) | TokenKind::Name(_) | TokenKind::Keyword(_) => None,
    }
}

fn after_expression(kind: &TokenKind) -> Option<&'static [Part]> {
    after_word(kind, &[Role::Not]).or(after_operand(kind))
}

fn after_operand(kind: &TokenKind) -> Option<&'static [Part]> {
    match kind {
        TokenKind::Name(_) | TokenKind::Number(_) => Some(&[]),
        TokenKind::Keyword(_) => after_word(kind, &[Role::Truth, Role::Operand]),
        TokenKind::Symbol(symbol) => match use_of(*symbol) {
            SignUse::OpenParen => Some(&[Part::Expression, CLOSE_PAREN]),
            SignUse::Minus => Some(&[Part::Operand]),
            SignUse::Arithmetic | SignUse::Comparison | SignUse::Other => None,
        },
    }
}

fn after_operator(kind: &TokenKind) -> Option<&'static [Part]> {
    match kind {
        TokenKind::Symbol(symbol) => match use_of(*symbol) {
            SignUse::Minus | SignUse::Arithmetic => Some(&[Part::Operand, Part::Operators]),
            SignUse::Comparison => Some(&[Part::Operand, Part::OperatorsOfCompared]),
            SignUse::OpenParen | SignUse::Other => None,
        },
        TokenKind::Keyword(_) => after_word(kind, &[Role::Join]),
        TokenKind::Name(_) | TokenKind::Number(_) => None,
    }
}

fn after_operator_of_compared(kind: &TokenKind) -> Option<&'static [Part]> {
    match kind {
        TokenKind::Symbol(symbol) => match use_of(*symbol) {
            SignUse::Minus | SignUse::Arithmetic => {
                Some(&[Part::Operand, Part::OperatorsOfCompared])
            }
            SignUse::Comparison | SignUse::OpenParen | SignUse::Other => None,
        },
        TokenKind::Keyword(_) => after_word(kind, &[Role::Join]),
        TokenKind::Name(_) | TokenKind::Number(_) => None,
    }
}

fn after_link_end(kind: &TokenKind) -> Option<&'static [Part]> {
    match kind {
        TokenKind::Name(_) => Some(&[DOT, Part::Name]),
        TokenKind::Keyword(_) => after_word(kind, &[Role::Itself]),
        TokenKind::Number(_) | TokenKind::Symbol(_) => None,
    }
}

/// What a sign does in an expression.
#[derive(Clone, Copy)]
enum SignUse {
    /// It opens parentheses.
    OpenParen,
    /// It negates an operand, or subtracts.
    Minus,
    /// It computes a number of two operands.
    Arithmetic,
    /// It compares two operands.
    Comparison,
    /// It neither begins an operand nor stands between two.
    Other,
}

fn use_of(symbol: Symbol) -> SignUse {
    match symbol {
        Symbol::OpenParen => SignUse::OpenParen,
        Symbol::Minus => SignUse::Minus,
        Symbol::Plus | Symbol::Star | Symbol::Slash | Symbol::Percent => SignUse::Arithmetic,
        Symbol::Equal
        | Symbol::Unequal
        | Symbol::Less
        | Symbol::AtMost
        | Symbol::Greater
        | Symbol::AtLeast => SignUse::Comparison,
        Symbol::Assign
        | Symbol::Arrow
        | Symbol::Range
        | Symbol::OpenBrace
        | Symbol::CloseBrace
        | Symbol::CloseParen
        | Symbol::Semicolon
        | Symbol::Colon
        | Symbol::Comma
        | Symbol::Dot => SignUse::Other,
    }
}

/// Whether a sign compares two values.
pub fn is_comparison(symbol: Symbol) -> bool {
    matches!(use_of(symbol), SignUse::Comparison)
}

/// A part, displayed in words for the author of a text.
#[derive(Clone, Copy)]
pub struct Called<'a> {
    /// The part.
    pub part: &'a Part,
    /// The version of the text.
    pub version: Version,
}

impl fmt::Display for Called<'_> {
    fn fmt<W: fmt::Write>(&self, f: &mut fmt::Formatter<W>) -> fmt::Result {
        match self.part {
            Part::Sign(_, text) | Part::Word(_, text) => write!(f, "`{text}`"),
            Part::Items if self.version.knows_queues() => f.write_str(ITEMS_WITH_QUEUES),
            Part::Statements if self.version.knows_queues() => f.write_str(STATEMENTS_WITH_QUEUES),
            Part::Alternative if self.version == Version::Third => f.write_str("`{` or `if`"),
            part => f.write_str(words_of(part)),
        }
    }
}

/// The words for `Part::Items` if the words of queues are reserved.
const ITEMS_WITH_QUEUES: &str =
    "an item of an atomic model (`in`, `out`, `var`, `flag`, `bag`, `queue`, `phases`, `start`, `hold`, `output`, `internal`, `external`, `confluent`)";

/// The words for `Part::Statements` if the words of queues are reserved.
const STATEMENTS_WITH_QUEUES: &str =
    "a statement (`NAME :=`, `goto`, `send`, `if`, `for`, `add`, `drop`, `push`, `pop`)";

/// The words for a part that is not one sign or word, in version 1.
fn words_of(part: &Part) -> &'static str {
    match part {
        Part::Sign(..) | Part::Word(..) => "",
        Part::Name => "a name",
        Part::Number | Part::Bound => "a number",
        Part::Header => "a header (`version 1;`, `version 2;`, `version 3;`)",
        Part::Version => "the number 1, 2 or 3",
        Part::Models => "a model (`atomic`, `coupled`)",
        Part::Items => {
            "an item of an atomic model (`in`, `out`, `var`, `flag`, `bag`, `phases`, `start`, `hold`, `output`, `internal`, `external`, `confluent`)"
        }
        Part::CoupledItems => "an item of a coupled model (`in`, `out`, `part`, `link`)",
        Part::Statements => {
            "a statement (`NAME :=`, `goto`, `send`, `if`, `for`, `add`, `drop`)"
        }
        Part::Else => "`else`",
        Part::Alternative => "`{`",
        Part::Names => "`,`",
        Part::Truth => "`true` or `false`",
        Part::Ticks => "`forever` or an expression",
        Part::Expression => "an expression",
        Part::Operand => "an operand (a number, a name, a call, `-`, `(`)",
        Part::Operators => "an operator",
        Part::OperatorsOfCompared => "an arithmetic operator, `and`, `or`",
        Part::LinkEnd => "`self` or the name of a part",
        Part::End => "the end of the text",
    }
}
