//! A token that the grammar does not allow where it is: what may be there instead, and what is
//! probably meant.

use crate::cause::Cause;
use crate::expectations::{Expectations, expectations_at};
use crate::foreign::{foreign_at, name_at, sentence_on_unused, symbol_at};
use crate::grammar::{ASSIGN, COLON, DOT, EQUAL, OPEN_BRACE, Part, SEMICOLON, is_comparison};
use crate::met::met_at;
use crate::quoted::Quoted;
use crate::slips::{begins_line, slip_at};
use dv_lex::{Keyword, Symbol, Token, TokenKind, Tokens, tokens};
use std::alloc::{AllocError, Global};

/// The cause of E4 at an offset, in bytes: what may be there and what was met; and what is probably
/// meant, if that is known. Both texts are empty if the text can't be cut into tokens.
///
/// # Errors
///
/// No memory for the tokens or the words.
pub fn unexpected_at(alloc: Global, text: &[u8], offset: usize) -> Result<Cause, AllocError> {
    match tokens(alloc, text) {
        Ok(read) => cause_at(alloc, text, offset, &read),
        Err(_) => Cause::of(alloc, "", ""),
    }
}

/// The cause at the first token that is not before an offset.
fn cause_at(alloc: Global, text: &[u8], offset: usize, read: &Tokens) -> Result<Cause, AllocError> {
    let expected = expectations_at(alloc, &read.tokens, offset)?;
    let number = tokens_before(&read.tokens, offset);
    Ok(Cause {
        summary: summary_at(alloc, text, read, number, &expected)?,
        sentences: meant_at(alloc, text, offset, read, number, &expected)?,
    })
}

/// How many tokens begin before an offset.
fn tokens_before(tokens: &[Token], offset: usize) -> usize {
    tokens
        .iter()
        .take_while(|token| (token.offset as usize) < offset)
        .count()
}

/// What may be in the place of the token at index `number`, and what was met.
fn summary_at(
    alloc: Global,
    text: &[u8],
    read: &Tokens,
    number: usize,
    expected: &Expectations,
) -> Result<String, AllocError> {
    let text = str::from_utf8(text).unwrap_or("");
    let met = met_at(text, &read.names, read.tokens.get(number));
    format!(in alloc; "expected {expected}, but met {met}")
}

/// A sentence with a line feed on what is probably meant by the token at index `number`, or an
/// empty text.
fn meant_at(
    alloc: Global,
    text: &[u8],
    offset: usize,
    read: &Tokens,
    number: usize,
    expected: &Expectations,
) -> Result<String, AllocError> {
    let slip = slip_at(text, offset);
    if !slip.is_empty() {
        String::from_str(alloc, slip)
    } else if lacks_version(expected, read, number) {
        String::from_str(alloc, WITHOUT_QUEUES)
    } else if expected.have(SEMICOLON) && begins_line(text, offset) {
        String::from_str(alloc, "The line before may lack its `;`.\n")
    } else if expected.have(DOT) {
        end_of_link(alloc, name_at(read, number.saturating_sub(1)))
    } else {
        String::from_str(alloc, hint_at(read, number, expected))
    }
}

/// A sentence on an end of a link that has no dot after its first name.
fn end_of_link(alloc: Global, name: &str) -> Result<String, AllocError> {
    if name.is_empty() {
        String::from_str(alloc, "An end of a link is `PART.PORT` or `self.PORT`.\n")
    } else {
        format!(in alloc;
            "An end of a link is `PART.PORT`, as `{name}.x` for a port of the part {}; the port {} of the model itself is written `self.{name}`.\n",
            Quoted(name),
            Quoted(name)
        )
    }
}

/// On a word of queues in a text where it is not reserved.
const WITHOUT_QUEUES: &str =
    "Queues need a text that begins with `version 2;` or `version 3;`: in others `queue`, `push`, `pop` and `front` are names.\n";

/// Whether the token at index `number`, or the one before it, is a name that is probably meant as a
/// word of queues.
fn lacks_version(expected: &Expectations, read: &Tokens, number: usize) -> bool {
    let before = name_at(read, number.saturating_sub(1));
    if expected.have(Part::Items) {
        name_at(read, number) == "queue"
    } else if expected.have(ASSIGN) {
        before == "push" || before == "pop"
    } else {
        symbol_at(read, number) == Some(Symbol::OpenParen) && before == "front"
    }
}

/// A sentence with a line feed on what is probably meant by the token at index `number`, or an
/// empty text.
fn hint_at(read: &Tokens, number: usize, expected: &Expectations) -> &'static str {
    let earlier = hint_after(read, number, expected);
    if !earlier.is_empty() {
        return earlier;
    }
    let foreign = foreign_at(read, number, expected);
    if !foreign.is_empty() {
        return foreign;
    }
    let is_assigned = symbol_at(read, number.saturating_add(1)) == Some(Symbol::Assign);
    match read.tokens.get(number) {
        Some(token) => hint_on(expected, token.kind, is_assigned),
        None => hint_on_end(expected),
    }
}

/// A sentence on the statement that the tokens before the one at index `number` begin, or an empty
/// text.
fn hint_after(read: &Tokens, number: usize, expected: &Expectations) -> &'static str {
    let before = keyword_at(read, number.checked_sub(1));
    let earlier = keyword_at(read, number.checked_sub(2));
    let is_value = expected.have(Part::Expression) || expected.have(Part::Operators);
    if before == Some(Keyword::Send) || (earlier == Some(Keyword::Send) && is_value) {
        "The port comes first, and then the value: `send y 1;`.\n"
    } else if earlier == Some(Keyword::Goto) && expected.have(SEMICOLON) {
        "`goto` names a phase alone; how long it lasts is declared by `hold z: 5;`.\n"
    } else if begins_rule(earlier) && symbol_at(read, number) == Some(Symbol::OpenParen) {
        "A rule has no parameters: what has arrived is read by `sum(x)`, or by `for v in x { .. }`.\n"
    } else if symbol_at(read, number) == Some(Symbol::Comma) {
        hint_on_arguments(keyword_at(read, number.checked_sub(3)))
    } else if before == Some(Keyword::Else) {
        hint_after_else(keyword_at(read, Some(number)))
    } else if wants_number(expected) && is_name_behind_value(read, number) {
        NAMED_NUMBER
    } else if number == 0 && symbol_at(read, 1) == Some(Symbol::Dot) {
        "This looks like a trace: a model begins with `atomic`, `coupled` or `version`.\n"
    } else {
        ""
    }
}

/// A sentence on what follows `else` in the place of a block.
fn hint_after_else(word: Option<Keyword>) -> &'static str {
    match word {
        Some(Keyword::If) => {
            "`else if` needs a text that begins with `version 3;`: in others write `else { if .. { .. } }`.\n"
        }
        _ => BRACES,
    }
}

/// A sentence on values and a collection in parentheses behind a word that changes one.
fn hint_on_arguments(word: Option<Keyword>) -> &'static str {
    match word {
        Some(Keyword::Push) => "The value comes first, and then the queue: `push 1 to q;`.\n",
        Some(Keyword::Add) => "The value comes first, and then the bag: `add 1 to b;`.\n",
        Some(Keyword::Drop) => "The value comes first, and then the bag: `drop 1 from b;`.\n",
        _ => "",
    }
}

/// On a name where a number is expected.
const NAMED_NUMBER: &str =
    "A number is wanted here, and not a name: there are no constants, so write the number itself.\n";

/// Whether the token at index `number` is a name that no colon precedes, where other languages have
/// a type.
fn is_name_behind_value(read: &Tokens, number: usize) -> bool {
    let is_type = symbol_at(read, number.saturating_sub(1)) == Some(Symbol::Colon);
    !name_at(read, number).is_empty() && !is_type
}

/// Whether a number is expected that has to be written out.
fn wants_number(expected: &Expectations) -> bool {
    expected.have(Part::Number) || expected.have(Part::Bound)
}

/// Whether a word begins a rule.
fn begins_rule(word: Option<Keyword>) -> bool {
    matches!(
        word,
        Some(Keyword::Output | Keyword::Internal | Keyword::External | Keyword::Confluent)
    )
}

/// On a statement without the braces around it.
const BRACES: &str = "Statements stand in braces, as `{ n := 1; }`.\n";

/// The reserved word that the token at an index is, if it is one.
fn keyword_at(read: &Tokens, number: Option<usize>) -> Option<Keyword> {
    match read.tokens.get(number?)?.kind {
        TokenKind::Keyword(word) => Some(word),
        TokenKind::Name(_) | TokenKind::Number(_) | TokenKind::Symbol(_) => None,
    }
}

/// A sentence on what may be missing at the end of a text.
fn hint_on_end(expected: &Expectations) -> &'static str {
    if expected.have(Part::Models) {
        "After the models comes `root` with the name of a coupled model.\n"
    } else if expected.have(Part::Items)
        || expected.have(Part::CoupledItems)
        || expected.have(Part::Statements)
    {
        "A `}` is missing.\n"
    } else {
        ""
    }
}

/// A sentence on a token that is not expected. `is_assigned` says whether `:=` follows it.
fn hint_on(expected: &Expectations, kind: TokenKind, is_assigned: bool) -> &'static str {
    match kind {
        TokenKind::Keyword(word) => hint_on_word(expected, word, is_assigned),
        TokenKind::Symbol(symbol) => hint_on_sign(expected, symbol),
        TokenKind::Name(_) if expected.have(Part::Items) && is_assigned => OUTSIDE,
        TokenKind::Name(_) if expected.have(OPEN_BRACE) && is_assigned => BRACES,
        TokenKind::Name(_) if wants_number(expected) => NAMED_NUMBER,
        TokenKind::Name(_) | TokenKind::Number(_) => "",
    }
}

/// On a statement among items.
const OUTSIDE: &str =
    "A statement belongs in a rule, such as `internal PHASE { .. }`; there may be a `}` too many before it.\n";

/// On a reserved word where a name is expected.
const RESERVED: &str = "It is a reserved word, and can't be a name.\n";

fn hint_on_word(expected: &Expectations, word: Keyword, is_assigned: bool) -> &'static str {
    if expected.have(Part::Operand) && word == Keyword::Not {
        "Put `not` and its operand in parentheses.\n"
    } else if expects_value(expected) && word == Keyword::If {
        "`if` is a statement and has no value: assign in each of its blocks, as `if n > 3 { m := 1; } else { m := 2; }`.\n"
    } else if expects_value(expected) && word == Keyword::Pop {
        "`pop q;` is a statement and has no value: read it before, as `n := front(q); pop q;`.\n"
    } else if expects_name(expected) || is_assigned {
        RESERVED
    } else if expected.have(Part::End) {
        hint_after_root(word)
    } else if begins_model(word) && expects_brace(expected) {
        "A `}` may be missing before it.\n"
    } else if begins_statement(word) && expected.have(Part::Items) {
        OUTSIDE
    } else if begins_item(word) {
        hint_on_item(expected)
    } else {
        sentence_on_unused(word)
    }
}

/// A sentence on a word that begins an item, where it is not expected.
fn hint_on_item(expected: &Expectations) -> &'static str {
    if expected.have(Part::Statements) {
        "An item begins here: a `}` may be missing before it.\n"
    } else if expected.have(Part::Models) {
        "An item belongs in a model: there may be a `}` too many before it.\n"
    } else if expected.have(Part::Items) {
        "This item belongs in a coupled model.\n"
    } else if expected.have(Part::CoupledItems) {
        "This item belongs in an atomic model.\n"
    } else {
        ""
    }
}

fn hint_after_root(word: Keyword) -> &'static str {
    match word {
        Keyword::Root => "A text has one root.\n",
        Keyword::Atomic | Keyword::Coupled => "Models come before `root`.\n",
        _ => "",
    }
}

fn hint_on_sign(expected: &Expectations, symbol: Symbol) -> &'static str {
    if expected.have(Part::OperatorsOfCompared) && is_comparison(symbol) {
        "The result of a comparison can't be compared: join two comparisons with `and`.\n"
    } else if expected.have(Part::Models) && symbol == Symbol::CloseBrace {
        "There may be a `}` too many.\n"
    } else if symbol == Symbol::Assign {
        "`:=` assigns in a statement; conditions and start values are written with `=`.\n"
    } else if symbol == Symbol::Star && expected.have(Part::Name) {
        "`*` is not a wildcard: write a rule for each phase, and a link for each port.\n"
    } else if is_arithmetic(symbol) && expected.have(EQUAL) {
        "A bound is a number, with or without `-`: work it out.\n"
    } else if symbol == Symbol::Dot && expected.have(Part::Operators) {
        "There are no fields and no methods: the number of values in a bag is `size(b)`.\n"
    } else if symbol == Symbol::Comma && !expected.have(Part::Operators) {
        hint_on_comma(expected)
    } else if symbol == Symbol::Semicolon && expected.have(ASSIGN) {
        "The next phase is chosen by `goto z;`.\n"
    } else if symbol == Symbol::Semicolon && expects_brace(expected) {
        "There is no `;` after `}` or after another `;`.\n"
    } else {
        ""
    }
}

fn is_arithmetic(symbol: Symbol) -> bool {
    matches!(
        symbol,
        Symbol::Plus | Symbol::Minus | Symbol::Star | Symbol::Slash | Symbol::Percent
    )
}

fn hint_on_comma(expected: &Expectations) -> &'static str {
    if expected.have(SEMICOLON) || expected.have(COLON) || expected.have(EQUAL) {
        "Each name needs an item of its own, as `in x; in z;`.\n"
    } else if expected.have(OPEN_BRACE) {
        "A rule is for one phase: write one for each.\n"
    } else {
        ""
    }
}

/// Whether a name is expected, alone or in an expression.
fn expects_name(expected: &Expectations) -> bool {
    expected.have(Part::Name) || expected.have(Part::LinkEnd) || expects_value(expected)
}

/// Whether an expression is expected, or the rest of one.
fn expects_value(expected: &Expectations) -> bool {
    expected.have(Part::Expression) || expected.have(Part::Ticks) || expected.have(Part::Operand)
}

/// Whether a brace is expected that closes a model or a block.
fn expects_brace(expected: &Expectations) -> bool {
    expected.have(Part::Items)
        || expected.have(Part::CoupledItems)
        || expected.have(Part::Statements)
}

fn begins_model(word: Keyword) -> bool {
    matches!(word, Keyword::Atomic | Keyword::Coupled | Keyword::Root)
}

fn begins_item(word: Keyword) -> bool {
    let kind = TokenKind::Keyword(word);
    Part::Items.after(&kind).is_some() || Part::CoupledItems.after(&kind).is_some()
}

fn begins_statement(word: Keyword) -> bool {
    Part::Statements.after(&TokenKind::Keyword(word)).is_some()
}
