//! Single tokens.

ghost use Rattle.std.specs.Prelude.{◌≡◌, true, false, IfErr, OnOk};
ghost use Rattle.dv_syntax.specs.Grammar.{call_word};
ghost use Rattle.dv_parser.specs.Reading.{Reads, obstacle_of, obstacle_at, same_kind, begins, begins_name, begins_truth};
ghost use Rattle.dv_parser.specs.Reading.{begins_word_of, begins_call, after, offset_at, name_at, truth_at, number_at, word_of_at};
ghost use Rattle.dv_parser.specs.Reading.{call_word_at, is_end};

use crate::parse_error::Obstacle;
use dv_lex::{Keyword, Numeral, Symbol, Token, TokenKind};
use dv_syntax::{BagCall, Name, Number};

fn is_same(first: TokenKind, second: TokenKind) -> bool
    ensures { result ≡ same_kind first second }
{
    first == second
}

/// Whether the first token is of this kind.
pub fn begins_with(tokens: &[Token], kind: TokenKind) -> bool
    ensures { result ≡ begins kind tokens.now }
{
    match tokens {
        [first, ..] => is_same(first.kind, kind),
        [] => false,
    }
}

/// Whether the first token is this symbol.
pub fn begins_with_symbol(tokens: &[Token], symbol: Symbol) -> bool
    ensures { result ≡ begins (TokenKind.Symbol symbol) tokens.now }
{
    begins_with(tokens, TokenKind::Symbol(symbol))
}

/// Whether the first token is this keyword.
pub fn begins_with_keyword(tokens: &[Token], keyword: Keyword) -> bool
    ensures { result ≡ begins (TokenKind.Keyword keyword) tokens.now }
{
    begins_with(tokens, TokenKind::Keyword(keyword))
}

/// The kind of a small number.
fn small(number: u32) -> TokenKind
    ensures { result ≡ TokenKind.Number number }
{
    match Numeral::new(u64::from(number)) {
        Some(value) => TokenKind::Number(value),
        None => unreachable!(),
    }
}

/// Whether the first token is this number.
pub fn begins_with_number(tokens: &[Token], number: u32) -> bool
    ensures { result ≡ begins (TokenKind.Number number) tokens.now }
{
    begins_with(tokens, small(number))
}

/// Whether the first token is a name.
pub fn begins_with_name(tokens: &[Token]) -> bool
    ensures { result ≡ begins_name tokens.now }
{
    matches!(
        tokens,
        [
            Token {
                kind: TokenKind::Name(_),
                ..
            },
            ..
        ]
    )
}

/// Whether the first token is `true` or `false`.
pub fn begins_with_truth(tokens: &[Token]) -> bool
    ensures { result ≡ begins_truth tokens.now }
{
    begins_with_keyword(tokens, Keyword::True) || begins_with_keyword(tokens, Keyword::False)
}

/// The keyword of a call.
fn word_of_call(call: BagCall) -> Keyword
    ensures { result ≡ call_word call }
{
    match call {
        BagCall::Size => Keyword::Size,
        BagCall::Sum => Keyword::Sum,
        BagCall::Least => Keyword::Least,
        BagCall::Most => Keyword::Most,
        BagCall::Front => Keyword::Front,
    }
}

/// Whether the first token is the word of this call.
fn begins_with_word_of(tokens: &[Token], call: BagCall) -> bool
    ensures { result ≡ begins_word_of call tokens.now }
{
    begins_with_keyword(tokens, word_of_call(call))
}

/// Whether the first token is `size`, `sum`, `least`, `most` or `front`.
pub fn begins_with_call(tokens: &[Token]) -> bool
    ensures { result ≡ begins_call tokens.now }
{
    begins_with_word_of(tokens, BagCall::Size)
        || begins_with_word_of(tokens, BagCall::Sum)
        || begins_with_word_of(tokens, BagCall::Least)
        || begins_with_word_of(tokens, BagCall::Most)
        || begins_with_word_of(tokens, BagCall::Front)
}

/// The offset of the first token.
#[tactic(auto, unfolding(crate::specs::Reading::offset_at))]
pub fn first_offset(tokens: &[Token]) -> u32
    ensures { result ≡ offset_at tokens.now }
{
    match tokens {
        [first, ..] => first.offset,
        [] => 0,
    }
}

/// The obstacle that the first token is.
#[tactic(auto, unfolding(crate::specs::Reading::obstacle_at))]
pub fn unexpected(tokens: &[Token]) -> Obstacle
    ensures { obstacle_of result ≡ obstacle_at tokens.now }
{
    match tokens {
        [first, ..] => Obstacle::Unexpected(first.offset),
        [] => Obstacle::TooShort,
    }
}

/// Tests that there are no more tokens.
///
/// # Errors
///
/// The first token as an obstacle, if there is one.
pub fn test_end(tokens: &[Token]) -> Result<(), Obstacle>
    ensures end { OnOk result (is_end tokens.now ≡ true) }
    ensures more { IfErr result (λ o. (obstacle_of o ≡ obstacle_at tokens.now)
        × (is_end tokens.now ≡ false)) }
{
    if tokens.is_empty() {
        Ok(())
    } else {
        Err(unexpected(tokens))
    }
}

/// The tokens after one of this kind.
#[tactic(auto, unfolding(crate::specs::Reading::after, crate::specs::Reading::obstacle_at, crate::specs::Reading::choose))]
pub fn after_kind(tokens: &[Token], kind: TokenKind) -> Result<&[Token], Obstacle>
    ensures { Reads (λ rest. rest.now) result (after kind tokens.now) }
{
    if !begins_with(tokens, kind) {
        return Err(unexpected(tokens));
    }
    Ok(&tokens[1..])
}

/// The tokens after this number.
pub fn after_number(tokens: &[Token], number: u32) -> Result<&[Token], Obstacle>
    ensures { Reads (λ rest. rest.now) result (after (TokenKind.Number number) tokens.now) }
{
    after_kind(tokens, small(number))
}

/// The tokens after this symbol.
pub fn after_symbol(tokens: &[Token], symbol: Symbol) -> Result<&[Token], Obstacle>
    ensures { Reads (λ rest. rest.now) result (after (TokenKind.Symbol symbol) tokens.now) }
{
    after_kind(tokens, TokenKind::Symbol(symbol))
}

/// The tokens after this keyword.
pub fn after_keyword(tokens: &[Token], keyword: Keyword) -> Result<&[Token], Obstacle>
    ensures { Reads (λ rest. rest.now) result (after (TokenKind.Keyword keyword) tokens.now) }
{
    after_kind(tokens, TokenKind::Keyword(keyword))
}

/// The name at the front, and the rest.
#[tactic(auto, unfolding(crate::specs::Reading::name_at, crate::specs::Reading::obstacle_at))]
pub fn name(tokens: &[Token]) -> Result<(Name, &[Token]), Obstacle>
    ensures { Reads (λ x. (x.0, x.1.now)) result (name_at tokens.now) }
{
    match tokens {
        [
            Token {
                kind: TokenKind::Name(number),
                offset,
            },
            rest @ ..,
        ] => Ok((
            Name {
                number: *number,
                offset: *offset,
            },
            rest,
        )),
        _ => Err(unexpected(tokens)),
    }
}

/// The number at the front, and the rest.
#[tactic(auto, unfolding(crate::specs::Reading::number_at, crate::specs::Reading::obstacle_at))]
pub fn number(tokens: &[Token]) -> Result<(Number, &[Token]), Obstacle>
    ensures { Reads (λ x. (x.0, x.1.now)) result (number_at tokens.now) }
{
    match tokens {
        [
            Token {
                kind: TokenKind::Number(value),
                offset,
            },
            rest @ ..,
        ] => Ok((
            Number {
                value: *value,
                offset: *offset,
            },
            rest,
        )),
        _ => Err(unexpected(tokens)),
    }
}

/// The truth value at the front, and the rest.
#[tactic(auto, unfolding(crate::specs::Reading::truth_at, crate::specs::Reading::read_then, crate::specs::Reading::choose))]
pub fn truth(tokens: &[Token]) -> Result<(bool, &[Token]), Obstacle>
    ensures { Reads (λ x. (x.0, x.1.now)) result (truth_at tokens.now) }
{
    if begins_with_keyword(tokens, Keyword::True) {
        let rest = after_keyword(tokens, Keyword::True)?;
        Ok((true, rest))
    } else {
        let rest = after_keyword(tokens, Keyword::False)?;
        Ok((false, rest))
    }
}

/// This call, if its word is at the front, and the rest.
#[tactic(auto, unfolding(crate::specs::Reading::word_of_at, crate::specs::Reading::read_then))]
fn word_of(tokens: &[Token], call: BagCall) -> Result<(BagCall, &[Token]), Obstacle>
    ensures { Reads (λ x. (x.0, x.1.now)) result (word_of_at call tokens.now) }
{
    let rest = after_keyword(tokens, word_of_call(call))?;
    Ok((call, rest))
}

/// The call whose word is at the front, and the rest.
#[tactic(auto, unfolding(crate::specs::Reading::call_word_at, crate::specs::Reading::choose))]
pub fn call_word(tokens: &[Token]) -> Result<(BagCall, &[Token]), Obstacle>
    ensures { Reads (λ x. (x.0, x.1.now)) result (call_word_at tokens.now) }
{
    if begins_with_word_of(tokens, BagCall::Size) {
        word_of(tokens, BagCall::Size)
    } else if begins_with_word_of(tokens, BagCall::Sum) {
        word_of(tokens, BagCall::Sum)
    } else if begins_with_word_of(tokens, BagCall::Least) {
        word_of(tokens, BagCall::Least)
    } else if begins_with_word_of(tokens, BagCall::Most) {
        word_of(tokens, BagCall::Most)
    } else {
        word_of(tokens, BagCall::Front)
    }
}
