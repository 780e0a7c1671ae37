//! Expressions.

ghost use Rattle.std.specs.Prelude.{◌≡◌, ◌+◌, ◌-◌, ◌<◌, ◌≤◌, IfOk, List, MatchOption, MatchResult, None, Some, Ok};
ghost use Rattle.dv_syntax.specs.Trees.{expression_of, Expression, Parens, Binary, Times};
ghost use Rattle.dv_syntax.specs.Grammar.{prefix_kind, prefix_rank, operator_rank, left_rank, rank, depth};
ghost use Rattle.dv_parser.specs.Reading.{Gives, Reads, operator_of, keyword_operator, symbol_operator, goes_on, operator_at, offset_at};
ghost use Rattle.dv_parser.specs.Reading.{call_at, elapsed_at, leaf_at, parens_at, prefixed_at, times_at, begins_prefix};
ghost use Rattle.dv_parser.specs.Reading.{primary_at, expression_at, after, name_at, within, read_then};
ghost use Rattle.dv_parser.specs.declared.parse_error.ParseError.TheVariants.{Memory};

use crate::limits::test_depth;
use crate::parse_error::{Obstacle, ParseError};
use crate::token::{
    after_keyword, after_kind, after_symbol, begins_with, begins_with_call, begins_with_keyword,
    begins_with_name, begins_with_symbol, begins_with_truth, call_word, first_offset, name, number,
    truth,
};
use dv_lex::{Keyword, Symbol, Token, TokenKind};
use dv_syntax::{Expr, Operator, Prefix};
use std::alloc::Global;

/// The greatest depth of an expression.
const DEPTH_LIMIT: u32 = 64;

/// The rank of an expression without an operator at its top.
const SINGLE: u32 = 8;

/// The binary operator of a token.
#[tactic(auto, unfolding(crate::specs::Reading::operator_of))]
fn operator(kind: TokenKind) -> Option<Operator>
    ensures { result ≡ operator_of kind }
{
    match kind {
        TokenKind::Keyword(word) => operator_of_word(word),
        TokenKind::Symbol(symbol) => operator_of_symbol(symbol),
        TokenKind::Name(_) | TokenKind::Number(_) => None,
    }
}

fn operator_of_word(word: Keyword) -> Option<Operator>
    ensures { result ≡ keyword_operator word }
{
    match word {
        Keyword::Or => Some(Operator::Or),
        Keyword::And => Some(Operator::And),
        _ => None,
    }
}

fn operator_of_symbol(symbol: Symbol) -> Option<Operator>
    ensures { result ≡ symbol_operator symbol }
{
    match symbol {
        Symbol::Plus => Some(Operator::Add),
        Symbol::Minus => Some(Operator::Subtract),
        Symbol::Star => Some(Operator::Multiply),
        Symbol::Slash => Some(Operator::Divide),
        Symbol::Percent => Some(Operator::Remainder),
        Symbol::Equal => Some(Operator::Equal),
        Symbol::Unequal => Some(Operator::Unequal),
        Symbol::Less => Some(Operator::Less),
        Symbol::AtMost => Some(Operator::AtMost),
        Symbol::Greater => Some(Operator::Greater),
        Symbol::AtLeast => Some(Operator::AtLeast),
        _ => None,
    }
}

/// The rank of an operator: the greater one binds more tightly.
fn rank_of_operator(operator: Operator) -> u32
    ensures value { result ≡ operator_rank operator }
    ensures small { result ≤ 6 }
{
    match operator {
        Operator::Or => 1,
        Operator::And => 2,
        Operator::Add | Operator::Subtract => 5,
        Operator::Multiply | Operator::Divide | Operator::Remainder => 6,
        Operator::Equal
        | Operator::Unequal
        | Operator::Less
        | Operator::AtMost
        | Operator::Greater
        | Operator::AtLeast => 4,
    }
}

/// The least rank that the left operand of an operator may have. A comparison may not be an operand
/// of another.
fn least_left_rank(operator: Operator) -> u32
    ensures { result ≡ left_rank operator }
{
    let rank = rank_of_operator(operator);
    if operator.class().is_comparison() {
        rank + 1
    } else {
        rank
    }
}

/// The token of a prefix operator.
fn kind_of_prefix(operator: Prefix) -> TokenKind
    ensures { result ≡ prefix_kind operator }
{
    match operator {
        Prefix::Minus => TokenKind::Symbol(Symbol::Minus),
        Prefix::Not => TokenKind::Keyword(Keyword::Not),
    }
}

/// The rank of a prefix operator.
fn rank_of_prefix(operator: Prefix) -> u32
    ensures value { result ≡ prefix_rank operator }
    ensures small { result ≤ 7 }
{
    match operator {
        Prefix::Minus => 7,
        Prefix::Not => 3,
    }
}

/// The rank of an expression: that of the operator at its top.
fn rank_of(expression: &Expr) -> u32
    ensures { result ≡ rank (expression_of expression.now) }
{
    match expression {
        Expr::Binary { operator, .. } => rank_of_operator(*operator),
        Expr::Prefixed { operator, .. } => rank_of_prefix(*operator),
        Expr::Literal(_)
        | Expr::TruthValue { .. }
        | Expr::Named(_)
        | Expr::Parens { .. }
        | Expr::Call { .. }
        | Expr::Elapsed { .. }
        | Expr::Times { .. } => SINGLE,
    }
}

/// The operator at the front that continues an expression at this level, its offset, and the rest.
#[tactic(auto, unfolding(crate::specs::Reading::operator_at, crate::specs::Reading::offset_at, crate::specs::Reading::goes_on, crate::specs::Reading::maybe, crate::specs::Reading::choose))]
fn next_operator<'a>(
    tokens: &'a [Token],
    level: u32,
    left: &Expr,
) -> Option<(Operator, u32, &'a [Token])>
    ensures { MatchOption result
        (operator_at level (expression_of left.now) tokens.now ≡ None)
        (λ x. (operator_at level (expression_of left.now) tokens.now ≡ Some (x.0, x.2.now))
        × (x.1 ≡ offset_at tokens.now)) }
{
    let [Token { kind, offset }, rest @ ..] = tokens else {
        return None;
    };
    let operator = operator(*kind)?;
    if level <= rank_of_operator(operator) && least_left_rank(operator) <= rank_of(left) {
        Some((operator, *offset, rest))
    } else {
        None
    }
}

/// A call that asks a collection, and the rest.
#[tactic(auto, unfolding(crate::specs::Reading::call_at, crate::specs::Reading::read_then))]
fn call(tokens: &[Token]) -> Result<(Expr, &[Token]), Obstacle>
    ensures gives { Reads (λ x. (expression_of x.0, x.1.now)) result (call_at tokens.now) }
    ensures depth { IfOk result (λ x. depth (expression_of x.0) ≡ 1) }
{
    let offset = first_offset(tokens);
    let (call, rest) = call_word(tokens)?;
    let rest = after_symbol(rest, Symbol::OpenParen)?;
    let (bag, rest) = name(rest)?;
    let rest = after_symbol(rest, Symbol::CloseParen)?;
    Ok((Expr::Call { call, offset, bag }, rest))
}

/// `elapsed`, and the rest.
#[tactic(auto, unfolding(crate::specs::Reading::elapsed_at, crate::specs::Reading::read_then))]
fn elapsed(tokens: &[Token]) -> Result<(Expr, &[Token]), Obstacle>
    ensures gives { Reads (λ x. (expression_of x.0, x.1.now)) result (elapsed_at tokens.now) }
    ensures depth { IfOk result (λ x. depth (expression_of x.0) ≡ 1) }
{
    let offset = first_offset(tokens);
    let rest = after_keyword(tokens, Keyword::Elapsed)?;
    Ok((Expr::Elapsed { offset }, rest))
}

/// A name, a truth value, a call, `elapsed` or a number, and the rest.
#[tactic(auto, unfolding(crate::specs::Reading::leaf_at, crate::specs::Reading::read_then, crate::specs::Reading::choose))]
fn leaf(tokens: &[Token]) -> Result<(Expr, &[Token]), Obstacle>
    ensures gives { Reads (λ x. (expression_of x.0, x.1.now)) result (leaf_at tokens.now) }
    ensures depth { IfOk result (λ x. depth (expression_of x.0) ≡ 1) }
{
    if begins_with_name(tokens) {
        let (name, rest) = name(tokens)?;
        Ok((Expr::Named(name), rest))
    } else if begins_with_truth(tokens) {
        let offset = first_offset(tokens);
        let (value, rest) = truth(tokens)?;
        Ok((Expr::TruthValue { offset, value }, rest))
    } else if begins_with_call(tokens) {
        call(tokens)
    } else if begins_with_keyword(tokens, Keyword::Elapsed) {
        elapsed(tokens)
    } else {
        let (number, rest) = match number(tokens) {
            Ok(read) => read,
            Err(e) => return Err(e),
        };
        Ok((Expr::Literal(number), rest))
    }
}

/// The expression in parentheses that open at this offset, its depth, and the rest: `inner` is
/// inside, and the tokens begin with what closes them.
#[tactic(auto, unfolding(crate::specs::Reading::read_then))]
fn closed_parens(
    offset: u32,
    inner: Box<Expr>,
    inner_depth: u32,
    tokens: &[Token],
) -> Result<(Expr, u32, &[Token]), Obstacle>
    requires depth { inner_depth ≡ depth (expression_of inner.value) }
    requires bounded { inner_depth < 64 }
    ensures gives { Reads {Y = Expression × List Token} (λ x. (expression_of x.0, x.2.now)) result
        (read_then (after (TokenKind.Symbol Symbol.CloseParen) tokens.now)
        (λ rest. Ok (Parens offset (expression_of inner.value), rest))) }
    ensures depth { IfOk result (λ x. x.1 ≡ depth (expression_of x.0)) }
    ensures deeper { IfOk result (λ x. x.1 ≡ inner_depth + 1) }
{
    let rest = after_symbol(tokens, Symbol::CloseParen)?;
    Ok((Expr::Parens { offset, inner }, inner_depth + 1, rest))
}

/// The tokens behind the parenthesis of a `times`, if the limit allows its value.
#[tactic(auto, unfolding(crate::specs::Reading::within, crate::specs::Reading::read_then))]
fn inside_times(tokens: &[Token], limit: u32) -> Result<&[Token], Obstacle>
    requires positive { 0 < limit }
    ensures gives { Reads (λ rest. rest.now) result
        (read_then (after (TokenKind.Keyword Keyword.Times) tokens.now)
        (λ behind. within (limit - 1) (offset_at tokens.now)
        (after (TokenKind.Symbol Symbol.OpenParen) behind))) }
    ensures room { IfOk result (λ rest. 1 < limit) }
{
    let offset = first_offset(tokens);
    let behind = after_keyword(tokens, Keyword::Times)?;
    test_depth(limit - 1, offset)?;
    after_symbol(behind, Symbol::OpenParen)
}

/// The `times` at this offset, of a value and the bag behind it, its depth, and the rest.
#[tactic(auto, unfolding(crate::specs::Reading::read_then))]
fn counted_times(
    offset: u32,
    value: Box<Expr>,
    value_depth: u32,
    tokens: &[Token],
) -> Result<(Expr, u32, &[Token]), Obstacle>
    requires depth { value_depth ≡ depth (expression_of value.value) }
    requires bounded { value_depth < 64 }
    ensures gives { Reads {Y = Expression × List Token} (λ x. (expression_of x.0, x.2.now)) result
        (read_then (after (TokenKind.Symbol Symbol.Comma) tokens.now)
        (λ comma. read_then (name_at comma)
        (λ bag. read_then (after (TokenKind.Symbol Symbol.CloseParen) bag.1)
        (λ rest. Ok (Times offset (expression_of value.value) bag.0, rest))))) }
    ensures depth { IfOk result (λ x. x.1 ≡ depth (expression_of x.0)) }
    ensures deeper { IfOk result (λ x. x.1 ≡ value_depth + 1) }
{
    let rest = after_symbol(tokens, Symbol::Comma)?;
    let (bag, rest) = name(rest)?;
    let rest = after_symbol(rest, Symbol::CloseParen)?;
    Ok((Expr::Times { offset, value, bag }, value_depth + 1, rest))
}

/// Two operands with their operator between them.
fn joined(alloc: Global, operator: Operator, left: Expr, right: Expr) -> Result<Expr, ParseError>
    ensures { MatchResult result
        (λ x. expression_of x ≡ Binary operator (expression_of left) (expression_of right))
        (λ e. e ≡ Memory) }
{
    Ok(Expr::Binary {
        operator,
        left: Box::new(alloc, left)?,
        right: Box::new(alloc, right)?,
    })
}

/// The operand of the token at this offset, if the limit allows it, its depth, and the rest.
#[cycle(expression)]
#[tactic(auto, unfolding(crate::specs::Reading::within))]
fn operand_within(
    alloc: Global,
    tokens: &[Token],
    offset: u32,
    limit: u32,
    level: u32,
) -> Result<(Box<Expr>, u32, &[Token]), ParseError>
    requires positive { 0 < limit }
    requires bounded { limit ≤ 64 }
    ensures gives { Gives (λ x. (expression_of x.0.value, x.2.now)) result
        (within (limit - 1) offset (expression_at (limit - 1) level tokens.now)) }
    ensures depth { IfOk result (λ x. x.1 ≡ depth (expression_of x.0.value)) }
    ensures within { IfOk result (λ x. (0 < x.1) × (x.1 < limit)) }
{
    test_depth(limit - 1, offset)?;
    let (operand, depth, rest) = within(alloc, tokens, limit - 1, level)?;
    Ok((Box::new(alloc, operand)?, depth, rest))
}

/// An expression in parentheses.
#[cycle(expression)]
#[tactic(auto, unfolding(crate::specs::Reading::parens_at, crate::specs::Reading::read_then))]
fn parens(alloc: Global, tokens: &[Token], limit: u32) -> Result<(Expr, u32, &[Token]), ParseError>
    requires positive { 0 < limit }
    requires bounded { limit ≤ 64 }
    ensures gives { Gives (λ x. (expression_of x.0, x.2.now)) result
        (parens_at (expression_at (limit - 1)) (limit - 1) tokens.now) }
    ensures depth { IfOk result (λ x. x.1 ≡ depth (expression_of x.0)) }
    ensures within { IfOk result (λ x. (0 < x.1) × (x.1 ≤ limit)) }
{
    let offset = first_offset(tokens);
    let inside = after_symbol(tokens, Symbol::OpenParen)?;
    let (inner, depth, rest) = operand_within(alloc, inside, offset, limit, 0)?;
    Ok(closed_parens(offset, inner, depth, rest)?)
}

/// An operand with its prefix operator.
#[cycle(expression)]
#[tactic(auto, unfolding(crate::specs::Reading::prefixed_at, crate::specs::Reading::read_then))]
fn prefixed(
    alloc: Global,
    tokens: &[Token],
    operator: Prefix,
    limit: u32,
) -> Result<(Expr, u32, &[Token]), ParseError>
    requires positive { 0 < limit }
    requires bounded { limit ≤ 64 }
    ensures gives { Gives (λ x. (expression_of x.0, x.2.now)) result
        (prefixed_at operator (expression_at (limit - 1)) (limit - 1) tokens.now) }
    ensures depth { IfOk result (λ x. x.1 ≡ depth (expression_of x.0)) }
    ensures within { IfOk result (λ x. (0 < x.1) × (x.1 ≤ limit)) }
{
    let offset = first_offset(tokens);
    let behind = after_kind(tokens, kind_of_prefix(operator))?;
    let level = rank_of_prefix(operator);
    let (operand, depth, rest) = operand_within(alloc, behind, offset, limit, level)?;
    let expression = Expr::Prefixed {
        operator,
        offset,
        operand,
    };
    Ok((expression, depth + 1, rest))
}

/// A `times` expression.
#[cycle(expression)]
#[tactic(auto, unfolding(crate::specs::Reading::times_at, crate::specs::Reading::within, crate::specs::Reading::read_then))]
fn times(alloc: Global, tokens: &[Token], limit: u32) -> Result<(Expr, u32, &[Token]), ParseError>
    requires positive { 0 < limit }
    requires bounded { limit ≤ 64 }
    ensures gives { Gives (λ x. (expression_of x.0, x.2.now)) result
        (times_at (expression_at (limit - 1)) (limit - 1) tokens.now) }
    ensures depth { IfOk result (λ x. x.1 ≡ depth (expression_of x.0)) }
    ensures within { IfOk result (λ x. (0 < x.1) × (x.1 ≤ limit)) }
{
    let offset = first_offset(tokens);
    let inside = inside_times(tokens, limit)?;
    let (value, depth, rest) = operand_within(alloc, inside, offset, limit, 0)?;
    Ok(counted_times(offset, value, depth, rest)?)
}

/// Whether the first token is a prefix operator that is allowed at the level.
fn begins_with_prefix(tokens: &[Token], operator: Prefix, level: u32) -> bool
    ensures { result ≡ begins_prefix operator level tokens.now }
{
    begins_with(tokens, kind_of_prefix(operator)) && level <= rank_of_prefix(operator)
}

/// An operand without binary operators at its top.
#[cycle(expression)]
#[tactic(auto, unfolding(crate::specs::Reading::primary_at, crate::specs::Reading::choose))]
fn primary(
    alloc: Global,
    tokens: &[Token],
    limit: u32,
    level: u32,
) -> Result<(Expr, u32, &[Token]), ParseError>
    requires positive { 0 < limit }
    requires bounded { limit ≤ 64 }
    ensures gives { Gives (λ x. (expression_of x.0, x.2.now)) result
        (primary_at (expression_at (limit - 1)) (limit - 1) level tokens.now) }
    ensures depth { IfOk result (λ x. x.1 ≡ depth (expression_of x.0)) }
    ensures within { IfOk result (λ x. (0 < x.1) × (x.1 ≤ limit)) }
{
    if begins_with_symbol(tokens, Symbol::OpenParen) {
        parens(alloc, tokens, limit)
    } else if begins_with_keyword(tokens, Keyword::Times) {
        times(alloc, tokens, limit)
    } else if begins_with_prefix(tokens, Prefix::Minus, level) {
        prefixed(alloc, tokens, Prefix::Minus, limit)
    } else if begins_with_prefix(tokens, Prefix::Not, level) {
        prefixed(alloc, tokens, Prefix::Not, limit)
    } else {
        let (expression, rest) = leaf(tokens)?;
        Ok((expression, 1, rest))
    }
}

/// The longest expression within the limit on depth that has no operator below the level at its
/// top, its depth, and the rest.
#[cycle(expression)]
#[tactic(auto, using(crate::proofs::Climbing::climbing))]
fn within(
    alloc: Global,
    tokens: &[Token],
    limit: u32,
    level: u32,
) -> Result<(Expr, u32, &[Token]), ParseError>
    requires positive { 0 < limit }
    requires bounded { limit ≤ 64 }
    ensures gives { Gives (λ x. (expression_of x.0, x.2.now)) result
        (expression_at limit level tokens.now) }
    ensures depth { IfOk result (λ x. x.1 ≡ depth (expression_of x.0)) }
    ensures within { IfOk result (λ x. (0 < x.1) × (x.1 ≤ limit)) }
{
    let (mut left, mut depth, mut rest) = primary(alloc, tokens, limit, level)?;
    while let Some((operator, offset, after)) = next_operator(rest, level, &left) {
        test_depth(limit - depth, offset)?;
        let right_level = rank_of_operator(operator) + 1;
        let (right, right_depth, next) = within(alloc, after, limit - 1, right_level)?;
        depth = depth.max(right_depth) + 1;
        left = joined(alloc, operator, left, right)?;
        rest = next;
    }
    Ok((left, depth, rest))
}

/// The longest expression at the front, and the rest.
pub fn expression(alloc: Global, tokens: &[Token]) -> Result<(Expr, &[Token]), ParseError>
    ensures { Gives (λ x. (expression_of x.0, x.1.now)) result (expression_at 64 0 tokens.now) }
{
    let (expression, _, rest) = within(alloc, tokens, DEPTH_LIMIT, 0)?;
    Ok((expression, rest))
}
