//! Atomic models and their items.

ghost use Rattle.std.specs.Prelude.{◌≡◌, map};
ghost use Rattle.dv_source.specs.Sources.{item_of};
ghost use Rattle.dv_syntax.specs.Trees.{ticks_of};
ghost use Rattle.dv_syntax.specs.Grammar.{the_limits, discipline_word, sort_word};
ghost use Rattle.dv_parser.specs.Reading.{Gives, Reads, with_front, many_at, braces_at, bound_at, variable_at, flag_at};
ghost use Rattle.dv_parser.specs.Reading.{collection_at, begins_collection};
ghost use Rattle.dv_parser.specs.Reading.{further_name_at, phases_at, start_at, ticks_at, hold_at, rule_at, begins_rule};
ghost use Rattle.dv_parser.specs.Reading.{any_rule_at, port_at, item_at, atomic_at, our_limits};

use crate::expression::expression;
use crate::parse_error::{Obstacle, ParseError};
use crate::statement::block;
use crate::token::{
    after_keyword, after_symbol, begins_with_keyword, begins_with_symbol, first_offset, name,
    number, truth,
};
use dv_bag::Discipline;
use dv_lex::{Keyword, Symbol, Token, TokenKind};
use dv_source::{SourceAtomic, SourceItem};
use dv_syntax::{
    Bound, Declaration, Flag, Hold, Name, Phases, Rule, RuleSort, Start, StateCollection, Ticks,
    Variable,
};
use std::alloc::Global;

/// How deep the blocks of a rule may be nested.
const BLOCK_LIMIT: u32 = 16;

/// How deep the loops of a rule may be nested.
const LOOP_LIMIT: u32 = 3;

/// A number, with or without a minus sign.
#[tactic(auto, unfolding(crate::specs::Reading::bound_at, crate::specs::Reading::read_then, crate::specs::Reading::choose))]
fn bound(tokens: &[Token]) -> Result<(Bound, &[Token]), Obstacle>
    ensures { Reads (λ x. (x.0, x.1.now)) result (bound_at tokens.now) }
{
    if begins_with_symbol(tokens, Symbol::Minus) {
        let offset = first_offset(tokens);
        let rest = after_symbol(tokens, Symbol::Minus)?;
        let (magnitude, rest) = match number(rest) {
            Ok(read) => read,
            Err(e) => return Err(e),
        };
        Ok((
            Bound {
                minus: Some(offset),
                magnitude,
            },
            rest,
        ))
    } else {
        let (magnitude, rest) = match number(tokens) {
            Ok(read) => read,
            Err(e) => return Err(e),
        };
        Ok((
            Bound {
                minus: None,
                magnitude,
            },
            rest,
        ))
    }
}

/// `var name: low..high = start;`
#[tactic(auto, unfolding(crate::specs::Reading::variable_at, crate::specs::Reading::read_then))]
fn variable(tokens: &[Token]) -> Result<(Variable, &[Token]), Obstacle>
    ensures { Reads (λ x. (x.0, x.1.now)) result (variable_at tokens.now) }
{
    let rest = after_keyword(tokens, Keyword::Var)?;
    let (name, rest) = name(rest)?;
    let rest = after_symbol(rest, Symbol::Colon)?;
    let (low, rest) = match bound(rest) {
        Ok(read) => read,
        Err(e) => return Err(e),
    };
    let rest = after_symbol(rest, Symbol::Range)?;
    let (high, rest) = match bound(rest) {
        Ok(read) => read,
        Err(e) => return Err(e),
    };
    let rest = after_symbol(rest, Symbol::Equal)?;
    let (start, rest) = match bound(rest) {
        Ok(read) => read,
        Err(e) => return Err(e),
    };
    let rest = after_symbol(rest, Symbol::Semicolon)?;
    Ok((
        Variable {
            name,
            low,
            high,
            start,
        },
        rest,
    ))
}

/// `flag name = start;`
#[tactic(auto, unfolding(crate::specs::Reading::flag_at, crate::specs::Reading::read_then))]
fn flag(tokens: &[Token]) -> Result<(Flag, &[Token]), Obstacle>
    ensures { Reads (λ x. (x.0, x.1.now)) result (flag_at tokens.now) }
{
    let rest = after_keyword(tokens, Keyword::Flag)?;
    let (name, rest) = name(rest)?;
    let rest = after_symbol(rest, Symbol::Equal)?;
    let (start, rest) = truth(rest)?;
    let rest = after_symbol(rest, Symbol::Semicolon)?;
    Ok((Flag { name, start }, rest))
}

/// The word that declares a collection of this discipline.
fn word_of_discipline(discipline: Discipline) -> Keyword
    ensures { result ≡ discipline_word discipline }
{
    match discipline {
        Discipline::Bag => Keyword::Bag,
        Discipline::Queue => Keyword::Queue,
    }
}

/// Whether the first token is the word of a collection of this discipline.
fn begins_with_collection(tokens: &[Token], discipline: Discipline) -> bool
    ensures { result ≡ begins_collection discipline tokens.now }
{
    begins_with_keyword(tokens, word_of_discipline(discipline))
}

/// `bag name capacity;` or `queue name capacity;`
#[tactic(auto, unfolding(crate::specs::Reading::collection_at, crate::specs::Reading::read_then))]
fn collection(
    tokens: &[Token],
    discipline: Discipline,
) -> Result<(StateCollection, &[Token]), Obstacle>
    ensures { Reads (λ x. (x.0, x.1.now)) result (collection_at discipline tokens.now) }
{
    let rest = after_keyword(tokens, word_of_discipline(discipline))?;
    let (name, rest) = name(rest)?;
    let (capacity, rest) = match number(rest) {
        Ok(read) => read,
        Err(e) => return Err(e),
    };
    let rest = after_symbol(rest, Symbol::Semicolon)?;
    Ok((
        StateCollection {
            discipline,
            name,
            capacity,
        },
        rest,
    ))
}

/// A comma and a name.
#[tactic(auto, unfolding(crate::specs::Reading::further_name_at, crate::specs::Reading::read_then))]
fn further_name(tokens: &[Token]) -> Result<(Name, &[Token]), Obstacle>
    ensures { Reads (λ x. (x.0, x.1.now)) result (further_name_at tokens.now) }
{
    let rest = after_symbol(tokens, Symbol::Comma)?;
    name(rest)
}

/// Adds the names behind commas, up to a semicolon.
fn further_names(
    mut names: Vec<Name>,
    tokens: &[Token],
) -> Result<(Vec<Name>, &[Token]), ParseError>
    ensures { Gives (λ x. (x.0.items, x.1.now)) result
        (with_front names.items
        (many_at further_name_at (TokenKind.Symbol Symbol.Semicolon) tokens.now)) }
{
    let mut rest = tokens;
    while !begins_with_symbol(rest, Symbol::Semicolon) {
        let (name, after) = further_name(rest)?;
        names.push(name)?;
        rest = after;
    }
    Ok((names, rest))
}

/// `phases first, second, ..;`
#[tactic(auto, unfolding(crate::specs::Reading::phases_at, crate::specs::Reading::read_then))]
fn phases(alloc: Global, tokens: &[Token]) -> Result<(SourceItem, &[Token]), ParseError>
    ensures { Gives (λ x. (item_of x.0, x.1.now)) result (phases_at tokens.now) }
{
    let offset = first_offset(tokens);
    let rest = after_keyword(tokens, Keyword::Phases)?;
    let (first, rest) = name(rest)?;
    let mut names = Vec::with_capacity(alloc, 1)?;
    names.push(first)?;
    let (mut names, rest) = further_names(names, rest)?;
    let rest = after_symbol(rest, Symbol::Semicolon)?;
    names.shrink_to_fit();
    Ok((SourceItem::Lists(Phases { offset, names }), rest))
}

/// `start phase;`
#[tactic(auto, unfolding(crate::specs::Reading::start_at, crate::specs::Reading::read_then))]
fn start(tokens: &[Token]) -> Result<(SourceItem, &[Token]), Obstacle>
    ensures { Reads (λ x. (item_of x.0, x.1.now)) result (start_at tokens.now) }
{
    let offset = first_offset(tokens);
    let rest = after_keyword(tokens, Keyword::Start)?;
    let (phase, rest) = name(rest)?;
    let rest = after_symbol(rest, Symbol::Semicolon)?;
    Ok((SourceItem::Starts(Start { offset, phase }), rest))
}

/// `forever`, or an expression.
#[tactic(auto, unfolding(crate::specs::Reading::ticks_at, crate::specs::Reading::read_then, crate::specs::Reading::choose))]
fn ticks(alloc: Global, tokens: &[Token]) -> Result<(Ticks, &[Token]), ParseError>
    ensures { Gives (λ x. (ticks_of x.0, x.1.now)) result (ticks_at the_limits.expression tokens.now) }
{
    if begins_with_keyword(tokens, Keyword::Forever) {
        let rest = after_keyword(tokens, Keyword::Forever)?;
        Ok((Ticks::Forever, rest))
    } else {
        let (ticks, rest) = expression(alloc, tokens)?;
        Ok((Ticks::After(ticks), rest))
    }
}

/// `hold phase: ticks;`
#[tactic(auto, unfolding(crate::specs::Reading::hold_at, crate::specs::Reading::read_then))]
fn hold(alloc: Global, tokens: &[Token]) -> Result<(SourceItem, &[Token]), ParseError>
    ensures { Gives (λ x. (item_of x.0, x.1.now)) result (hold_at the_limits.expression tokens.now) }
{
    let offset = first_offset(tokens);
    let rest = after_keyword(tokens, Keyword::Hold)?;
    let (phase, rest) = name(rest)?;
    let rest = after_symbol(rest, Symbol::Colon)?;
    let (ticks, rest) = ticks(alloc, rest)?;
    let rest = after_symbol(rest, Symbol::Semicolon)?;
    let hold = Hold {
        offset,
        phase,
        ticks,
    };
    Ok((SourceItem::Holds(hold), rest))
}

/// The first word of a rule of this sort.
fn word_of(sort: RuleSort) -> Keyword
    ensures { result ≡ sort_word sort }
{
    match sort {
        RuleSort::Output => Keyword::Output,
        RuleSort::Internal => Keyword::Internal,
        RuleSort::External => Keyword::External,
        RuleSort::Confluent => Keyword::Confluent,
    }
}

/// `output phase { .. }`, or `internal`, `external` or `confluent` alike.
#[tactic(auto, unfolding(crate::specs::Reading::rule_at, crate::specs::Reading::read_then))]
fn rule(
    alloc: Global,
    tokens: &[Token],
    short: bool,
    sort: RuleSort,
) -> Result<(SourceItem, &[Token]), ParseError>
    ensures { Gives (λ x. (item_of x.0, x.1.now)) result (rule_at (our_limits short) sort tokens.now) }
{
    let rest = after_keyword(tokens, word_of(sort))?;
    let (phase, rest) = name(rest)?;
    let (body, rest) = block(alloc, rest, short, BLOCK_LIMIT, LOOP_LIMIT)?;
    Ok((SourceItem::Rules(Rule { sort, phase, body }), rest))
}

/// Whether the first token is the word of a rule of this sort.
fn begins_with_rule(tokens: &[Token], sort: RuleSort) -> bool
    ensures { result ≡ begins_rule sort tokens.now }
{
    begins_with_keyword(tokens, word_of(sort))
}

/// A rule, by its word.
#[tactic(auto, unfolding(crate::specs::Reading::any_rule_at, crate::specs::Reading::choose))]
fn any_rule(
    alloc: Global,
    tokens: &[Token],
    short: bool,
) -> Result<(SourceItem, &[Token]), ParseError>
    ensures { Gives (λ x. (item_of x.0, x.1.now)) result (any_rule_at (our_limits short) tokens.now) }
{
    if begins_with_rule(tokens, RuleSort::Output) {
        rule(alloc, tokens, short, RuleSort::Output)
    } else if begins_with_rule(tokens, RuleSort::Internal) {
        rule(alloc, tokens, short, RuleSort::Internal)
    } else if begins_with_rule(tokens, RuleSort::External) {
        rule(alloc, tokens, short, RuleSort::External)
    } else {
        rule(alloc, tokens, short, RuleSort::Confluent)
    }
}

/// A port with its word: `in port;` or `out port;`
#[tactic(auto, unfolding(crate::specs::Reading::port_at, crate::specs::Reading::read_then))]
pub fn port(tokens: &[Token], word: Keyword) -> Result<(Name, &[Token]), Obstacle>
    ensures { Reads (λ x. (x.0, x.1.now)) result (port_at word tokens.now) }
{
    let rest = after_keyword(tokens, word)?;
    let (port, rest) = name(rest)?;
    let rest = after_symbol(rest, Symbol::Semicolon)?;
    Ok((port, rest))
}

/// The item at the front.
#[tactic(auto, unfolding(crate::specs::Reading::item_at, crate::specs::Reading::read_then, crate::specs::Reading::choose))]
fn item(alloc: Global, tokens: &[Token], short: bool) -> Result<(SourceItem, &[Token]), ParseError>
    ensures { Gives (λ x. (item_of x.0, x.1.now)) result (item_at (our_limits short) tokens.now) }
{
    if begins_with_keyword(tokens, Keyword::In) {
        let (port, rest) = port(tokens, Keyword::In)?;
        Ok((SourceItem::Declares(Declaration::In(port)), rest))
    } else if begins_with_keyword(tokens, Keyword::Out) {
        let (port, rest) = port(tokens, Keyword::Out)?;
        Ok((SourceItem::Declares(Declaration::Out(port)), rest))
    } else if begins_with_keyword(tokens, Keyword::Var) {
        let (variable, rest) = match variable(tokens) {
            Ok(read) => read,
            Err(obstacle) => return Err(ParseError::Stopped(obstacle)),
        };
        Ok((SourceItem::Declares(Declaration::Var(variable)), rest))
    } else if begins_with_keyword(tokens, Keyword::Flag) {
        let (flag, rest) = flag(tokens)?;
        Ok((SourceItem::Declares(Declaration::Flag(flag)), rest))
    } else if begins_with_collection(tokens, Discipline::Bag) {
        let (bag, rest) = match collection(tokens, Discipline::Bag) {
            Ok(read) => read,
            Err(obstacle) => return Err(ParseError::Stopped(obstacle)),
        };
        Ok((SourceItem::Declares(Declaration::Held(bag)), rest))
    } else if begins_with_collection(tokens, Discipline::Queue) {
        let (queue, rest) = match collection(tokens, Discipline::Queue) {
            Ok(read) => read,
            Err(obstacle) => return Err(ParseError::Stopped(obstacle)),
        };
        Ok((SourceItem::Declares(Declaration::Held(queue)), rest))
    } else if begins_with_keyword(tokens, Keyword::Phases) {
        phases(alloc, tokens)
    } else if begins_with_keyword(tokens, Keyword::Start) {
        Ok(start(tokens)?)
    } else if begins_with_keyword(tokens, Keyword::Hold) {
        hold(alloc, tokens)
    } else {
        any_rule(alloc, tokens, short)
    }
}

/// The items before the closing brace of their model.
fn items(
    alloc: Global,
    tokens: &[Token],
    short: bool,
) -> Result<(Vec<SourceItem>, &[Token]), ParseError>
    ensures { Gives (λ x. (map item_of x.0.items, x.1.now)) result
        (many_at (item_at (our_limits short)) (TokenKind.Symbol Symbol.CloseBrace) tokens.now) }
{
    let mut items = Vec::new(alloc);
    let mut rest = tokens;
    while !begins_with_symbol(rest, Symbol::CloseBrace) {
        let (item, after) = item(alloc, rest, short)?;
        items.push(item)?;
        rest = after;
    }
    Ok((items, rest))
}

/// `atomic name { .. }`. `short` says whether its rules may have the short forms. It has no memory
/// to spare: a text may have very many models of a few items each.
#[tactic(auto, unfolding(crate::specs::Reading::atomic_at, crate::specs::Reading::braces_at, crate::specs::Reading::read_then))]
pub fn atomic(
    alloc: Global,
    tokens: &[Token],
    short: bool,
) -> Result<(SourceAtomic, &[Token]), ParseError>
    ensures { Gives (λ x. ((x.0.name, map item_of x.0.items.items), x.1.now)) result
        (atomic_at (our_limits short) tokens.now) }
{
    let rest = after_keyword(tokens, Keyword::Atomic)?;
    let (name, rest) = name(rest)?;
    let rest = after_symbol(rest, Symbol::OpenBrace)?;
    let (mut items, rest) = items(alloc, rest, short)?;
    let rest = after_symbol(rest, Symbol::CloseBrace)?;
    items.shrink_to_fit();
    Ok((SourceAtomic { name, items }, rest))
}
