//! Coupled models and their items.

ghost use Rattle.std.specs.Prelude.{◌≡◌, map};
ghost use Rattle.dv_source.specs.Sources.{coupled_item_of};
ghost use Rattle.dv_parser.specs.Reading.{Gives, Reads, many_at, braces_at, end_at, part_at, link_at, coupled_item_at, coupled_at};

use crate::atomic::port;
use crate::parse_error::{Obstacle, ParseError};
use crate::token::{
    after_keyword, after_symbol, begins_with_keyword, begins_with_symbol, first_offset, name,
};
use dv_lex::{Keyword, Symbol, Token, TokenKind};
use dv_source::{SourceCoupled, SourceCoupledItem};
use dv_syntax::{End, Link, Part};
use std::alloc::Global;

/// `self.port` or `part.port`
#[tactic(auto, unfolding(crate::specs::Reading::end_at, crate::specs::Reading::read_then, crate::specs::Reading::choose))]
fn end(tokens: &[Token]) -> Result<(End, &[Token]), Obstacle>
    ensures { Reads (λ x. (x.0, x.1.now)) result (end_at tokens.now) }
{
    if begins_with_keyword(tokens, Keyword::Itself) {
        let rest = after_keyword(tokens, Keyword::Itself)?;
        let rest = after_symbol(rest, Symbol::Dot)?;
        let (port, rest) = name(rest)?;
        Ok((End { part: None, port }, rest))
    } else {
        let (part, rest) = name(tokens)?;
        let rest = after_symbol(rest, Symbol::Dot)?;
        let (port, rest) = name(rest)?;
        Ok((
            End {
                part: Some(part),
                port,
            },
            rest,
        ))
    }
}

/// `part name: model;`
#[tactic(auto, unfolding(crate::specs::Reading::part_at, crate::specs::Reading::read_then))]
fn part(tokens: &[Token]) -> Result<(Part, &[Token]), Obstacle>
    ensures { Reads (λ x. (x.0, x.1.now)) result (part_at tokens.now) }
{
    let rest = after_keyword(tokens, Keyword::Part)?;
    let (part, rest) = name(rest)?;
    let rest = after_symbol(rest, Symbol::Colon)?;
    let (model, rest) = name(rest)?;
    let rest = after_symbol(rest, Symbol::Semicolon)?;
    Ok((Part { name: part, model }, rest))
}

/// `link from -> to;`
#[tactic(auto, unfolding(crate::specs::Reading::link_at, crate::specs::Reading::read_then))]
fn link(tokens: &[Token]) -> Result<(Link, &[Token]), Obstacle>
    ensures { Reads (λ x. (x.0, x.1.now)) result (link_at tokens.now) }
{
    let offset = first_offset(tokens);
    let rest = after_keyword(tokens, Keyword::Link)?;
    let (from, rest) = end(rest)?;
    let rest = after_symbol(rest, Symbol::Arrow)?;
    let (to, rest) = end(rest)?;
    let rest = after_symbol(rest, Symbol::Semicolon)?;
    Ok((Link { offset, from, to }, rest))
}

/// The item at the front.
#[tactic(auto, unfolding(crate::specs::Reading::coupled_item_at, crate::specs::Reading::read_then, crate::specs::Reading::choose))]
fn item(tokens: &[Token]) -> Result<(SourceCoupledItem, &[Token]), Obstacle>
    ensures { Reads (λ x. (coupled_item_of x.0, x.1.now)) result (coupled_item_at tokens.now) }
{
    if begins_with_keyword(tokens, Keyword::In) {
        let (port, rest) = port(tokens, Keyword::In)?;
        Ok((SourceCoupledItem::Inputs(port), rest))
    } else if begins_with_keyword(tokens, Keyword::Out) {
        let (port, rest) = port(tokens, Keyword::Out)?;
        Ok((SourceCoupledItem::Outputs(port), rest))
    } else if begins_with_keyword(tokens, Keyword::Part) {
        let (part, rest) = part(tokens)?;
        Ok((SourceCoupledItem::Contains(part), rest))
    } else {
        let (link, rest) = link(tokens)?;
        Ok((SourceCoupledItem::Couples(link), rest))
    }
}

/// The items before the closing brace of their model.
fn items(alloc: Global, tokens: &[Token]) -> Result<(Vec<SourceCoupledItem>, &[Token]), ParseError>
    ensures { Gives (λ x. (map coupled_item_of x.0.items, x.1.now)) result
        (many_at coupled_item_at (TokenKind.Symbol Symbol.CloseBrace) tokens.now) }
{
    let mut items = Vec::new(alloc);
    let mut rest = tokens;
    while !begins_with_symbol(rest, Symbol::CloseBrace) {
        let (item, after) = item(rest)?;
        items.push(item)?;
        rest = after;
    }
    Ok((items, rest))
}

/// `coupled name { .. }`. It has no memory to spare, as atomic models have none.
#[tactic(auto, unfolding(crate::specs::Reading::coupled_at, crate::specs::Reading::braces_at, crate::specs::Reading::read_then))]
pub fn coupled(alloc: Global, tokens: &[Token]) -> Result<(SourceCoupled, &[Token]), ParseError>
    ensures { Gives (λ x. ((x.0.name, map coupled_item_of x.0.items.items), x.1.now)) result
        (coupled_at tokens.now) }
{
    let rest = after_keyword(tokens, Keyword::Coupled)?;
    let (name, rest) = name(rest)?;
    let rest = after_symbol(rest, Symbol::OpenBrace)?;
    let (mut items, rest) = items(alloc, rest)?;
    let rest = after_symbol(rest, Symbol::CloseBrace)?;
    items.shrink_to_fit();
    Ok((SourceCoupled { name, items }, rest))
}
