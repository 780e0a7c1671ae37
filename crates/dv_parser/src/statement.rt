//! Statements and blocks.

ghost use Rattle.std.specs.Prelude.{◌≡◌, ◌-◌, ◌<◌, ◌≤◌, IfOk, List, Ok, map};
ghost use Rattle.dv_syntax.specs.Trees.{block_of, expression_of, Done, Statements};
ghost use Rattle.dv_syntax.specs.Grammar.{the_limits, command_word, change_word, change_preposition};
ghost use Rattle.dv_parser.specs.Reading.{Gives, Reads, single_of, many_at, assign_at, command_at, send_at, change_at, if_at, for_at};
ghost use Rattle.dv_parser.specs.Reading.{statement_at, block_at, other_at, after, offset_at, name_at, expression_at, within};
ghost use Rattle.dv_parser.specs.Reading.{read_then, begins_command, begins_change, begins_chained, joined, our_limits};
ghost use Rattle.dv_parser.specs.Reading.{single_before, SingleIf, SingleIfElse, SingleFor};

use crate::expression::expression;
use crate::limits::test_depth;
use crate::parse_error::{Obstacle, ParseError};
use crate::token::{
    after_keyword, after_symbol, begins_with_keyword, begins_with_symbol, first_offset, name,
};
use dv_bag::Change;
use dv_lex::{Keyword, Symbol, Token, TokenKind};
use dv_syntax::{Block, Command, Expr, Name, Stmt};
use std::alloc::{AllocError, Global};

/// `variable := value;`
#[tactic(auto, unfolding(crate::specs::Reading::assign_at, crate::specs::Reading::read_then))]
fn assign(alloc: Global, tokens: &[Token]) -> Result<(Stmt, &[Token]), ParseError>
    ensures { Gives (λ x. (single_of x.0, x.1.now)) result (assign_at the_limits.expression tokens.now) }
{
    let (variable, rest) = name(tokens)?;
    let rest = after_symbol(rest, Symbol::Assign)?;
    let (value, rest) = expression(alloc, rest)?;
    let rest = after_symbol(rest, Symbol::Semicolon)?;
    Ok((Stmt::Assign { variable, value }, rest))
}

/// The keyword of a command.
fn word_of_command(command: Command) -> Keyword
    ensures { result ≡ command_word command }
{
    match command {
        Command::Goto => Keyword::Goto,
        Command::Pop => Keyword::Pop,
    }
}

/// Whether the first token is the word of this command.
fn begins_with_command(tokens: &[Token], command: Command) -> bool
    ensures { result ≡ begins_command command tokens.now }
{
    begins_with_keyword(tokens, word_of_command(command))
}

/// `goto phase;` or `pop queue;`
#[tactic(auto, unfolding(crate::specs::Reading::command_at, crate::specs::Reading::read_then))]
fn command_statement(tokens: &[Token], command: Command) -> Result<(Stmt, &[Token]), Obstacle>
    ensures { Reads (λ x. (single_of x.0, x.1.now)) result (command_at command tokens.now) }
{
    let offset = first_offset(tokens);
    let rest = after_keyword(tokens, word_of_command(command))?;
    let (name, rest) = name(rest)?;
    let rest = after_symbol(rest, Symbol::Semicolon)?;
    Ok((
        Stmt::Command {
            command,
            offset,
            name,
        },
        rest,
    ))
}

/// `send port value;`
#[tactic(auto, unfolding(crate::specs::Reading::send_at, crate::specs::Reading::read_then))]
fn send(alloc: Global, tokens: &[Token]) -> Result<(Stmt, &[Token]), ParseError>
    ensures { Gives (λ x. (single_of x.0, x.1.now)) result (send_at the_limits.expression tokens.now) }
{
    let offset = first_offset(tokens);
    let rest = after_keyword(tokens, Keyword::Send)?;
    let (port, rest) = name(rest)?;
    let (value, rest) = expression(alloc, rest)?;
    let rest = after_symbol(rest, Symbol::Semicolon)?;
    Ok((
        Stmt::Send {
            offset,
            port,
            value,
        },
        rest,
    ))
}

/// The keyword of a change.
fn word_of_change(change: Change) -> Keyword
    ensures { result ≡ change_word change }
{
    match change {
        Change::Add => Keyword::Add,
        Change::Drop => Keyword::Drop,
        Change::Push => Keyword::Push,
    }
}

/// The keyword between the value and the collection of a change.
fn preposition_of(change: Change) -> Keyword
    ensures { result ≡ change_preposition change }
{
    match change {
        Change::Add | Change::Push => Keyword::To,
        Change::Drop => Keyword::From,
    }
}

/// Whether the first token is the word of this change.
fn begins_with_change(tokens: &[Token], change: Change) -> bool
    ensures { result ≡ begins_change change tokens.now }
{
    begins_with_keyword(tokens, word_of_change(change))
}

/// `add value to bag;`, `drop value from bag;` or `push value to queue;`
#[tactic(auto, unfolding(crate::specs::Reading::change_at, crate::specs::Reading::read_then))]
fn change_statement(
    alloc: Global,
    tokens: &[Token],
    change: Change,
) -> Result<(Stmt, &[Token]), ParseError>
    ensures { Gives (λ x. (single_of x.0, x.1.now)) result
        (change_at the_limits.expression change tokens.now) }
{
    let offset = first_offset(tokens);
    let rest = after_keyword(tokens, word_of_change(change))?;
    let (value, rest) = expression(alloc, rest)?;
    let rest = after_keyword(rest, preposition_of(change))?;
    let (collection, rest) = name(rest)?;
    let rest = after_symbol(rest, Symbol::Semicolon)?;
    Ok((
        Stmt::Change {
            change,
            offset,
            value,
            collection,
        },
        rest,
    ))
}

/// The condition of an `if`, if the limit allows its block, and the rest.
#[tactic(auto, unfolding(crate::specs::Reading::within, crate::specs::Reading::read_then))]
fn condition_of_if(
    alloc: Global,
    tokens: &[Token],
    limit: u32,
) -> Result<(Expr, &[Token]), ParseError>
    requires { 0 < limit }
    ensures gives { Gives (λ x. (expression_of x.0, x.1.now)) result
        (read_then (after (TokenKind.Keyword Keyword.If) tokens.now)
        (λ behind. within (limit - 1) (offset_at tokens.now)
        (expression_at the_limits.expression 0 behind))) }
    ensures room { IfOk result (λ x. 1 < limit) }
{
    let offset = first_offset(tokens);
    let rest = after_keyword(tokens, Keyword::If)?;
    test_depth(limit - 1, offset)?;
    expression(alloc, rest)
}

/// An `if` without `else`.
#[tactic(auto, using(crate::proofs::Rows::rows))]
fn if_without_else(offset: u32, condition: Expr, then_block: Block) -> Stmt
    ensures { single_of result ≡ SingleIf offset (expression_of condition) (block_of then_block) }
{
    Stmt::If {
        offset,
        condition,
        then_block,
    }
}

/// An `if` with its `else`.
#[tactic(auto, using(crate::proofs::Rows::rows))]
fn if_with_else(offset: u32, condition: Expr, then_block: Block, else_block: Block) -> Stmt
    ensures { single_of result
        ≡ SingleIfElse offset (expression_of condition) (block_of then_block) (block_of else_block) }
{
    Stmt::IfElse {
        offset,
        condition,
        then_block,
        else_block,
    }
}

/// Whether the first token is an `if`, in a text that may have the short forms.
fn begins_with_chained(tokens: &[Token], short: bool) -> bool
    ensures { result ≡ begins_chained (our_limits short) tokens.now }
{
    short && begins_with_keyword(tokens, Keyword::If)
}

/// The block of one statement.
#[tactic(auto, using(crate::proofs::Rows::joined_items))]
fn block_of_one(alloc: Global, statement: Stmt) -> Result<Block, AllocError>
    ensures { IfOk result (λ block. block_of block ≡ single_before (single_of statement) Done) }
{
    let mut statements = Vec::with_capacity(alloc, 1)?;
    statements.push(statement)?;
    Ok(Block { statements })
}

/// The block behind an `else`, or the `if` in its place, and the rest.
#[cycle(block)]
#[tactic(auto, unfolding(crate::specs::Reading::read_then))]
fn after_else(
    alloc: Global,
    tokens: &[Token],
    short: bool,
    limit: u32,
    loops: u32,
) -> Result<(Block, &[Token]), ParseError>
    requires { 0 < limit }
    ensures { Gives (λ x. (block_of x.0, x.1.now)) result
        (read_then (after (TokenKind.Keyword Keyword.Else) tokens.now)
        (other_at (our_limits short) limit loops)) }
{
    let behind = after_keyword(tokens, Keyword::Else)?;
    other(alloc, behind, short, limit, loops)
}

/// A block, or the `if` in its place, and the rest.
#[cycle(block)]
#[tactic(auto, unfolding(crate::specs::Reading::other_at, crate::specs::Reading::choose, crate::specs::Reading::read_then))]
fn other(
    alloc: Global,
    tokens: &[Token],
    short: bool,
    limit: u32,
    loops: u32,
) -> Result<(Block, &[Token]), ParseError>
    requires { 0 < limit }
    ensures { Gives (λ x. (block_of x.0, x.1.now)) result
        (other_at (our_limits short) limit loops tokens.now) }
{
    if begins_with_chained(tokens, short) {
        let (chained, rest) = if_statement(alloc, tokens, short, limit, loops)?;
        let block = block_of_one(alloc, chained)?;
        Ok((block, rest))
    } else {
        block(alloc, tokens, short, limit, loops)
    }
}

/// `if condition { .. }`, with its `else` if there is one.
#[cycle(block)]
#[tactic(auto, unfolding(crate::specs::Reading::if_at, crate::specs::Reading::within, crate::specs::Reading::else_at, crate::specs::Reading::read_then, crate::specs::Reading::choose))]
fn if_statement(
    alloc: Global,
    tokens: &[Token],
    short: bool,
    limit: u32,
    loops: u32,
) -> Result<(Stmt, &[Token]), ParseError>
    requires { 0 < limit }
    ensures { Gives (λ x. (single_of x.0, x.1.now)) result
        (if_at (our_limits short) (block_at (our_limits short) (limit - 1) loops)
        (other_at (our_limits short) (limit - 1) loops) (limit - 1) tokens.now) }
{
    let offset = first_offset(tokens);
    let (condition, rest) = condition_of_if(alloc, tokens, limit)?;
    let (then_block, rest) = block(alloc, rest, short, limit - 1, loops)?;
    if begins_with_keyword(rest, Keyword::Else) {
        let (else_block, rest) = after_else(alloc, rest, short, limit - 1, loops)?;
        Ok((
            if_with_else(offset, condition, then_block, else_block),
            rest,
        ))
    } else {
        Ok((if_without_else(offset, condition, then_block), rest))
    }
}

/// The variable and the collection of a `for`, if the limits allow its block, and the rest.
#[tactic(auto, unfolding(crate::specs::Reading::within, crate::specs::Reading::read_then))]
fn head_of_for(tokens: &[Token], limit: u32, loops: u32) -> Result<(Name, Name, &[Token]), Obstacle>
    requires { 0 < limit }
    ensures gives { Reads {Y = Name × (Name × List Token)} (λ x. (x.0, (x.1, x.2.now))) result
        (read_then (after (TokenKind.Keyword Keyword.For) tokens.now)
        (λ behind. read_then
        (within (limit - 1) (offset_at tokens.now)
        (within loops (offset_at tokens.now) (name_at behind)))
        (λ v. read_then (after (TokenKind.Keyword Keyword.In) v.1)
        (λ word. read_then (name_at word) (λ bag. Ok (v.0, (bag.0, bag.1))))))) }
    ensures room { IfOk result (λ x. (1 < limit) × (0 < loops)) }
{
    let offset = first_offset(tokens);
    let rest = after_keyword(tokens, Keyword::For)?;
    test_depth(limit - 1, offset)?;
    test_depth(loops, offset)?;
    let (variable, rest) = name(rest)?;
    let rest = after_keyword(rest, Keyword::In)?;
    let (bag, rest) = name(rest)?;
    Ok((variable, bag, rest))
}

/// The `for` of a variable, a collection and a block.
#[tactic(auto, using(crate::proofs::Rows::rows))]
fn for_loop(offset: u32, variable: Name, bag: Name, block: Block) -> Stmt
    ensures { single_of result ≡ SingleFor offset variable bag (block_of block) }
{
    Stmt::For {
        offset,
        variable,
        bag,
        block,
    }
}

/// `for variable in bag { .. }`
#[cycle(block)]
#[tactic(auto, unfolding(crate::specs::Reading::for_at, crate::specs::Reading::within, crate::specs::Reading::read_then))]
fn for_statement(
    alloc: Global,
    tokens: &[Token],
    short: bool,
    limit: u32,
    loops: u32,
) -> Result<(Stmt, &[Token]), ParseError>
    requires { 0 < limit }
    ensures { Gives (λ x. (single_of x.0, x.1.now)) result
        (for_at (block_at (our_limits short) (limit - 1)) (limit - 1) loops tokens.now) }
{
    let offset = first_offset(tokens);
    let (variable, bag, rest) = head_of_for(tokens, limit, loops)?;
    let (block, rest) = block(alloc, rest, short, limit - 1, loops - 1)?;
    Ok((for_loop(offset, variable, bag, block), rest))
}

/// The statement at the front.
#[cycle(block)]
#[tactic(auto, unfolding(crate::specs::Reading::statement_at, crate::specs::Reading::choose))]
fn statement(
    alloc: Global,
    tokens: &[Token],
    short: bool,
    limit: u32,
    loops: u32,
) -> Result<(Stmt, &[Token]), ParseError>
    requires { 0 < limit }
    ensures { Gives (λ x. (single_of x.0, x.1.now)) result
        (statement_at (our_limits short) (block_at (our_limits short) (limit - 1))
        (other_at (our_limits short) (limit - 1)) (limit - 1) loops tokens.now) }
{
    if begins_with_command(tokens, Command::Goto) {
        Ok(command_statement(tokens, Command::Goto)?)
    } else if begins_with_command(tokens, Command::Pop) {
        Ok(command_statement(tokens, Command::Pop)?)
    } else if begins_with_keyword(tokens, Keyword::Send) {
        send(alloc, tokens)
    } else if begins_with_keyword(tokens, Keyword::If) {
        if_statement(alloc, tokens, short, limit, loops)
    } else if begins_with_keyword(tokens, Keyword::For) {
        for_statement(alloc, tokens, short, limit, loops)
    } else if begins_with_change(tokens, Change::Add) {
        change_statement(alloc, tokens, Change::Add)
    } else if begins_with_change(tokens, Change::Drop) {
        change_statement(alloc, tokens, Change::Drop)
    } else if begins_with_change(tokens, Change::Push) {
        change_statement(alloc, tokens, Change::Push)
    } else {
        assign(alloc, tokens)
    }
}

/// The statements before the closing brace of their block.
#[cycle(block)]
fn statements(
    alloc: Global,
    tokens: &[Token],
    short: bool,
    limit: u32,
    loops: u32,
) -> Result<(Vec<Stmt>, &[Token]), ParseError>
    requires { 0 < limit }
    ensures { Gives (λ x. (map single_of x.0.items, x.1.now)) result
        (many_at (statement_at (our_limits short) (block_at (our_limits short) (limit - 1))
        (other_at (our_limits short) (limit - 1)) (limit - 1) loops)
        (TokenKind.Symbol Symbol.CloseBrace) tokens.now) }
{
    let mut statements = Vec::with_capacity(alloc, 1)?;
    let mut rest = tokens;
    while !begins_with_symbol(rest, Symbol::CloseBrace) {
        let (statement, after) = statement(alloc, rest, short, limit, loops)?;
        statements.push(statement)?;
        rest = after;
    }
    Ok((statements, rest))
}

/// The block of these statements, before its closing brace, and the rest. It has no memory to
/// spare: most blocks have one statement, and a text may have millions of them.
#[tactic(auto, using(crate::proofs::Rows::joined_items), unfolding(crate::specs::Reading::read_then))]
fn closed_block(mut statements: Vec<Stmt>, tokens: &[Token]) -> Result<(Block, &[Token]), Obstacle>
    ensures { Reads {Y = Statements × List Token} (λ x. (block_of x.0, x.1.now)) result
        (read_then (after (TokenKind.Symbol Symbol.CloseBrace) tokens.now)
        (λ rest. Ok (joined (map single_of statements.items), rest))) }
{
    let rest = after_symbol(tokens, Symbol::CloseBrace)?;
    statements.shrink_to_fit();
    Ok((Block { statements }, rest))
}

/// Statements in braces. `short` says whether they may have the short forms. `limit` counts the
/// levels of blocks that are left, with this one; `loops` counts the levels of loops that are left
/// in it.
#[cycle(block)]
pub fn block(
    alloc: Global,
    tokens: &[Token],
    short: bool,
    limit: u32,
    loops: u32,
) -> Result<(Block, &[Token]), ParseError>
    requires { 0 < limit }
    ensures { Gives (λ x. (block_of x.0, x.1.now)) result
        (block_at (our_limits short) limit loops tokens.now) }
{
    let inside = after_symbol(tokens, Symbol::OpenBrace)?;
    let (statements, rest) = statements(alloc, inside, short, limit, loops)?;
    Ok(closed_block(statements, rest)?)
}
