//! What rules and holds do with names.

use crate::statements::add_statements;
use dv_syntax::{Atomic, Command, Expr, Name, Rule, Stmt, Ticks};
use std::alloc::{AllocError, Global};

/// What a rule or a hold does with a name, given by its number.
#[derive(Clone, Copy)]
pub(crate) enum Mention {
    /// It reads a state variable, a port or the variable of a loop.
    Reads(u32),
    /// It sets or changes a state variable.
    Changes(u32),
    /// It sends from a port.
    Sends(u32),
    /// It goes to a phase.
    GoesTo(u32),
}

/// A rule, with lists of what it contains in the order of the text.
#[derive(Drop)]
pub(crate) struct ReadRule<'a> {
    pub(crate) rule: &'a Rule,
    /// All statements, also those in blocks of other statements.
    pub(crate) statements: Vec<&'a Stmt>,
    /// What the statements do with names.
    pub(crate) mentions: Vec<Mention>,
}

impl<'a> ReadRule<'a> {
    fn of(alloc: Global, rule: &'a Rule) -> Result<Self, AllocError> {
        let mut read = ReadRule {
            rule,
            statements: Vec::new(alloc),
            mentions: Vec::new(alloc),
        };
        read.read_body()?;
        Ok(read)
    }

    fn read_body(&mut self) -> Result<(), AllocError> {
        add_statements(&self.rule.body, &mut self.statements)?;
        for statement in &self.statements {
            add_mentions(statement, &mut self.mentions)?;
        }
        Ok(())
    }
}

/// The rules of a model, in the order of the text.
///
/// # Errors
///
/// Memory is refused.
pub(crate) fn rules_of(alloc: Global, atomic: &Atomic) -> Result<Vec<ReadRule<'_>>, AllocError> {
    let mut rules = Vec::with_capacity(alloc, atomic.rules.len())?;
    for rule in &atomic.rules {
        rules.push(ReadRule::of(alloc, rule)?)?;
    }
    Ok(rules)
}

/// What the holds of a model do with names.
///
/// # Errors
///
/// Memory is refused.
pub(crate) fn mentions_in_holds(
    alloc: Global,
    atomic: &Atomic,
) -> Result<Vec<Mention>, AllocError> {
    let mut mentions = Vec::new(alloc);
    for hold in &atomic.holds {
        if let Ticks::After(expression) = &hold.ticks {
            add_reads(expression, &mut mentions)?;
        }
    }
    Ok(mentions)
}

// Adds what a statement does with names, without the blocks in it.
fn add_mentions(statement: &Stmt, mentions: &mut Vec<Mention>) -> Result<(), AllocError> {
    if let Some(mention) = mention_of(statement) {
        mentions.push(mention)?;
    }
    match expression_of(statement) {
        Some(expression) => add_reads(expression, mentions),
        None => Ok(()),
    }
}

// What a statement does with the name that it has beside its expression.
fn mention_of(statement: &Stmt) -> Option<Mention> {
    match statement {
        Stmt::Assign { variable, .. } => Some(Mention::Changes(variable.number)),
        Stmt::Command { command, name, .. } => Some(match command {
            Command::Goto => Mention::GoesTo(name.number),
            Command::Pop => Mention::Changes(name.number),
        }),
        Stmt::Send { port, .. } => Some(Mention::Sends(port.number)),
        Stmt::For { bag, .. } => Some(Mention::Reads(bag.number)),
        Stmt::Change { collection, .. } => Some(Mention::Changes(collection.number)),
        Stmt::If { .. } | Stmt::IfElse { .. } => None,
    }
}

/// The expression that a statement has itself.
pub(crate) fn expression_of(statement: &Stmt) -> Option<&Expr> {
    match statement {
        Stmt::Assign { value, .. } | Stmt::Send { value, .. } | Stmt::Change { value, .. } => {
            Some(value)
        }
        Stmt::If { condition, .. } | Stmt::IfElse { condition, .. } => Some(condition),
        Stmt::Command { .. } | Stmt::For { .. } => None,
    }
}

/// Adds what an expression reads.
///
/// # Errors
///
/// Memory is refused. A part of it is added.
pub(crate) fn add_reads(expression: &Expr, mentions: &mut Vec<Mention>) -> Result<(), AllocError> {
    match expression {
        Expr::Literal(_) | Expr::TruthValue { .. } | Expr::Elapsed { .. } => Ok(()),
        Expr::Named(name) | Expr::Call { bag: name, .. } => add_read(*name, mentions),
        Expr::Parens { inner, .. } => add_reads(inner, mentions),
        Expr::Prefixed { operand, .. } => add_reads(operand, mentions),
        Expr::Binary { left, right, .. } => {
            add_reads(left, mentions)?;
            add_reads(right, mentions)
        }
        Expr::Times { value, bag, .. } => {
            add_read(*bag, mentions)?;
            add_reads(value, mentions)
        }
    }
}

fn add_read(name: Name, mentions: &mut Vec<Mention>) -> Result<(), AllocError> {
    mentions.push(Mention::Reads(name.number))?;
    Ok(())
}
